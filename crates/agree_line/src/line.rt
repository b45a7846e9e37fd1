// The first line of the input of `agree`: the number of pairs, then for each its two tapes and its limit.
ghost use Rattle.std.specs.Prelude.{◌≡◌, ◌+◌, ◌*◌, ◌≤◌, ◌<◌, length};
ghost use Rattle.automata.specs.AgreeText.{shortest_line};
ghost use Rattle.automata.specs.Answer.{forget};
ghost use Rattle.automata.specs.Layout.{pair_width};
ghost use Rattle.table.specs.Answers.{judged_as};
ghost use Rattle.text_columns.specs.Columns.{number_as};
ghost use Rattle.agree_line.specs.LineParts.{count_read, line_read, rest_read, parts_read, parts_as};

use crate::pair::judge_pairs;
use table::answer::{Refusal, both};
use table::layout::{ENTRY_WIDTH, PAIR_WIDTH, PAIRS_COLUMN, SHORTEST_LINE};
use text_columns::decimal::read_decimal;
use text_columns::label::line_end;

// The most bytes of an input.
const INPUT_LIMIT: usize = 65536;

// The number of pairs and the place behind the line.
#[derive(Clone, Copy)]
pub struct LineParts {
    pub count: usize,
    pub next: usize,
}

// The number of pairs. The length of the whole input is judged first, then whether there is a first line at all.
fn count_pairs(input: &[u8]) -> Result<usize, Refusal>
    ensures { number_as result ≡ count_read input.now }
{
    if INPUT_LIMIT < input.len() {
        return Err(Refusal::Size);
    }
    if input.len() < SHORTEST_LINE {
        return Err(Refusal::Short);
    }
    read_decimal(&input[0..ENTRY_WIDTH])
}

// The line behind the number of pairs: the pairs, the end of the line.
fn judge_line(line: &[u8], count: usize) -> Result<(), Refusal>
    requires { (count < 1000) × (length line.now ≡ 1 + count * pair_width) }
    ensures { judged_as result ≡ forget (line_read count line.now) }
{
    let end = count * PAIR_WIDTH;
    let pairs = judge_pairs(&line[0..end], count);
    both(pairs, line_end(line[end]))
}

// The rest of a line of so many pairs.
fn read_rest(input: &[u8], count: usize) -> Result<LineParts, Refusal>
    requires { (count < 1000) × (shortest_line ≤ length input.now) }
    ensures { parts_as result ≡ rest_read count input.now }
{
    let next = SHORTEST_LINE + count * PAIR_WIDTH;
    if input.len() < next {
        return Err(Refusal::Short);
    }
    judge_line(&input[PAIRS_COLUMN..next], count)?;
    Ok(LineParts { count, next })
}

// The parts of the first line, or its refusal.
pub fn read_line(input: &[u8]) -> Result<LineParts, Refusal>
    ensures { parts_as result ≡ parts_read input.now }
{
    let count = count_pairs(input)?;
    read_rest(input, count)
}
