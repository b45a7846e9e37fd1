// The text of the program `agree`: the first line of its input, and the line of a refusal.
#![tactic(auto)]

pub mod keep;

ghost use Rattle.std.specs.Prelude.{◌≤◌, length};
ghost use Rattle.automata.specs.Answer.{refused};
ghost use Rattle.automata.specs.AgreeText.{write_output};
ghost use Rattle.automata.specs.Agree.{agree};
ghost use Rattle.table.specs.Answers.{refusal_number};
ghost use Rattle.agree_text.specs.FirstLine.{FirstLine};
ghost use Rattle.agree_text.specs.Wrote.{Wrote};

use crate::keep::{OUTPUT_LENT, keep_text};
use agree_line::line::{LineParts, read_line};
use agree_line::pair::store_pairs;
use table::answer::Refusal;
use table::bytes::copy_into;
use table::layout::{NEWLINE, PAIRS_COLUMN};
use table::pair::PAIR;
use text_columns::decimal::write_decimal;

// The bytes of as many pairs as the first line can count.
const PAIRS_LENT: usize = 999 * PAIR;

// The first line of the input: where it ends, and the pairs of tapes with their limits, three bytes a pair.
pub fn read_pair_line(input: &[u8], pairs: &mut [u8; PAIRS_LENT]) -> Result<LineParts, Refusal>
    ensures { FirstLine input.now pairs.new result }
{
    let p = read_line(input)?;
    store_pairs(&input[PAIRS_COLUMN..p.next], p.count, pairs);
    Ok(p)
}

// The line of a refusal, over the front of the output.
pub fn write_refusal(output: &mut [u8], r: Refusal) -> usize
    requires { 12 ≤ length output.old }
    ensures { Wrote (write_output (refused (refusal_number r))) output.old output.new result }
{
    let word = [114u8, 101, 102, 117, 115, 101, 100];
    copy_into(output, 0, &word);
    write_decimal(output, 7, 4, usize::from(u8::from(r)));
    output[11] = NEWLINE;
    12
}

// The program `agree` from the text that it reads to the text that it writes.
pub fn agree_text(input: &[u8], output: &mut [u8; OUTPUT_LENT]) -> usize
    ensures { Wrote (agree input.now) output.old output.new result }
{
    let mut pairs = [0u8; PAIRS_LENT];
    match read_pair_line(input, &mut pairs) {
        Ok(p) => {
            let used = PAIR * p.count;
            keep_text(&input[p.next..], &pairs[..used], output)
        }
        Err(k) => write_refusal(output, k),
    }
}
