// Pairs of tapes and their limits in columns: each a decimal number, kept as a byte.
ghost use Rattle.std.specs.Prelude.{◌≡◌, ◌+◌, ◌*◌, ◌≤◌, length};
ghost use Rattle.automata.specs.Answer.{forget};
ghost use Rattle.automata.specs.Layout.{entry_width, pair_width};
ghost use Rattle.table.specs.Region.{splice};
ghost use Rattle.table.specs.Answers.{judged_as};
ghost use Rattle.text_store.specs.Recode.{recoded};
ghost use Rattle.agree_line.specs.PairBytes.{saturated};
ghost use Rattle.agree_line.specs.PairColumns.{byte_of_column, read_pair, pairs_read, bytes_of_columns};

use table::answer::{Refusal, both};
use table::layout::{ENTRY_WIDTH, LIMIT_COLUMN, PAIR_WIDTH, SECOND_COLUMN};
use table::pair::PAIR;
use text_columns::decimal::read_decimal;
use text_store::recode::write_parts;

// The columns of a pair hold three numbers.
fn judge_pair(columns: &[u8]) -> Result<(), Refusal>
    requires { length columns.now ≡ pair_width }
    ensures { judged_as result ≡ forget (read_pair columns.now) }
{
    let first = read_decimal(&columns[0..ENTRY_WIDTH]);
    let second = read_decimal(&columns[SECOND_COLUMN..LIMIT_COLUMN]);
    let limit = read_decimal(&columns[LIMIT_COLUMN..PAIR_WIDTH]);
    let behind = both(second.and(Ok(())), limit.and(Ok(())));
    both(first.and(Ok(())), behind)
}

// The columns of so many pairs.
pub fn judge_pairs(columns: &[u8], count: usize) -> Result<(), Refusal>
    requires { length columns.now ≡ count * pair_width }
    ensures { judged_as result ≡ forget (pairs_read count columns.now) }
{
    let mut judged = Ok(());
    for i in 0..count {
        let at = PAIR_WIDTH * i;
        judged = both(judged, judge_pair(&columns[at..at + PAIR_WIDTH]));
    }
    judged
}

// A number as a byte, one above 255 as 255.
fn saturate(n: usize) -> u8
    ensures { result ≡ saturated n }
{
    n.min(255) as u8
}

// The byte of the number in its columns.
fn byte_of(column: &[u8]) -> u8
    requires { length column.now ≡ entry_width }
    ensures { result ≡ byte_of_column column.now }
{
    saturate(read_decimal(column).unwrap_or(0))
}

// The three bytes of the pair in its columns.
fn store_pair(columns: &[u8], pairs: &mut [u8], at: usize)
    requires { (length columns.now ≡ pair_width) × (at + 3 ≤ length pairs.old) }
    ensures { pairs.new ≡ splice at (bytes_of_columns columns.now) pairs.old }
{
    pairs[at] = byte_of(&columns[0..ENTRY_WIDTH]);
    pairs[at + 1] = byte_of(&columns[SECOND_COLUMN..LIMIT_COLUMN]);
    pairs[at + 2] = byte_of(&columns[LIMIT_COLUMN..PAIR_WIDTH]);
}

// The bytes of so many pairs.
pub fn store_pairs(columns: &[u8], count: usize, pairs: &mut [u8])
    requires { (count * pair_width ≤ length columns.now) × (count * 3 ≤ length pairs.old) }
    ensures { pairs.new ≡ splice 0 (recoded bytes_of_columns pair_width count columns.now)
        pairs.old }
{
    write_parts(columns, PAIR_WIDTH, count, pairs, 0, PAIR, store_pair);
}
