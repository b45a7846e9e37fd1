// Weights in ten columns: a number of at most 999,999,999, or nine blanks and a minus sign.
ghost use Rattle.std.specs.Prelude.{◌≡◌, ◌≤◌, length};
ghost use Rattle.automata.specs.Answer.{forget};
ghost use Rattle.automata.specs.Layout.{amount_width};
ghost use Rattle.table.specs.Answers.{judged_as};
ghost use Rattle.table.specs.Records.{option_of};
ghost use Rattle.text_columns.specs.Columns.{number_as, blank_count, absent_mark, read_present, read_weight, columns_weight};

use crate::decimal::{columns_value, read_decimal};
use table::answer::Refusal;

// How many blanks a column starts with. All of it is looked at, without a branch.
pub fn leading_blanks(column: &[u8]) -> usize
    ensures { (result ≡ blank_count column.now) × (result ≤ length column.now) }
{
    let mut blank = true;
    let mut n = 0;
    for c in column {
        blank &= *c == 32;
        n += usize::from(blank);
    }
    n
}

// Whether ten columns hold the mark of an absent weight.
fn is_absent(column: &[u8]) -> bool
    requires { length column.now ≡ amount_width }
    ensures { result ≡ absent_mark column.now }
{
    leading_blanks(column) == 9 && column[9] == 45
}

// A weight that is there, at most 999,999,999.
pub fn read_present(column: &[u8]) -> Result<usize, Refusal>
    requires { length column.now ≡ amount_width }
    ensures { number_as result ≡ read_present column.now }
{
    let n = read_decimal(column)?;
    if n <= 999999999 {
        Ok(n)
    } else {
        Err(Refusal::Size)
    }
}

// A weight that may be absent, judged.
pub fn judge_weight(column: &[u8]) -> Result<(), Refusal>
    requires { length column.now ≡ amount_width }
    ensures { judged_as result ≡ forget (read_weight column.now) }
{
    if is_absent(column) {
        Ok(())
    } else {
        read_present(column).and(Ok(()))
    }
}

// The weight in columns that were judged: absent where they end with a minus sign.
pub fn columns_weight(column: &[u8]) -> Option<u32>
    requires { length column.now ≡ amount_width }
    ensures { option_of result ≡ columns_weight column.now }
{
    if column[9] == 45 {
        None
    } else {
        Some((columns_value(column) % 4294967296) as u32)
    }
}
