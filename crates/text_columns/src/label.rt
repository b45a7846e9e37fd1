// Labels in nine columns, the first of them blank: blanks, then up to eight symbols.
ghost use Rattle.std.specs.Prelude.{◌≡◌, ◌*◌, length, eqb};
ghost use Rattle.automata.specs.Answer.{forget, require};
ghost use Rattle.automata.specs.Refusal.{form};
ghost use Rattle.automata.specs.Layout.{label_width, newline};
ghost use Rattle.table.specs.Answers.{judged_as};
ghost use Rattle.text_columns.specs.Columns.{may_follow, label_fits, read_label, labels_read};

use table::answer::{Refusal, both};
use table::layout::{LABEL_WIDTH, NEWLINE};
use table::symbol::is_symbol;

// Whether a column of a label may follow another: a symbol, or a blank behind a blank.
fn may_follow(before: u8, c: u8) -> bool
    ensures { result ≡ may_follow before c }
{
    is_symbol(c) | ((before == 32) & (c == 32))
}

// Whether nine columns hold a label: a blank, blanks, symbols. All of them are looked at, without a branch.
fn label_fits(column: &[u8]) -> bool
    requires { length column.now ≡ label_width }
    ensures { result ≡ label_fits column.now }
{
    let mut fits = column[0] == 32;
    for i in 1..LABEL_WIDTH {
        fits &= may_follow(column[i - 1], column[i]);
    }
    fits
}

// The columns of a label, judged.
fn judge_label_column(column: &[u8]) -> Result<(), Refusal>
    requires { length column.now ≡ label_width }
    ensures { judged_as result ≡ forget (read_label column.now) }
{
    if label_fits(column) {
        Ok(())
    } else {
        Err(Refusal::Form)
    }
}

// The labels of an arc on so many tapes.
pub fn judge_label_columns(labels: &[u8], tapes: usize) -> Result<(), Refusal>
    requires { length labels.now ≡ tapes * label_width }
    ensures { judged_as result ≡ forget (labels_read tapes labels.now) }
{
    let mut judged = Ok(());
    for tape in 0..tapes {
        let at = LABEL_WIDTH * tape;
        judged = both(judged, judge_label_column(&labels[at..at + LABEL_WIDTH]));
    }
    judged
}

// The byte that ends a line.
pub fn line_end(c: u8) -> Result<(), Refusal>
    ensures { judged_as result ≡ require (eqb c newline) form }
{
    if c == NEWLINE {
        Ok(())
    } else {
        Err(Refusal::Form)
    }
}
