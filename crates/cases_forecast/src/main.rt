// Forecasts pairs of tapes and prints, for each case, its number, what is told of each pair or the refusal, whether the
// result space kept its other bytes, and whether work space is clear. The cases stand in the file `stdin`, in the form
// that the crate `cases` reads.
#![tactic(auto)]

mod run;

use cases::input::run_all;

fn main() {
    run_all(run::case);
}
