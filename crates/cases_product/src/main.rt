// Multiplies tables and prints, for each case, its number, the answer, whether work space is clear, and the table that
// was made. The cases stand in the file `stdin`, in the form that the crate `cases` reads.
#![tactic(auto)]

mod run;

use cases::input::run_all;

fn main() {
    run_all(run::case);
}
