// Looks tuples up in tables and prints, for each case, its number, the answer, and whether work space is clear. The
// cases stand in the file `stdin`, in the form that the crate `cases` reads.
#![tactic(auto)]

mod run;

use cases::input::run_all;

fn main() {
    run_all(run::case);
}
