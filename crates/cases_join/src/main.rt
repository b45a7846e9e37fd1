// Joins tables and prints, for each case, its number, the answer, whether a refusal kept the result space, whether
// product space and work space are clear, and the joined table. The cases stand in the file `stdin`, in the form that
// the crate `cases` reads.
#![tactic(auto)]

mod run;

use cases::input::run_all;

fn main() {
    run_all(run::case);
}
