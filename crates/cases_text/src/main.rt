// Reads texts and writes tables, and prints a line for each: the number of the case and the answer. The cases stand in
// the file `stdin`, in the form that the crate `cases` reads.
#![tactic(auto)]

mod run;

use cases::input::run_all;

fn main() {
    run_all(run::case);
}
