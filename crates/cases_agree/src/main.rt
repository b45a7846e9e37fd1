// Runs inputs of the program `agree` and prints of each the number of the case and what is written. The cases stand in
// the file `stdin`, in the form that the crate `cases` reads: a case has the first line of an input as its string, and
// the name of the table that follows it.
#![tactic(auto)]

mod run;

use cases::input::run_all;

fn main() {
    run_all(run::case);
}
