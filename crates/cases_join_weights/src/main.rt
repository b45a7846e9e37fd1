// Joins tables and prints, for each case, its number and the weight of a tuple in the join, or in joins that must give
// the same. The cases stand in the file `stdin`, in the form that the crate `cases` reads.
#![tactic(auto)]

mod run;
mod tables;

use cases::input::run_all;

fn main() {
    run_all(run::case);
}
