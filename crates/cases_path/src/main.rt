// Looks up the paths behind the weights of tuples and prints, for each case, its number, the path with its weight, none
// or the refusal, whether the list kept its other bytes, and whether work space is clear. The cases stand in the file
// `stdin`, in the form that the crate `cases` reads.
#![tactic(auto)]

mod run;

use cases::input::run_all;

fn main() {
    run_all(run::case);
}
