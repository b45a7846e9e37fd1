// Unions of tables, tapes chosen and tapes dropped. Prints, for each case, its number, the answer, whether the result
// space kept its bytes (all of them on a refusal, those past the records of a table), and the table. The cases stand in
// the file `stdin`, in the form that the crate `cases` reads.
#![tactic(auto)]

mod run;

use cases::input::run_all;

fn main() {
    run_all(run::case);
}
