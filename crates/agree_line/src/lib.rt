// The pair line of the program agree.
#![tactic(auto)]

pub mod line;
pub mod pair;
