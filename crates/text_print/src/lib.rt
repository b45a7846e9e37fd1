// The text of a table printed from its records.
#![tactic(auto)]

pub mod print;
