// Cases that a program reads from its standard input, and what it prints of each.
#![tactic(auto)]

pub mod input;
pub mod print;
