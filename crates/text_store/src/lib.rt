// The records of a table stored from its text.
#![tactic(auto)]

pub mod recode;
pub mod store;
