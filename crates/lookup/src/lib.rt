// The weight of a tuple as it is called.
#![tactic(auto)]

pub mod call;
pub mod judge;
