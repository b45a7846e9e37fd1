// The aligned product as it is called.
#![tactic(auto)]

pub mod call;
pub mod finish;
pub mod prepare;
