// The answer of a call as one number of 64 bits, for C.
#![tactic(auto)]

pub mod word;
