// Space known beforehand (document 02, 2.1): for each pair of tapes what a build on it can need, told without a build.
#![tactic(auto)]

pub mod call;
pub mod pair;
