// The join of two tables in memory on pairs of their tapes: product, auto-intersection, and the second tapes dropped.
#![tactic(auto)]

pub mod call;
pub mod judge;
pub mod room;
