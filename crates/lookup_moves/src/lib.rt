// The cells of a lookup, the combinations of positions that they stand for, and how the labels of an arc lead from one
// to another.
#![tactic(auto)]

pub mod cell;
pub mod moves;
pub mod spot;
