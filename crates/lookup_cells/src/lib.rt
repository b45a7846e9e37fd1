// The least weight of a tuple, by shortest distances on cells: one for each state and combination of positions in the
// strings.
#![tactic(auto)]

pub mod chain;
pub mod ends;
pub mod fill;
pub mod push;
pub mod queue;
pub mod recall;
