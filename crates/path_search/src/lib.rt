// The path behind the weight of a tuple: a breadth-first search over the cells of a lookup, from the cells at which the
// least paths start, over tight arcs, to the first cell at which one ends; then back along the arcs by which cells were
// found.
#![tactic(auto)]

pub mod answer;
pub mod enter;
pub mod follow;
pub mod path;
pub mod search;
pub mod tight;
pub mod trail;
