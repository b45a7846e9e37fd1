// The head of the search over configurations: one configuration taken up, its arcs, and the configurations in which a
// path starts.
#![tactic(auto)]

pub mod entry;
pub mod head;
