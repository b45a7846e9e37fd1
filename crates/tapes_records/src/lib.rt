// The records of a table copied, their states raised and the labels of their arcs chosen anew, for tables with other
// tapes.
#![tactic(auto)]

pub mod choose;
pub mod kept;
pub mod raise;
pub mod room;
