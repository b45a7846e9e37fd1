// Tables with other tapes or arcs, in memory: the union of two tables, the tapes of a table chosen by a list, and tapes
// dropped by a mask.
#![tactic(auto)]

pub mod drop;
pub mod project;
pub mod union;
