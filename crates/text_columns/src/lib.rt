// The columns of a table's text: decimal numbers, weights and labels, read from a lent slice and written to one.
#![tactic(auto)]

pub mod decimal;
pub mod label;
pub mod weight;
