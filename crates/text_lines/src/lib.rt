// The lines of a table's text: each read by its columns, and the text judged line by line.
#![tactic(auto)]

pub mod arc;
pub mod body;
pub mod header;
pub mod judge;
pub mod state;
