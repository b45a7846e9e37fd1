// The records of a product: its weights added up and judged, its states and arcs written.
#![tactic(auto)]

pub mod judge;
pub mod record;
pub mod result;
pub mod sum;
