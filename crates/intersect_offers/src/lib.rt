// The plan of a search over configurations, and what an arc offers one of them.
#![tactic(auto)]

pub mod offer;
pub mod plan;
