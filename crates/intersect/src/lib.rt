// The auto-intersection as it is called.
#![tactic(auto)]

pub mod call;
pub mod prepare;
pub mod step;
