// Configurations of the auto-intersection by value: their records in work space, and the step by an arc.
#![tactic(auto)]

pub mod config;
pub mod leftover;
pub mod step;
