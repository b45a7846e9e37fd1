// The search over the states of an aligned product that are reached, in work space.
#![tactic(auto)]

pub mod degree;
pub mod explore;
pub mod head;
pub mod plan;
pub mod vertex;
