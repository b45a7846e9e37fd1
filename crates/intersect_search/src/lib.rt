// The search over the configurations of the auto-intersection that are reached, in work space.
#![tactic(auto)]

pub mod explore;
