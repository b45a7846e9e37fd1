// The steps between explored configurations as records in work space, and which configurations lead on to a final one.
#![tactic(auto)]

pub mod edge;
pub mod mark;
