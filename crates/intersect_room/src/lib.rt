// The work space of a build: how it is divided.
#![tactic(auto)]

pub mod room;
