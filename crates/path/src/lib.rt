// The path behind the weight of a tuple as it is called (document 02, 2.3: the arcs behind a weight).
#![tactic(auto)]

pub mod call;
pub mod record;
