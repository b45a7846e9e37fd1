// The steps of a join once it is judged: the product, the intersection of the joined tapes, and the second of them
// dropped.
#![tactic(auto)]

pub mod keep;
pub mod mask;
pub mod steps;
