// What is left of the explored configurations: those from which a final one can be reached, with new numbers, written
// as the result.
#![tactic(auto)]

pub mod final_marks;
pub mod rank;
pub mod result;
