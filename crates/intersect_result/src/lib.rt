// What is made of the search of an intersection: the states that are kept, the table judged and written.
#![tactic(auto)]

pub mod finish;
pub mod kept;
