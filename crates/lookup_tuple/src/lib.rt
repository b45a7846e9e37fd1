// The tuple of a lookup: its strings as they stand in its text, each ended by byte 10.
#![tactic(auto)]

pub mod judge;
pub mod line;
pub mod size;

// How many strings there are, where each begins in the text, and how long each is; zeros past the last.
#[derive(Clone, Copy)]
pub struct Strings {
    pub count: usize,
    pub starts: [usize; 8],
    pub lengths: [usize; 8],
}
