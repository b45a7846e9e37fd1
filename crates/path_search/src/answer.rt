// What is told of the path behind a weight, and of the search for it.

// The weight, the starting state of the path and its number of arcs.
#[derive(Clone, Copy)]
pub struct PathTold {
    pub weight: u64,
    pub start: usize,
    pub arcs: usize,
}

// The cell at which the search ended, if there is one, and how many cells it found.
#[derive(Clone, Copy)]
pub struct Searched {
    pub end: Option<usize>,
    pub found: usize,
}
