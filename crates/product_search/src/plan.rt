// What a search reads, by value.
use table::answer::Counts;

// The counts of both tables read, the most states and arcs that there is room for, where the records of moves begin in
// the work space, and how many moves are looked for: the search is given up with one more.
#[derive(Clone, Copy)]
pub struct Plan {
    pub first: Counts,
    pub second: Counts,
    pub states: usize,
    pub arcs: usize,
    pub base: usize,
    pub limit: usize,
}
