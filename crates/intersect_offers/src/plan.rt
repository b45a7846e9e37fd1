// What a search reads, by value.
use intersect_room::room::Room;
use table::answer::Counts;
use table::pair::PairList;

// The counts of the table read, the pairs of tapes that are to agree, with their limits, and the parts of work space.
#[derive(Clone, Copy)]
pub struct Plan {
    pub counts: Counts,
    pub pairs: PairList,
    pub room: Room,
}
