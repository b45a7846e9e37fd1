// How a build divides its work space: so many bytes for each state lent, each arc lent, each state of the table read.
ghost use Rattle.intersect_room.specs.Room.{RoomFor};

use table::layout::{CONFIG_SIZE, DELAYS_SIZE, STEP_SIZE};

// The most configurations and arcs, and where the records of arcs and the closing delays begin.
#[derive(Clone, Copy)]
pub struct Room {
    pub states: usize,
    pub arcs: usize,
    pub edges: usize,
    pub delays: usize,
}

// The room in `work` bytes for so many states and arcs lent, and so many states of the table read, if they are as many
// bytes as needed.
pub fn room_for(states: usize, arcs: usize, read: usize, work: usize) -> Option<Room>
    ensures { RoomFor states arcs read work result }
{
    let edges = CONFIG_SIZE.checked_mul(states)?;
    let delays = STEP_SIZE.checked_mul(arcs)?.checked_add(edges)?;
    let end = DELAYS_SIZE.checked_mul(read)?.checked_add(delays)?;
    if work < end {
        return None;
    }
    Some(Room {
        states: states.min(1024),
        arcs: arcs.min(8192),
        edges,
        delays,
    })
}
