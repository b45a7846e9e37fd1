// How a join divides its work space: its product comes first, and its build then has all of it, once it is known that
// what both need fits one behind the other.
ghost use Rattle.intersect_room.specs.Room.{lent_space};
ghost use Rattle.join.specs.Judged.{JoinRoom};

use intersect_room::room::{Room, room_for};
use table::layout::{STEP_SIZE, VERTEX_SIZE};

// The room of the build in so many bytes, for a product of so many states and arcs and a result of so many, if they are
// as many bytes as needed.
pub fn join_room(
    product_states: usize,
    product_arcs: usize,
    states: usize,
    arcs: usize,
    work: usize,
) -> Option<Room>
    ensures { JoinRoom (lent_space product_states product_arcs) (lent_space states arcs) work result }
{
    let rest = work.checked_sub(VERTEX_SIZE.checked_mul(product_states)?)?;
    let left = rest.checked_sub(STEP_SIZE.checked_mul(product_arcs)?)?;
    room_for(states, arcs, product_states, left)
}
