// The configurations that are kept: those from which a final one is reached.
ghost use Rattle.std.specs.Prelude.{◌≤◌, length};
ghost use Rattle.intersect_result.specs.Standing.{Laid, Kept};

use intersect_edges::mark::mark_coaccessible;
use intersect_head::head::Head;
use intersect_room::room::Room;
use intersect_trim::final_marks::mark_final;
use intersect_trim::rank::number_marked;

// The marks of the rows from which a final one is reached, and the number of marked rows before each. Answers how many
// are marked.
pub fn number_kept(
    room: Room,
    head: Head,
    states: &[u8],
    work: &[u8],
    marks: &mut [u8],
    ranks: &mut [u16],
) -> usize
    requires { Laid room head states.now work.now × (head.reached ≤ length marks.old)
        × (head.reached ≤ length ranks.old) }
    ensures { Kept room head states.now work.now marks.new
        ranks.new result }
{
    mark_final(work, head.reached, states, marks);
    mark_coaccessible(work, room.edges, head.arcs, head.reached, marks);
    number_marked(marks, head.reached, ranks)
}
