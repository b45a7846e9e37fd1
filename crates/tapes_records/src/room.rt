// The space of a result: whether it fits, and the records of a table copied into it.
ghost use Rattle.std.specs.Prelude.{◌≡◌, length};
ghost use Rattle.table.specs.Answers.{judged_as, memory};
ghost use Rattle.intersect_room.specs.Room.{lent_space};
ghost use Rattle.tapes_records.specs.Results.{fitting, Copies, Copied};

use table::answer::Refusal;
use table::bytes::copy_into;
use table::layout::{ARC_SIZE, STATE_SIZE};
use table::lent::Table;

// Whether so many states and arcs fit the space lent and the greatest table.
pub fn fits(states: usize, arcs: usize, lent_states: usize, lent_arcs: usize) -> Result<(), Refusal>
    ensures { judged_as result ≡ fitting states arcs (lent_space lent_states lent_arcs) }
{
    if lent_states.min(1024) < states {
        Err(Refusal::StatesFull)
    } else if lent_arcs.min(8192) < arcs {
        Err(Refusal::ArcsFull)
    } else {
        Ok(())
    }
}

// The records of a table, copied to a place of each slice of a result.
pub fn copy_table(
    table: &Table,
    out_states: &mut [u8],
    state_at: usize,
    out_arcs: &mut [u8],
    arc_at: usize,
)
    requires { Copies (memory table.now) state_at arc_at (length out_states.old)
        (length out_arcs.old) }
    ensures { Copied (memory table.now) state_at arc_at
        out_states.old out_arcs.old out_states.new out_arcs.new }
{
    copy_into(
        out_states,
        state_at,
        &table.states[..STATE_SIZE * table.counts.states],
    );
    copy_into(
        out_arcs,
        arc_at,
        &table.arcs[..ARC_SIZE * table.counts.arcs],
    );
}
