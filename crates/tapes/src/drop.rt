// Tapes dropped by a mask: in place, as a step of a join, and as a call.
ghost use Rattle.std.specs.Prelude.{◌≡◌, ◌*◌, ◌≤◌, length};
ghost use Rattle.automata.specs.Answer.{ok, forget};
ghost use Rattle.automata.specs.Memory.{table_of};
ghost use Rattle.automata.specs.Projection.{droppable, without};
ghost use Rattle.automata.specs.Calls.Drop.{in_mask, drop_answer, drop_outcome};
ghost use Rattle.automata.specs.Calls.JoinSteps.{drop_step};
ghost use Rattle.automata.specs.Calls.Outcome.{put, made_of, slices_of};
ghost use Rattle.automata.specs.Layout.{arc_size, state_size};
ghost use Rattle.table.specs.Answers.{counts_as, judged_as, lent, memory, table_as};
ghost use Rattle.tapes_records.specs.Choice.{Droppable};
ghost use Rattle.intersect_room.specs.Room.{lent_space};

use table::answer::{Counts, Refusal};
use table::judge::judge;
use table::layout::{ARC_SIZE, STATE_SIZE};
use table::lent::Table;
use tapes_records::choose::choose_arcs;
use tapes_records::kept::tapes_left;
use tapes_records::room::{copy_table, fits};

// The table in `states` and `arcs` without the tapes that the mask marks, where it stands: a step of a join. Its arcs
// are written, and a `Table` is lent to be read only.
pub fn drop_in_place(counts: Counts, mask: u8, states: &[u8], arcs: &mut [u8]) -> Counts
    requires { Droppable (lent counts states.now arcs.old) mask }
    ensures { made_of (ok (counts_as result)) states.now arcs.new
        ≡ drop_step (lent counts states.now arcs.old) (in_mask mask)
        (slices_of states.now arcs.old) }
{
    let mut kept = [0; 8];
    let used = tapes_left(mask, counts.tapes, &mut kept);
    choose_arcs(counts.arcs, &kept, used, arcs);
    Counts {
        tapes: counts.tapes - mask.count_ones() as usize,
        ..counts
    }
}

// Whether the mask marks tapes out of so many only, and leaves one.
fn may_drop(mask: u8, tapes: usize) -> bool
    requires { tapes ≤ 8 }
    ensures { result ≡ droppable (in_mask mask) tapes }
{
    usize::from(mask) >> tapes == 0 && (mask.count_ones() as usize) < tapes
}

// The first refusal of the call: the table, the mask, the space lent to the result.
fn judge_drop(table: &Table, mask: u8, lent_states: usize, lent_arcs: usize) -> Result<(), Refusal>
    ensures { judged_as result ≡ forget (drop_answer (memory table.now) mask
        (lent_space lent_states lent_arcs)) }
{
    judge(table)?;
    if !may_drop(mask, table.counts.tapes) {
        return Err(Refusal::Tape);
    }
    fits(
        table.counts.states,
        table.counts.arcs,
        lent_states,
        lent_arcs,
    )
}

// The table copied into the result, and the marked tapes dropped there.
fn drop_copy(table: &Table, mask: u8, out_states: &mut [u8], out_arcs: &mut [u8]) -> Counts
    requires { Droppable (memory table.now) mask
        × (state_size * table.now.counts.states ≤ length out_states.old)
        × (arc_size * table.now.counts.arcs ≤ length out_arcs.old) }
    ensures { made_of (ok (counts_as result)) out_states.new out_arcs.new
        ≡ put (ok (without (in_mask mask) (table_of (memory table.now))))
        (slices_of out_states.old out_arcs.old) }
{
    copy_table(table, out_states, 0, out_arcs, 0);
    drop_in_place(table.counts, mask, out_states, out_arcs)
}

// Dropping: the table without the tapes that the mask marks, tape t by bit t - 1, into `out_states` and `out_arcs`.
pub fn drop_tapes(
    table: &Table,
    mask: u8,
    out_states: &mut [u8],
    out_arcs: &mut [u8],
) -> Result<Counts, Refusal>
    ensures { made_of (table_as result) out_states.new out_arcs.new
        ≡ drop_outcome (memory table.now) mask (slices_of out_states.old out_arcs.old) }
{
    judge_drop(
        table,
        mask,
        out_states.len() / STATE_SIZE,
        out_arcs.len() / ARC_SIZE,
    )?;
    Ok(drop_copy(table, mask, out_states, out_arcs))
}
