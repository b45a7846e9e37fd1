// Tapes chosen by a list.
ghost use Rattle.std.specs.Prelude.{◌≡◌, ◌*◌, ◌≤◌, length};
ghost use Rattle.automata.specs.Lists.{all};
ghost use Rattle.automata.specs.Answer.{ok, forget};
ghost use Rattle.automata.specs.Memory.{table_of};
ghost use Rattle.automata.specs.Projection.{is_tape, choosable, projected};
ghost use Rattle.automata.specs.Calls.Project.{project_answer, project_outcome};
ghost use Rattle.automata.specs.Calls.Outcome.{put, made_of, slices_of};
ghost use Rattle.automata.specs.Layout.{arc_size, state_size};
ghost use Rattle.table.specs.Answers.{counts_as, judged_as, memory, table_as};
ghost use Rattle.intersect_room.specs.Room.{lent_space};
ghost use Rattle.tapes_records.specs.Results.{Choosable};

use pairs::is_tape;
use table::answer::{Counts, Refusal};
use table::judge::judge;
use table::layout::{ARC_SIZE, STATE_SIZE};
use table::lent::Table;
use tapes_records::choose::choose_arcs;
use tapes_records::room::{copy_table, fits};

// Whether each byte is one of so many tapes, counted from 1.
fn all_tapes(tapes: &[u8], count: usize) -> bool
    ensures { result ≡ all (is_tape count) tapes.now }
{
    for tape in tapes {
        if !is_tape(count, *tape) {
            return false;
        }
    }
    true
}

// Whether there is a byte, and each is.
fn may_choose(tapes: &[u8], count: usize) -> bool
    ensures { result ≡ choosable tapes.now count }
{
    !tapes.is_empty() && all_tapes(tapes, count)
}

// The first refusal of the call: the table, how many tapes are chosen and which, the space lent to the result.
fn judge_choice(
    table: &Table,
    tapes: &[u8],
    lent_states: usize,
    lent_arcs: usize,
) -> Result<(), Refusal>
    ensures { judged_as result ≡ forget (project_answer (memory table.now)
        tapes.now (lent_space lent_states lent_arcs)) }
{
    judge(table)?;
    if 8 < tapes.len() {
        return Err(Refusal::Width);
    }
    if !may_choose(tapes, table.counts.tapes) {
        return Err(Refusal::Tape);
    }
    fits(
        table.counts.states,
        table.counts.arcs,
        lent_states,
        lent_arcs,
    )
}

// The table copied into the result, and the tapes chosen there.
fn choose_copy(table: &Table, tapes: &[u8], out_states: &mut [u8], out_arcs: &mut [u8]) -> Counts
    requires { Choosable (memory table.now) tapes.now
        × (state_size * table.now.counts.states ≤ length out_states.old)
        × (arc_size * table.now.counts.arcs ≤ length out_arcs.old) }
    ensures { made_of (ok (counts_as result)) out_states.new out_arcs.new
        ≡ put (ok (projected tapes.now (table_of (memory table.now))))
        (slices_of out_states.old out_arcs.old) }
{
    copy_table(table, out_states, 0, out_arcs, 0);
    choose_arcs(table.counts.arcs, tapes, tapes.len(), out_arcs);
    Counts {
        tapes: tapes.len(),
        ..table.counts
    }
}

// Choosing: the table on the tapes of a list, in its order and as often as listed, into `out_states` and `out_arcs`.
pub fn project(
    table: &Table,
    tapes: &[u8],
    out_states: &mut [u8],
    out_arcs: &mut [u8],
) -> Result<Counts, Refusal>
    ensures { made_of (table_as result) out_states.new out_arcs.new
        ≡ project_outcome (memory table.now) tapes.now (slices_of out_states.old out_arcs.old) }
{
    judge_choice(
        table,
        tapes,
        out_states.len() / STATE_SIZE,
        out_arcs.len() / ARC_SIZE,
    )?;
    Ok(choose_copy(table, tapes, out_states, out_arcs))
}
