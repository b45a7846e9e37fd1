// The union of two tables: the second appended to the first.
ghost use Rattle.std.specs.Prelude.{◌≡◌, length};
ghost use Rattle.automata.specs.Answer.{ok, forget};
ghost use Rattle.automata.specs.Memory.{table_of};
ghost use Rattle.automata.specs.Union.{appended};
ghost use Rattle.automata.specs.Calls.Union.{union_answer, union_outcome};
ghost use Rattle.automata.specs.Calls.Outcome.{put, made_of, slices_of};
ghost use Rattle.table.specs.Answers.{counts_as, judged_as, memory, table_as};
ghost use Rattle.intersect_room.specs.Room.{lent_space};
ghost use Rattle.tapes_records.specs.Results.{Appends};

use table::answer::{Counts, Refusal};
use table::judge::judge;
use table::layout::{ARC_SIZE, STATE_SIZE};
use table::lent::Table;
use tapes_records::raise::raise_arcs;
use tapes_records::room::{copy_table, fits};

// The first refusal of the call: the first table, the second, their tape counts, the space lent to the result.
fn judge_union(
    first: &Table,
    second: &Table,
    lent_states: usize,
    lent_arcs: usize,
) -> Result<(), Refusal>
    ensures { judged_as result ≡ forget (union_answer (memory first.now) (memory second.now)
        (lent_space lent_states lent_arcs)) }
{
    judge(first)?;
    judge(second)?;
    if first.counts.tapes != second.counts.tapes {
        return Err(Refusal::Tape);
    }
    let states = first.counts.states + second.counts.states;
    let arcs = first.counts.arcs + second.counts.arcs;
    fits(states, arcs, lent_states, lent_arcs)
}

// The records of both tables, the second's behind the first's with the numbers of its states raised.
fn append(first: &Table, second: &Table, out_states: &mut [u8], out_arcs: &mut [u8]) -> Counts
    requires { Appends (memory first.now) (memory second.now) (length out_states.old)
        (length out_arcs.old) }
    ensures { made_of (ok (counts_as result)) out_states.new out_arcs.new
        ≡ put (ok (appended (table_of (memory first.now)) (table_of (memory second.now))))
        (slices_of out_states.old out_arcs.old) }
{
    copy_table(first, out_states, 0, out_arcs, 0);
    let arc_at = ARC_SIZE * first.counts.arcs;
    copy_table(
        second,
        out_states,
        STATE_SIZE * first.counts.states,
        out_arcs,
        arc_at,
    );
    raise_arcs(
        out_arcs,
        arc_at,
        second.counts.arcs,
        first.counts.states as u16,
    );
    Counts {
        tapes: first.counts.tapes,
        states: first.counts.states + second.counts.states,
        arcs: first.counts.arcs + second.counts.arcs,
    }
}

// The union of two tables with equal tape counts, into `out_states` and `out_arcs`.
pub fn union(
    first: &Table,
    second: &Table,
    out_states: &mut [u8],
    out_arcs: &mut [u8],
) -> Result<Counts, Refusal>
    ensures { made_of (table_as result) out_states.new out_arcs.new
        ≡ union_outcome (memory first.now) (memory second.now)
        (slices_of out_states.old out_arcs.old) }
{
    judge_union(
        first,
        second,
        out_states.len() / STATE_SIZE,
        out_arcs.len() / ARC_SIZE,
    )?;
    Ok(append(first, second, out_states, out_arcs))
}
