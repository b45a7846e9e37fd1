// The answer of an auto-intersection, by what the search over its configurations left in work space.
ghost use Rattle.std.specs.Prelude.{length};
ghost use Rattle.automata.specs.Calls.Outcome.{made_of, slices_of};
ghost use Rattle.automata.specs.Answer.{ok};
ghost use Rattle.table.specs.Answers.{counts_as, table_as};
ghost use Rattle.intersect_result.specs.Standing.{Finishable, Finished};
ghost use Rattle.intersect_result.specs.Searched.{Answerable, Answers};

use crate::kept::number_kept;
use intersect_head::head::Head;
use intersect_offers::plan::Plan;
use intersect_trim::result::{write_arcs, write_states};
use table::answer::{Counts, Refusal};

// The result on the configurations that the search has reached, in `work` with the edges between them: those from which
// a final one is reached.
fn finish(
    plan: Plan,
    head: Head,
    states: &[u8],
    arcs: &[u8],
    work: &[u8],
    out_states: &mut [u8],
    out_arcs: &mut [u8],
) -> Counts
    requires { Finishable plan head states.now arcs.now work.now (length out_states.old)
        (length out_arcs.old) }
    ensures { Finished plan head states.now arcs.now work.now
        (made_of (ok (counts_as result)) out_states.new out_arcs.new)
        (slices_of out_states.old out_arcs.old) }
{
    let mut marks = [0u8; 1024];
    let mut ranks = [0u16; 1024];
    let kept = number_kept(plan.room, head, states, work, &mut marks, &mut ranks);
    write_states(work, head.reached, &marks, states, out_states);
    let number = write_arcs(
        work,
        plan.room.edges,
        head.arcs,
        &marks,
        &ranks,
        arcs,
        out_arcs,
    );
    Counts {
        tapes: plan.counts.tapes,
        states: kept,
        arcs: number,
    }
}

// The answer: more configurations than there is room for (8), more arcs (9), a step that is too long (10), or the
// result.
pub fn answer_search(
    plan: Plan,
    head: Head,
    states: &[u8],
    arcs: &[u8],
    work: &[u8],
    out_states: &mut [u8],
    out_arcs: &mut [u8],
) -> Result<Counts, Refusal>
    requires { Answerable plan head states.now arcs.now work.now (length out_states.old)
        (length out_arcs.old) }
    ensures { Answers plan head states.now arcs.now work.now
        (made_of (table_as result) out_states.new out_arcs.new)
        (slices_of out_states.old out_arcs.old) }
{
    if head.full {
        Err(Refusal::StatesFull)
    } else if plan.room.arcs < head.arcs {
        Err(Refusal::ArcsFull)
    } else if head.late {
        Err(Refusal::Delay)
    } else {
        Ok(finish(plan, head, states, arcs, work, out_states, out_arcs))
    }
}
