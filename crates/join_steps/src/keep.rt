// The steps of a join after its product: what agrees on pairs of the product's tapes, and the second tapes dropped.
ghost use Rattle.std.specs.Prelude.{◌≡◌, length};
ghost use Rattle.automata.specs.Answer.{ok};
ghost use Rattle.automata.specs.TapePair.{tapes_of};
ghost use Rattle.automata.specs.Tapes.{seconds};
ghost use Rattle.automata.specs.Calls.Outcome.{made_of, slices_of, and_then};
ghost use Rattle.automata.specs.Calls.JoinSteps.{intersect_step, drop_step};
ghost use Rattle.table.specs.Answers.{lent, counts_as, table_as};
ghost use Rattle.table.specs.Pairs.{pairs_as};
ghost use Rattle.join_steps.specs.Steps.{SecondsDroppable, Keepable};

use crate::mask::second_tapes;
use intersect::step::intersect_step;
use intersect_offers::plan::Plan;
use table::answer::{Counts, Refusal};
use table::pair::PairList;
use tapes::drop::drop_in_place;

// The table in `states` and `arcs` without the second tapes of the pairs, where it stands.
fn drop_seconds(counts: Counts, pairs: PairList, states: &[u8], arcs: &mut [u8]) -> Counts
    requires { SecondsDroppable (lent counts states.now arcs.old) pairs }
    ensures { made_of (ok (counts_as result)) states.now arcs.new
        ≡ drop_step (lent counts states.now arcs.old) (seconds (tapes_of (pairs_as pairs)))
        (slices_of states.now arcs.old) }
{
    drop_in_place(counts, second_tapes(pairs), states, arcs)
}

// The steps after the product, by a plan on pairs of its tapes: what is kept of it, without the second tapes.
pub fn keep_firsts(
    plan: Plan,
    states: &[u8],
    arcs: &[u8],
    out_states: &mut [u8],
    out_arcs: &mut [u8],
    work: &mut [u8],
) -> Result<Counts, Refusal>
    requires { Keepable (lent plan.counts states.now arcs.now) plan.pairs plan.room
        (length out_states.old) (length out_arcs.old) (length work.old) }
    ensures { made_of (table_as result) out_states.new out_arcs.new
        ≡ and_then (intersect_step (lent plan.counts states.now arcs.now) (pairs_as plan.pairs)
        (slices_of out_states.old out_arcs.old))
        (λ K left. drop_step K (seconds (tapes_of (pairs_as plan.pairs))) left) }
{
    let answer = intersect_step(plan, states, arcs, out_states, out_arcs, work);
    // by `let else`, not by `?`: so document 01 has each step of a join hand its refusal on
    let Ok(kept) = answer else {
        return answer;
    };
    Ok(drop_seconds(kept, plan.pairs, out_states, out_arcs))
}
