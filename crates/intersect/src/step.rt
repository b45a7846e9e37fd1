// The auto-intersection behind its tests: the search over the configurations, and the answer by it.
ghost use Rattle.std.specs.Prelude.{◌≡◌, ◌/◌, length};
ghost use Rattle.automata.specs.Calls.Outcome.{space_of, put, made_of, slices_of};
ghost use Rattle.automata.specs.Calls.JoinSteps.{intersect_step};
ghost use Rattle.automata.specs.Layout.{arc_size, state_size};
ghost use Rattle.table.specs.Answers.{lent, table_as};
ghost use Rattle.table.specs.Pairs.{pairs_as};
ghost use Rattle.intersect_room.specs.Room.{Divides};
ghost use Rattle.intersect_offers.specs.Plans.{Explorable, pairs_in, viable_in};
ghost use Rattle.intersect_result.specs.Searched.{table_by};
ghost use Rattle.intersect.specs.Step.{Intersectable};

use intersect_offers::plan::Plan;
use intersect_result::finish::answer_search;
use intersect_search::explore::explore;
use table::answer::{Counts, Refusal};

// The search over the configurations of a plan, and the answer by it.
pub fn reach(
    plan: Plan,
    states: &[u8],
    arcs: &[u8],
    out_states: &mut [u8],
    out_arcs: &mut [u8],
    work: &mut [u8],
) -> Result<Counts, Refusal>
    requires { Explorable plan states.now arcs.now (length work.old)
        × Divides (length out_states.old / state_size) (length out_arcs.old / arc_size) plan.counts.states
        (length work.old) plan.room }
    ensures { made_of (table_as result) out_states.new out_arcs.new
        ≡ put (table_by (lent plan.counts states.now arcs.now) (pairs_in plan)
        (viable_in plan states.now arcs.now)
        (space_of (slices_of out_states.old out_arcs.old)))
        (slices_of out_states.old out_arcs.old) }
{
    let head = explore(plan, states, arcs, work);
    answer_search(plan, head, states, arcs, work, out_states, out_arcs)
}

// The auto-intersection as a step: of a table that is known to be one, on pairs of its tapes, in work space that is
// divided. Work space is not cleared.
pub fn intersect_step(
    plan: Plan,
    states: &[u8],
    arcs: &[u8],
    out_states: &mut [u8],
    out_arcs: &mut [u8],
    work: &mut [u8],
) -> Result<Counts, Refusal>
    requires { Intersectable (lent plan.counts states.now arcs.now) plan.pairs plan.room
        (length out_states.old) (length out_arcs.old) (length work.old) }
    ensures { made_of (table_as result) out_states.new out_arcs.new
        ≡ intersect_step (lent plan.counts states.now arcs.now) (pairs_as plan.pairs)
        (slices_of out_states.old out_arcs.old) }
{
    reach(plan, states, arcs, out_states, out_arcs, work)
}
