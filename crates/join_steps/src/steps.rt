// The steps of a join: the product, what agrees on the moved pairs, and the second tapes dropped. The first step that
// refuses decides.
ghost use Rattle.std.specs.Prelude.{◌≡◌, length};
ghost use Rattle.automata.specs.Memory.{table_of};
ghost use Rattle.automata.specs.Calls.Outcome.{made_of, slices_of};
ghost use Rattle.automata.specs.Calls.JoinSteps.{join_by_calls};
ghost use Rattle.table.specs.Answers.{memory, table_as};
ghost use Rattle.table.specs.Pairs.{pairs_as};
ghost use Rattle.join_steps.specs.Steps.{Joinable};

use crate::keep::keep_firsts;
use intersect_offers::plan::Plan;
use intersect_room::room::Room;
use pairs::moved_pairs;
use product::call::product_step;
use table::answer::{Counts, Refusal};
use table::lent::Table;
use table::pair::PairList;

// All steps, the product into its space and the result into `out_states` and `out_arcs`. The room is that of the build,
// in the whole work space, which the product leaves free.
pub fn join_steps(
    first: &Table,
    second: &Table,
    pairs: PairList,
    room: Room,
    product_states: &mut [u8],
    product_arcs: &mut [u8],
    out_states: &mut [u8],
    out_arcs: &mut [u8],
    work: &mut [u8],
) -> Result<Counts, Refusal>
    requires { Joinable (memory first.now) (memory second.now) pairs room (length product_states.old)
        (length product_arcs.old) (length out_states.old) (length out_arcs.old) (length work.old) }
    ensures { made_of (table_as result) out_states.new out_arcs.new
        ≡ join_by_calls (table_of (memory first.now))
        (table_of (memory second.now)) (pairs_as pairs)
        (slices_of product_states.old product_arcs.old)
        (slices_of out_states.old out_arcs.old) }
{
    let answer = product_step(first, second, product_states, product_arcs, work);
    // by `let else`, not by `?`: so document 01 has each step of a join hand its refusal on
    let Ok(counts) = answer else {
        return answer;
    };
    let plan = Plan {
        counts,
        pairs: moved_pairs(pairs, first.counts.tapes),
        room,
    };
    keep_firsts(
        plan,
        product_states,
        product_arcs,
        out_states,
        out_arcs,
        work,
    )
}
