// The answer of a product, by what the search over its states left in work space.
ghost use Rattle.std.specs.Prelude.{◌≡◌, length};
ghost use Rattle.automata.specs.Calls.Outcome.{made_of, slices_of};
ghost use Rattle.automata.specs.Calls.JoinSteps.{product_step};
ghost use Rattle.table.specs.Answers.{table_as};
ghost use Rattle.product_search.specs.Plans.{first_in, second_in};
ghost use Rattle.product.specs.Answered.{Answerable};

use product_records::judge::sums_fit;
use product_records::result::{write_moves, write_states};
use product_search::head::Head;
use product_search::plan::Plan;
use table::answer::{Counts, Refusal};

// The answer: more states than there is room for (8), more arcs (9), a summed weight out of range (11), or the product.
// Nothing is written before that is known.
pub fn answer_search(
    plan: Plan,
    head: Head,
    first_states: &[u8],
    first_arcs: &[u8],
    second_states: &[u8],
    second_arcs: &[u8],
    work: &[u8],
    out_states: &mut [u8],
    out_arcs: &mut [u8],
) -> Result<Counts, Refusal>
    requires { Answerable plan first_states.now first_arcs.now second_states.now second_arcs.now head
        work.now (length out_states.old) (length out_arcs.old) }
    ensures { made_of (table_as result) out_states.new out_arcs.new
        ≡ product_step (first_in plan first_states.now first_arcs.now)
        (second_in plan second_states.now second_arcs.now)
        (slices_of out_states.old out_arcs.old) }
{
    if head.full {
        return Err(Refusal::StatesFull);
    }
    if plan.arcs < head.arcs {
        return Err(Refusal::ArcsFull);
    }
    let fit = sums_fit(
        work,
        head.reached,
        plan.base,
        head.arcs,
        first_states,
        first_arcs,
        second_states,
        second_arcs,
    );
    if !fit {
        return Err(Refusal::Weight);
    }
    write_states(work, head.reached, first_states, second_states, out_states);
    write_moves(
        work,
        plan.base,
        head.arcs,
        plan.first.tapes,
        plan.second.tapes,
        first_states,
        first_arcs,
        second_states,
        second_arcs,
        out_arcs,
    );
    Ok(Counts {
        tapes: plan.first.tapes + plan.second.tapes,
        states: head.reached,
        arcs: head.arcs,
    })
}
