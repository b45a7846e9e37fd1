// The call: a refusal before any state is reached, the search, the answer by it, and work space cleared.
ghost use Rattle.std.specs.Prelude.{◌≡◌, length};
ghost use Rattle.automata.specs.Memory.{table_of};
ghost use Rattle.automata.specs.Calls.Outcome.{space_of, put, made_of, built_of, slices_of};
ghost use Rattle.automata.specs.Calls.JoinSteps.{product_step};
ghost use Rattle.automata.specs.Calls.Product.{product_answer, product_outcome};
ghost use Rattle.table.specs.Answers.{memory, table_as};
ghost use Rattle.product.specs.Multiplied.{Multipliable};

use crate::finish::answer_search;
use crate::prepare::{plan_for, prepare};
use product_search::explore::explore;
use table::answer::{Counts, Refusal};
use table::bytes::zero;
use table::layout::{ARC_SIZE, STATE_SIZE};
use table::lent::Table;

// The product as a step of a join: of two tables that were judged, with enough work space. Work space is left as it is.
pub fn product_step(
    first: &Table,
    second: &Table,
    out_states: &mut [u8],
    out_arcs: &mut [u8],
    work: &mut [u8],
) -> Result<Counts, Refusal>
    requires { Multipliable (memory first.now) (memory second.now) (length out_states.old) (length out_arcs.old)
        (length work.old) }
    ensures { made_of (table_as result) out_states.new out_arcs.new
        ≡ product_step (table_of (memory first.now))
        (table_of (memory second.now))
        (slices_of out_states.old out_arcs.old) }
{
    let plan = plan_for(
        first.counts,
        second.counts,
        out_states.len() / STATE_SIZE,
        out_arcs.len() / ARC_SIZE,
    );
    let head = explore(
        plan,
        first.states,
        first.arcs,
        second.states,
        second.arcs,
        work,
    );
    answer_search(
        plan,
        head,
        first.states,
        first.arcs,
        second.states,
        second.arcs,
        work,
        out_states,
        out_arcs,
    )
}

// The answer of the call, with whatever is left in work space.
fn multiply(
    first: &Table,
    second: &Table,
    out_states: &mut [u8],
    out_arcs: &mut [u8],
    work: &mut [u8],
) -> Result<Counts, Refusal>
    ensures { made_of (table_as result) out_states.new out_arcs.new
        ≡ put (product_answer (memory first.now) (memory second.now)
        (space_of (slices_of out_states.old out_arcs.old)) work.old)
        (slices_of out_states.old out_arcs.old) }
{
    prepare(
        first,
        second,
        out_states.len() / STATE_SIZE,
        out_arcs.len() / ARC_SIZE,
        work.len(),
    )?;
    product_step(first, second, out_states, out_arcs, work)
}

// The aligned product of the first table and the second, into `out_states` and `out_arcs`. Work space is zero
// afterwards.
pub fn product(
    first: &Table,
    second: &Table,
    out_states: &mut [u8],
    out_arcs: &mut [u8],
    work: &mut [u8],
) -> Result<Counts, Refusal>
    ensures { built_of (table_as result) out_states.new out_arcs.new work.new
        ≡ product_outcome (memory first.now) (memory second.now)
        (slices_of out_states.old out_arcs.old) work.old }
{
    let answer = multiply(first, second, out_states, out_arcs, work);
    zero(work);
    answer
}
