// What is judged before any state of a product is reached: both tables, their tapes together, the work space; and the
// plan of the search.
ghost use Rattle.std.specs.Prelude.{◌≡◌, ◌*◌, ◌<◌, leb};
ghost use Rattle.automata.specs.Calls.Work.{product_work};
ghost use Rattle.automata.specs.Layout.{vertex_size};
ghost use Rattle.table.specs.Answers.{memory};
ghost use Rattle.product.specs.Prepared.{space_for, plan_of, Prepares};

use product_search::plan::Plan;
use table::answer::{Counts, Refusal};
use table::judge::judge;
use table::layout::{STEP_SIZE, VERTEX_SIZE};
use table::lent::Table;

// The plan of a search for so many states and arcs lent.
pub fn plan_for(first: Counts, second: Counts, states: usize, arcs: usize) -> Plan
    requires { vertex_size * states < 18446744073709551616 }
    ensures { result ≡ plan_of first second states arcs }
{
    Plan {
        first,
        second,
        states: states.min(1024),
        arcs: arcs.min(8192),
        base: VERTEX_SIZE * states,
        limit: arcs.min(8192),
    }
}

// Whether so many bytes of work space are enough for so many states and arcs lent. No product is made before it is
// known to fit.
fn enough_work(states: usize, arcs: usize, work: usize) -> bool
    ensures { result ≡ leb (product_work (space_for states arcs)) work }
{
    states <= work / VERTEX_SIZE && arcs <= (work - VERTEX_SIZE * states) / STEP_SIZE
}

// The tables, the first before the second, at most eight tapes together (12), and the work space (13).
pub fn prepare(
    first: &Table,
    second: &Table,
    states: usize,
    arcs: usize,
    work: usize,
) -> Result<(), Refusal>
    ensures { Prepares (memory first.now) (memory second.now) states arcs work result }
{
    judge(first)?;
    judge(second)?;
    if 8 < first.counts.tapes + second.counts.tapes {
        return Err(Refusal::Width);
    }
    if enough_work(states, arcs, work) {
        Ok(())
    } else {
        Err(Refusal::Space)
    }
}
