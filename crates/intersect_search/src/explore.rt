// The search over all configurations that are reached.
ghost use Rattle.std.specs.Prelude.{length};
ghost use Rattle.table_adjacency.specs.Chains.{Chained};
ghost use Rattle.intersect_offers.specs.Plans.{Explorable};
ghost use Rattle.intersect_head.specs.Starting.{Beginnable, Begun};
ghost use Rattle.intersect_search.specs.Exploring.{Runnable, Runs, Explored};

use delays::closing_tables;
use intersect_config::config::ROW_SIZE;
use intersect_head::head::Head;
use intersect_offers::plan::Plan;
use search_chains::clear;
use table::layout::CONFIG_SIZE;
use table::lent::Table;
use table_adjacency::chain_arcs;

// The configurations in which paths start.
fn begin(plan: Plan, states: &[u8], work: &mut [u8]) -> Head
    requires { Beginnable plan states.now work.old }
    ensures { Begun plan states.now work.old result work.new }
{
    let mut head = Head {
        taken: 0,
        reached: 0,
        arcs: 0,
        late: false,
        full: false,
    };
    for q in 0..plan.counts.states {
        head = head.start(plan, states, q, work);
        if head.full {
            return head;
        }
    }
    head
}

// All configurations that are reached from those, taken up one after the other, by the chains of the arcs.
fn run_chained(
    start: Head,
    plan: Plan,
    arcs: &[u8],
    first: &[u16],
    next: &[u16],
    work: &mut [u8],
) -> Head
    requires { Runnable plan start arcs.now work.old
        × Chained plan.counts.states plan.counts.arcs arcs.now first.now next.now }
    ensures { Runs plan start arcs.now work.old result work.new }
{
    if start.full {
        return start;
    }
    let mut head = start;
    while head.taken < head.reached {
        head = head.take_up(plan, arcs, first, next, work);
        if head.full {
            return head;
        }
    }
    head
}

// The same, the arcs chained first.
fn run(start: Head, plan: Plan, arcs: &[u8], work: &mut [u8]) -> Head
    requires { Runnable plan start arcs.now work.old }
    ensures { Runs plan start arcs.now work.old result work.new }
{
    let mut first = [0u16; 1024];
    let mut next = [0u16; 8192];
    chain_arcs(plan.counts, arcs, &mut first, &mut next);
    run_chained(start, plan, arcs, &first, &next, work)
}

// The closing delays, chains that are all empty, the configurations in which paths start, and then all that are
// reached.
pub fn explore(plan: Plan, states: &[u8], arcs: &[u8], work: &mut [u8]) -> Head
    requires { Explorable plan states.now arcs.now (length work.old) }
    ensures { Explored plan states.now arcs.now work.old result
        work.new }
{
    let table = Table {
        counts: plan.counts,
        states,
        arcs,
    };
    closing_tables(&table, plan.pairs, work, plan.room.delays);
    clear(work, CONFIG_SIZE, ROW_SIZE, plan.room.states);
    let head = begin(plan, states, work);
    run(head, plan, arcs, work)
}
