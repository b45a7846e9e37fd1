// The search over all states of the product that are reached.
ghost use Rattle.std.specs.Prelude.{◌≡◌, false, ◌<◌, length};
ghost use Rattle.product_search.specs.Plans.{Explorable, states_only};
ghost use Rattle.product_search.specs.Reading.{StatesLent};
ghost use Rattle.product_search.specs.Starting.{Open, Admits, StartsOne, StartsAll, StartsBoth, Beginnable, Begun};
ghost use Rattle.product_search.specs.Searching.{Indexed};
ghost use Rattle.product_search.specs.Exploring.{Runnable, Runs, Searches, AllChained, Recounts, Explored};

use crate::head::Head;
use crate::plan::Plan;
use crate::vertex::{Vertex, enter_vertex};
use search_chains::clear;
use search_rows::Entered;
use table::layout::{ABSENT, STATE_SIZE, VERTEX_SIZE};
use table::record::InputState;
use table_adjacency::chain_arcs;
use table_adjacency::distinct::link_distinct;

impl Head {
    // A state of the product in which a path starts.
    fn admit(mut self, plan: Plan, d: Vertex, work: &mut [u8]) -> Head
        requires { (Open plan self (length work.old)) × (self.full ≡ false) }
        ensures { Admits plan self d work.old result work.new }
    {
        match enter_vertex(work, self.reached, plan.states, d) {
            Entered::At(_) => (),
            Entered::New(_) => self.reached += 1,
            Entered::Full => self.full = true,
        }
        self
    }

    // The state with number `q` of the second side, with the state `x` of the first.
    fn start_one(self, plan: Plan, x: InputState, states: &[u8], q: usize, work: &mut [u8]) -> Head
        requires { (Open plan self (length work.old)) × (self.full ≡ false)
            × (StatesLent plan.second states.now) × (q < plan.second.states) }
        ensures { StartsOne plan self x.0 states.now q work.old result work.new }
    {
        if states[STATE_SIZE * q] == ABSENT {
            return self;
        }
        let d = Vertex {
            first: x,
            second: InputState(q as u16),
        };
        self.admit(plan, d, work)
    }

    // All states of the second side, with the state `x` of the first.
    fn start_all(mut self, plan: Plan, x: InputState, states: &[u8], work: &mut [u8]) -> Head
        requires { (Open plan self (length work.old)) × (self.full ≡ false)
            × (StatesLent plan.second states.now) }
        ensures { StartsAll plan self x.0 states.now work.old result work.new }
    {
        for q in 0..plan.second.states {
            self = self.start_one(plan, x, states, q, work);
            if self.full {
                return self;
            }
        }
        self
    }

    // The state with number `q` of the first side, with all of the second side.
    fn start_both(
        self,
        plan: Plan,
        first_states: &[u8],
        q: usize,
        second_states: &[u8],
        work: &mut [u8],
    ) -> Head
        requires { (Open plan self (length work.old)) × (self.full ≡ false)
            × (StatesLent plan.first first_states.now) × (q < plan.first.states)
            × (StatesLent plan.second second_states.now) }
        ensures { StartsBoth plan self first_states.now q second_states.now
            work.old result work.new }
    {
        if first_states[STATE_SIZE * q] == ABSENT {
            return self;
        }
        self.start_all(plan, InputState(q as u16), second_states, work)
    }
}

// All pairs of initial states, the first side's leading.
fn begin(plan: Plan, first_states: &[u8], second_states: &[u8], work: &mut [u8]) -> Head
    requires { Beginnable plan first_states.now second_states.now (length work.old) }
    ensures { Begun plan first_states.now second_states.now work.old result
        work.new }
{
    let mut head = Head {
        taken: 0,
        reached: 0,
        arcs: 0,
        full: false,
    };
    for q in 0..plan.first.states {
        head = head.start_both(plan, first_states, q, second_states, work);
        if head.full {
            return head;
        }
    }
    head
}

// All states that are reached from those by the arcs in chains, taken up one after the other.
fn run(
    start: Head,
    plan: Plan,
    first_states: &[u8],
    first_arcs: &[u8],
    first_heads: &[u16],
    first_links: &[u16],
    second_states: &[u8],
    second_arcs: &[u8],
    second_heads: &[u16],
    second_links: &[u16],
    work: &mut [u8],
) -> Head
    requires { (Runnable plan start first_states.now first_arcs.now second_states.now second_arcs.now
        (length work.old)) × (Indexed plan first_arcs.now first_heads.now first_links.now
        second_arcs.now second_heads.now second_links.now) }
    ensures { Runs plan start first_states.now first_arcs.now
        first_links.now second_states.now second_arcs.now
        second_links.now work.old result work.new }
{
    if start.full {
        return start;
    }
    let mut head = start;
    while head.taken < head.reached {
        head = head.take_up(
            plan,
            first_states,
            first_arcs,
            first_heads,
            first_links,
            second_states,
            second_arcs,
            second_heads,
            second_links,
            work,
        );
        if head.full {
            return head;
        }
    }
    head
}

// Chains of states that are all empty, the states in which paths start, and then all that are reached by the arcs in
// chains.
fn search(
    plan: Plan,
    first_states: &[u8],
    first_arcs: &[u8],
    first_heads: &[u16],
    first_links: &[u16],
    second_states: &[u8],
    second_arcs: &[u8],
    second_heads: &[u16],
    second_links: &[u16],
    work: &mut [u8],
) -> Head
    requires { (Explorable plan first_states.now first_arcs.now second_states.now second_arcs.now
        (length work.old)) × (Indexed plan first_arcs.now first_heads.now first_links.now
        second_arcs.now second_heads.now second_links.now) }
    ensures { Searches plan first_states.now first_arcs.now
        first_links.now second_states.now second_arcs.now
        second_links.now work.old result work.new }
{
    clear(work, VERTEX_SIZE, 4, plan.states);
    let head = begin(plan, first_states, second_states, work);
    run(
        head,
        plan,
        first_states,
        first_arcs,
        first_heads,
        first_links,
        second_states,
        second_arcs,
        second_heads,
        second_links,
        work,
    )
}

// The plan of a search for states alone.
fn states_only(plan: Plan) -> Plan
    ensures { result ≡ states_only plan }
{
    Plan {
        arcs: 0,
        limit: 1000000000000,
        ..plan
    }
}

// Whether there are more states than there is room for, where there are more arcs than that: a search by arcs to
// distinct targets, which notes no move.
fn recount(
    plan: Plan,
    arcs: usize,
    first_states: &[u8],
    first_arcs: &[u8],
    first_heads: &[u16],
    first_links: &[u16],
    second_states: &[u8],
    second_arcs: &[u8],
    second_heads: &[u16],
    second_links: &[u16],
    work: &mut [u8],
) -> Head
    requires { (Explorable plan first_states.now first_arcs.now second_states.now second_arcs.now
        (length work.old)) × (AllChained plan first_arcs.now first_heads.now first_links.now
        second_arcs.now second_heads.now second_links.now) }
    ensures { Recounts plan first_states.now first_arcs.now
        second_states.now second_arcs.now arcs work.old result work.new }
{
    let mut heads = [0u16; 1024];
    let mut links = [0u16; 8192];
    let mut heads2 = [0u16; 1024];
    let mut links2 = [0u16; 8192];
    link_distinct(
        plan.first,
        first_arcs,
        first_heads,
        first_links,
        &mut heads,
        &mut links,
    );
    link_distinct(
        plan.second,
        second_arcs,
        second_heads,
        second_links,
        &mut heads2,
        &mut links2,
    );
    let mut head = search(
        states_only(plan),
        first_states,
        first_arcs,
        &heads,
        &links,
        second_states,
        second_arcs,
        &heads2,
        &links2,
        work,
    );
    head.arcs = arcs;
    head
}

// The search by all arcs, in chains by their sources, and where it was given up for more arcs than there is room for,
// that for states alone.
fn explore_chained(
    plan: Plan,
    first_states: &[u8],
    first_arcs: &[u8],
    first_heads: &[u16],
    first_links: &[u16],
    second_states: &[u8],
    second_arcs: &[u8],
    second_heads: &[u16],
    second_links: &[u16],
    work: &mut [u8],
) -> Head
    requires { (Explorable plan first_states.now first_arcs.now second_states.now second_arcs.now
        (length work.old)) × (plan.limit ≡ plan.arcs)
        × (AllChained plan first_arcs.now first_heads.now first_links.now second_arcs.now
        second_heads.now second_links.now) }
    ensures { Explored plan first_states.now first_arcs.now
        second_states.now second_arcs.now work.old result work.new }
{
    let head = search(
        plan,
        first_states,
        first_arcs,
        first_heads,
        first_links,
        second_states,
        second_arcs,
        second_heads,
        second_links,
        work,
    );
    if head.arcs <= plan.arcs {
        return head;
    }
    recount(
        plan,
        head.arcs,
        first_states,
        first_arcs,
        first_heads,
        first_links,
        second_states,
        second_arcs,
        second_heads,
        second_links,
        work,
    )
}

// The arcs of both tables in chains by their sources, and the search by these.
pub fn explore(
    plan: Plan,
    first_states: &[u8],
    first_arcs: &[u8],
    second_states: &[u8],
    second_arcs: &[u8],
    work: &mut [u8],
) -> Head
    requires { (Explorable plan first_states.now first_arcs.now second_states.now second_arcs.now
        (length work.old)) × (plan.limit ≡ plan.arcs) }
    ensures { Explored plan first_states.now first_arcs.now
        second_states.now second_arcs.now work.old result work.new }
{
    let mut first_heads = [0u16; 1024];
    let mut first_links = [0u16; 8192];
    let mut second_heads = [0u16; 1024];
    let mut second_links = [0u16; 8192];
    chain_arcs(plan.first, first_arcs, &mut first_heads, &mut first_links);
    chain_arcs(
        plan.second,
        second_arcs,
        &mut second_heads,
        &mut second_links,
    );
    explore_chained(
        plan,
        first_states,
        first_arcs,
        &first_heads,
        &first_links,
        second_states,
        second_arcs,
        &second_heads,
        &second_links,
        work,
    )
}
