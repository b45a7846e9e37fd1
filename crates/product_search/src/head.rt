// The head of the search over the states of a product, and what it leaves in the work space.
ghost use Rattle.std.specs.Prelude.{◌≡◌, false, ◌+◌, ◌*◌, ◌≤◌, ◌<◌, length};
ghost use Rattle.search_rows.specs.Kept.{stored_within};
ghost use Rattle.product_search.specs.Vertices.{vertex_at};
ghost use Rattle.product_search.specs.Moves.{move_bytes};
ghost use Rattle.product_search.specs.Reading.{StatesLent, ArcsLent, LinkedArcs};
ghost use Rattle.product_search.specs.Searching.{moved_to, Ready, Arrives, TriesSecond, PassesSecond, TriesFirst, PassesFirst, TriesBoth, PassesBoth, TellsEnd, EndsFirst, EndsSecond, Tables, Indexed, TakesUp};
ghost use Rattle.automata.specs.Layout.{step_size, vertex_size};

use crate::degree::moves_out;
use crate::plan::Plan;
use crate::vertex::{ENDED, Move, NO_ARC, Vertex, enter_vertex, load_vertex, store_move_within};
use search_rows::{Entered, Reached};
use table::answer::Counts;
use table::arc::{source_at, target_at};
use table::layout::{ABSENT, ARC_SIZE, FINAL_PLACE, STATE_SIZE, VERTEX_SIZE};
use table::record::InputState;
use table_adjacency::first_arc;

// How many states were taken up and how many reached, how many arcs there are between them, and whether the search was
// given up: there were more states than there is room for, or more arcs than are looked for. That is a flag and no
// `Result`, since the counts are read where it is given up too (`explore_chained`, `product::finish::answer_search`).
#[derive(Clone, Copy)]
pub struct Head {
    pub taken: usize,
    pub reached: usize,
    pub arcs: usize,
    pub full: bool,
}

// Whether a path may end in the place with number `x`: it has ended there already, or the state has a final weight.
pub fn may_end(counts: Counts, states: &[u8], x: InputState) -> bool
    requires { StatesLent counts states.now }
    ensures { TellsEnd counts states.now x.0 result }
{
    let q = x.0 as usize;
    counts.states <= q || states[STATE_SIZE * q + FINAL_PLACE] != ABSENT
}

impl Head {
    // The head after a move: so many states are now reached, or the search is given up where these are more than there
    // is room for.
    fn moved(mut self, plan: Plan, reached: usize) -> Head
        requires { self.arcs < 1000000000000 }
        ensures { result ≡ moved_to plan self reached }
    {
        if plan.states < reached {
            self.full = true;
        } else {
            self.reached = reached;
            self.arcs += 1;
            self.full = plan.limit < self.arcs;
        }
        self
    }

    // A move from the state that is taken up, written.
    fn note(self, plan: Plan, work: &mut [u8], i: u16, j: u16, to: Reached)
        requires { (plan.base + step_size * plan.arcs ≤ length work.old) × (self.taken < 1024) }
        ensures { work.new ≡ stored_within plan.base plan.arcs self.arcs
            (move_bytes (record { from = record { 0 = self.taken }; first = i; second = j; to = to }))
            work.old }
    {
        let m = Move {
            from: Reached(self.taken as u16),
            first: i,
            second: j,
            to,
        };
        store_move_within(work, plan.base, plan.arcs, self.arcs, m);
    }

    // A move by the arcs with numbers `i` and `j` to the state `to`: how many states are now reached, or one more than
    // there is room for.
    fn arrive(self, plan: Plan, to: Vertex, i: u16, j: u16, work: &mut [u8]) -> usize
        requires { (Ready plan self 1 (length work.old)) × (self.full ≡ false) }
        ensures { Arrives plan self to i j work.old (moved_to plan self result) work.new }
    {
        match enter_vertex(work, self.reached, plan.states, to) {
            Entered::At(state) => {
                self.note(plan, work, i, j, state);
                self.reached
            }
            Entered::New(state) => {
                self.note(plan, work, i, j, state);
                self.reached + 1
            }
            Entered::Full => plan.states + 1,
        }
    }

    // The arc with number `j` of the second side, with a move of the first side by the arc `i` to the place `to`.
    fn try_second(
        self,
        plan: Plan,
        c: Vertex,
        i: u16,
        to: InputState,
        arcs: &[u8],
        j: usize,
        work: &mut [u8],
    ) -> Head
        requires { (Ready plan self 1 (length work.old)) × (self.full ≡ false)
            × (ArcsLent plan.second arcs.now) × (j < plan.second.arcs) }
        ensures { TriesSecond plan self c i to.0 arcs.now j work.old result
            work.new }
    {
        let at = ARC_SIZE * j;
        if source_at(arcs, at).0 != c.second.0 {
            return self;
        }
        let second = target_at(arcs, at);
        let next = Vertex { first: to, second };
        let reached = self.arrive(plan, next, i, j as u16, work);
        self.moved(plan, reached)
    }

    // The second side's arcs in the chain of its place, with that move of the first side. `pass_first` and `pass_both`
    // go along a chain in the same way, with other arguments and promises for each arc: one function of all three would
    // take the step, its asking and its promise as arguments, and be no plainer.
    fn pass_second(
        mut self,
        plan: Plan,
        c: Vertex,
        i: u16,
        to: InputState,
        arcs: &[u8],
        heads: &[u16],
        links: &[u16],
        work: &mut [u8],
    ) -> Head
        requires { (Ready plan self 8192 (length work.old)) × (self.full ≡ false)
            × (ArcsLent plan.second arcs.now) × (LinkedArcs plan.second arcs.now heads.now links.now) }
        ensures { PassesSecond plan self c i to.0 arcs.now links.now
            work.old result work.new }
    {
        let mut j = first_arc(plan.second, heads, c.second.0);
        while j < plan.second.arcs {
            self = self.try_second(plan, c, i, to, arcs, j, work);
            if self.full {
                return self;
            }
            j = links[j] as usize;
        }
        self
    }

    // The arc with number `i` of the first side, where the second side's path has ended.
    fn try_first(self, plan: Plan, c: Vertex, arcs: &[u8], i: usize, work: &mut [u8]) -> Head
        requires { (Ready plan self 1 (length work.old)) × (self.full ≡ false)
            × (ArcsLent plan.first arcs.now) × (i < plan.first.arcs) }
        ensures { TriesFirst plan self c arcs.now i work.old result work.new }
    {
        let at = ARC_SIZE * i;
        if source_at(arcs, at).0 != c.first.0 {
            return self;
        }
        let first = target_at(arcs, at);
        let next = Vertex {
            first,
            second: InputState(ENDED),
        };
        let reached = self.arrive(plan, next, i as u16, NO_ARC, work);
        self.moved(plan, reached)
    }

    // The first side's arcs in the chain of its place, where the second side's path has ended.
    fn pass_first(
        mut self,
        plan: Plan,
        c: Vertex,
        arcs: &[u8],
        heads: &[u16],
        links: &[u16],
        work: &mut [u8],
    ) -> Head
        requires { (Ready plan self 8192 (length work.old)) × (self.full ≡ false)
            × (ArcsLent plan.first arcs.now) × (LinkedArcs plan.first arcs.now heads.now links.now) }
        ensures { PassesFirst plan self c arcs.now links.now work.old result
            work.new }
    {
        let mut i = first_arc(plan.first, heads, c.first.0);
        while i < plan.first.arcs {
            self = self.try_first(plan, c, arcs, i, work);
            if self.full {
                return self;
            }
            i = links[i] as usize;
        }
        self
    }

    // The arc with number `i` of the first side, with the chain of the second side's place.
    fn try_both(
        self,
        plan: Plan,
        c: Vertex,
        first_arcs: &[u8],
        i: usize,
        second_arcs: &[u8],
        second_heads: &[u16],
        second_links: &[u16],
        work: &mut [u8],
    ) -> Head
        requires { (Ready plan self 8192 (length work.old)) × (self.full ≡ false)
            × (ArcsLent plan.first first_arcs.now) × (i < plan.first.arcs)
            × (ArcsLent plan.second second_arcs.now)
            × (LinkedArcs plan.second second_arcs.now second_heads.now second_links.now) }
        ensures { TriesBoth plan self c first_arcs.now second_arcs.now
            second_links.now i work.old result work.new }
    {
        let at = ARC_SIZE * i;
        if source_at(first_arcs, at).0 != c.first.0 {
            return self;
        }
        let to = target_at(first_arcs, at);
        self.pass_second(
            plan,
            c,
            i as u16,
            to,
            second_arcs,
            second_heads,
            second_links,
            work,
        )
    }

    // All pairs of arcs in the chains of both places, the first side's leading.
    fn pass_both(
        mut self,
        plan: Plan,
        c: Vertex,
        first_arcs: &[u8],
        first_heads: &[u16],
        first_links: &[u16],
        second_arcs: &[u8],
        second_heads: &[u16],
        second_links: &[u16],
        work: &mut [u8],
    ) -> Head
        requires { (Ready plan self 67108864 (length work.old)) × (self.full ≡ false)
            × (ArcsLent plan.first first_arcs.now) × (ArcsLent plan.second second_arcs.now)
            × (Indexed plan first_arcs.now first_heads.now first_links.now second_arcs.now
            second_heads.now second_links.now) }
        ensures { PassesBoth plan self c first_arcs.now first_links.now
            second_arcs.now second_links.now work.old result work.new }
    {
        let mut i = first_arc(plan.first, first_heads, c.first.0);
        while i < plan.first.arcs {
            self = self.try_both(
                plan,
                c,
                first_arcs,
                i,
                second_arcs,
                second_heads,
                second_links,
                work,
            );
            if self.full {
                return self;
            }
            i = first_links[i] as usize;
        }
        self
    }

    // The second side's arcs, where the first side's path may end.
    fn after_first(
        self,
        plan: Plan,
        c: Vertex,
        first_states: &[u8],
        second_arcs: &[u8],
        second_heads: &[u16],
        second_links: &[u16],
        work: &mut [u8],
    ) -> Head
        requires { (Ready plan self 8192 (length work.old)) × (StatesLent plan.first first_states.now)
            × (ArcsLent plan.second second_arcs.now)
            × (LinkedArcs plan.second second_arcs.now second_heads.now second_links.now) }
        ensures { EndsFirst plan self c first_states.now second_arcs.now
            second_links.now work.old result work.new }
    {
        if self.full || !may_end(plan.first, first_states, c.first) {
            return self;
        }
        self.pass_second(
            plan,
            c,
            NO_ARC,
            InputState(ENDED),
            second_arcs,
            second_heads,
            second_links,
            work,
        )
    }

    // The first side's arcs, where the second side's path may end.
    fn after_second(
        self,
        plan: Plan,
        c: Vertex,
        first_arcs: &[u8],
        first_heads: &[u16],
        first_links: &[u16],
        second_states: &[u8],
        work: &mut [u8],
    ) -> Head
        requires { (Ready plan self 8192 (length work.old)) × (ArcsLent plan.first first_arcs.now)
            × (StatesLent plan.second second_states.now)
            × (LinkedArcs plan.first first_arcs.now first_heads.now first_links.now) }
        ensures { EndsSecond plan self c first_arcs.now first_links.now
            second_states.now work.old result work.new }
    {
        if self.full || !may_end(plan.second, second_states, c.second) {
            return self;
        }
        self.pass_first(plan, c, first_arcs, first_heads, first_links, work)
    }

    // The state that is taken up, which is `c`: all moves out of it by the arcs in chains, unless the states are full.
    fn lead_on(
        mut self,
        plan: Plan,
        c: Vertex,
        first_states: &[u8],
        first_arcs: &[u8],
        first_heads: &[u16],
        first_links: &[u16],
        second_states: &[u8],
        second_arcs: &[u8],
        second_heads: &[u16],
        second_links: &[u16],
        work: &mut [u8],
    ) -> Head
        requires { (Ready plan self 67125248 (length work.old)) × (self.full ≡ false)
            × (Tables plan first_states.now first_arcs.now second_states.now second_arcs.now)
            × (Indexed plan first_arcs.now first_heads.now first_links.now second_arcs.now
            second_heads.now second_links.now) × (c ≡ vertex_at (vertex_size * self.taken) work.old) }
        ensures { TakesUp plan self first_states.now first_arcs.now
            first_links.now second_states.now second_arcs.now
            second_links.now work.old result work.new }
    {
        self = self.pass_both(
            plan,
            c,
            first_arcs,
            first_heads,
            first_links,
            second_arcs,
            second_heads,
            second_links,
            work,
        );
        self = self.after_first(
            plan,
            c,
            first_states,
            second_arcs,
            second_heads,
            second_links,
            work,
        );
        self = self.after_second(
            plan,
            c,
            first_arcs,
            first_heads,
            first_links,
            second_states,
            work,
        );
        if self.full {
            return self;
        }
        self.taken += 1;
        self
    }

    // The next state: all moves out of it by the arcs in chains, unless the states are full, or there are then more
    // moves than are looked for.
    pub fn take_up(
        mut self,
        plan: Plan,
        first_states: &[u8],
        first_arcs: &[u8],
        first_heads: &[u16],
        first_links: &[u16],
        second_states: &[u8],
        second_arcs: &[u8],
        second_heads: &[u16],
        second_links: &[u16],
        work: &mut [u8],
    ) -> Head
        requires { (Ready plan self 67125248 (length work.old)) × (self.full ≡ false)
            × (Tables plan first_states.now first_arcs.now second_states.now second_arcs.now)
            × (Indexed plan first_arcs.now first_heads.now first_links.now second_arcs.now
            second_heads.now second_links.now) }
        ensures { TakesUp plan self first_states.now first_arcs.now
            first_links.now second_states.now second_arcs.now
            second_links.now work.old result work.new }
    {
        let c = load_vertex(work, VERTEX_SIZE * self.taken);
        let count = moves_out(
            plan,
            c,
            first_states,
            first_heads,
            first_links,
            second_states,
            second_heads,
            second_links,
        );
        if plan.limit < self.arcs + count {
            self.arcs += count;
            self.full = true;
            return self;
        }
        self.lead_on(
            plan,
            c,
            first_states,
            first_arcs,
            first_heads,
            first_links,
            second_states,
            second_arcs,
            second_heads,
            second_links,
            work,
        )
    }
}
