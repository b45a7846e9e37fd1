// The head of the search over configurations, and what it leaves in the work space.
ghost use Rattle.std.specs.Prelude.{◌≡◌, ◌+◌, ◌*◌, ◌≤◌, ◌<◌, length};
ghost use Rattle.table_adjacency.specs.Chains.{Chained};
ghost use Rattle.intersect_config.specs.Configs.{config_bytes, config_at, Row, row_size};
ghost use Rattle.intersect_edges.specs.Edges.{edge_bytes};
ghost use Rattle.search_rows.specs.Kept.{stored_within};
ghost use Rattle.intersect_head.specs.Searching.{counted, Arrivable, Arrives, Visitable, Visits, Takable, TakesUp};
ghost use Rattle.intersect_head.specs.Starting.{Admittable, Admits, Startable, Enters};
ghost use Rattle.automata.specs.Layout.{step_size};

use crate::entry::enter_config;
use intersect_config::config::{load_row, start_row};
use intersect_edges::edge::{EdgeRecord, store_edge};
use intersect_offers::offer::{Kind, offer, viable_config};
use intersect_offers::plan::Plan;
use intersect_room::room::Room;
use search_rows::{Entered, Reached, store_within};
use table::bytes::get16;
use table::layout::{CONFIG_SIZE, PRESENT, STATE_SIZE};
use table::record::InputState;

// How many configurations were taken up and how many reached, how many arcs there are between them, whether a step was
// too long, and whether there were more configurations than there is room for.
#[derive(Clone, Copy)]
pub struct Head {
    pub taken: usize,
    pub reached: usize,
    pub arcs: usize,
    pub late: bool,
    pub full: bool,
}

// The record of the edge with this number, written where there is room for it.
fn store_edge_within(work: &mut [u8], room: Room, number: usize, e: EdgeRecord)
    requires { room.edges + step_size * room.arcs ≤ length work.old }
    ensures { work.new ≡ stored_within room.edges room.arcs number (edge_bytes e)
        work.old }
{
    let mut record = [0u8; 6];
    store_edge(&mut record, 0, e);
    store_within(work, room.edges, room.arcs, number, &record);
}

impl Head {
    // An arc from the configuration that is taken up.
    fn note(mut self, plan: Plan, work: &mut [u8], j: usize, to: Reached) -> Head
        requires { (plan.room.edges + step_size * plan.room.arcs ≤ length work.old) × (self.taken < 1024)
            × (self.arcs < 4294967296) × (j < 8192) }
        ensures { (result ≡ counted self) × (work.new
            ≡ stored_within plan.room.edges plan.room.arcs self.arcs
            (edge_bytes (record { from = record { 0 = self.taken }; arc = j; to = to })) work.old) }
    {
        let edge = EdgeRecord {
            from: Reached(self.taken as u16),
            arc: j as u16,
            to,
        };
        store_edge_within(work, plan.room, self.arcs, edge);
        self.arcs += 1;
        self
    }

    // A step by the arc with number `j` to the configuration in the row.
    fn arrive(mut self, plan: Plan, row: &[u8], j: usize, work: &mut [u8]) -> Head
        requires { Arrivable plan self (config_at 0 row.now) j work.old
            × (config_bytes (config_at 0 row.now) ≡ row.now) }
        ensures { Arrives plan self (config_at 0 row.now) j work.old result
            work.new }
    {
        match enter_config(work, self.reached, plan.room.states, plan.pairs.used, row) {
            Entered::At(state) => self.note(plan, work, j, state),
            Entered::New(state) => {
                self.reached += 1;
                self.note(plan, work, j, state)
            }
            Entered::Full => {
                self.full = true;
                self
            }
        }
    }

    // The arc with number `j`, for the configuration in `own`, which is taken up. The row is free to be written over.
    fn visit(
        mut self,
        plan: Plan,
        own: &[u8],
        arcs: &[u8],
        j: usize,
        row: &mut [u8],
        work: &mut [u8],
    ) -> Head
        requires { Visitable plan self (config_at 0 own.now) arcs.now j work.old × (length own.now ≡ row_size)
            × Row plan.pairs.used row.old }
        ensures { Visits plan self (config_at 0 own.now) arcs.now j work.old result
            work.new × Row plan.pairs.used row.new }
    {
        match offer(plan, own, arcs, j, work, row) {
            Kind::Nothing => self,
            Kind::Late => {
                self.late = true;
                self
            }
            Kind::To => self.arrive(plan, row, j, work),
        }
    }

    // The next configuration: the arcs that leave its state, unless the configurations are full.
    pub fn take_up(
        mut self,
        plan: Plan,
        arcs: &[u8],
        first: &[u16],
        next: &[u16],
        work: &mut [u8],
    ) -> Head
        requires { Takable plan self arcs.now work.old
            × Chained plan.counts.states plan.counts.arcs arcs.now first.now next.now }
        ensures { TakesUp plan self arcs.now work.old result work.new }
    {
        let own = load_row(work, CONFIG_SIZE * self.taken);
        let mut row = start_row(InputState(0));
        let state = get16(&own, 0) as usize;
        let mut j = first[state] as usize;
        while j < plan.counts.arcs {
            self = self.visit(plan, &own, arcs, j, &mut row, work);
            if self.full {
                return self;
            }
            j = next[j] as usize;
        }
        self.taken += 1;
        self
    }

    // A configuration in which a path starts, in a row.
    fn admit(mut self, plan: Plan, row: &[u8], work: &mut [u8]) -> Head
        requires { Admittable plan self (config_at 0 row.now) work.old
            × (config_bytes (config_at 0 row.now) ≡ row.now) }
        ensures { Admits plan self (config_at 0 row.now) work.old result work.new }
    {
        match enter_config(work, self.reached, plan.room.states, plan.pairs.used, row) {
            Entered::At(_) => self,
            Entered::New(_) => {
                self.reached += 1;
                self
            }
            Entered::Full => {
                self.full = true;
                self
            }
        }
    }

    // The input state with number `q`: its configuration, where a path may start in it.
    pub fn start(mut self, plan: Plan, states: &[u8], q: usize, work: &mut [u8]) -> Head
        requires { Startable plan self states.now q work.old }
        ensures { Enters plan self states.now q work.old result work.new }
    {
        if states[STATE_SIZE * q] != PRESENT {
            return self;
        }
        let row = start_row(InputState(q as u16));
        if !viable_config(plan, &row, work) {
            return self;
        }
        self.admit(plan, &row, work)
    }
}
