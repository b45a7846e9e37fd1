// The arcs of a table by their sources: the first arc of each state, and for each arc the next one that leaves the same
// state.
#![tactic(auto)]

pub mod distinct;

ghost use Rattle.std.specs.Prelude.{◌≡◌, length, replicate};
ghost use Rattle.table_adjacency.specs.Chains.{Chainable, Chained, Heads, first_for};

use table::answer::Counts;
use table::arc::source_at;
use table::layout::ARC_SIZE;

// Every place set to `v`.
pub fn fill(places: &mut [u16], v: u16)
    ensures { places.new ≡ replicate (length places.old) v }
{
    places.fill(v);
}

// The chains of all states. They are made from the last arc on, so that each has its arcs in the order of the records.
pub fn chain_arcs(counts: Counts, arcs: &[u8], first: &mut [u16], next: &mut [u16])
    requires { Chainable counts.states counts.arcs arcs.now (length first.old) (length next.old) }
    ensures { Chained counts.states counts.arcs arcs.now first.new
        next.new }
{
    fill(first, counts.arcs as u16);
    for j in (0..counts.arcs).rev() {
        let q = source_at(arcs, ARC_SIZE * j).0 as usize;
        next[j] = first[q];
        first[q] = j as u16;
    }
}

// The first arc of the place with number `x`: the number of arcs where it has none.
pub fn first_arc(counts: Counts, first: &[u16], x: u16) -> usize
    requires { Heads counts.states counts.arcs first.now }
    ensures { result ≡ first_for counts.states counts.arcs first.now x }
{
    let q = x as usize;
    if q < counts.states {
        first[q] as usize
    } else {
        counts.arcs
    }
}
