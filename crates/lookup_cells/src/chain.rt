// The arcs of a table in chains by their targets: the first arc into each state, and behind these the next arc of each
// arc.
ghost use Rattle.std.specs.Prelude.{◌≡◌, ◌+◌, ◌*◌, ◌≤◌, ◌<◌, length, get_or, set, replicate};
ghost use Rattle.lookup_cells.specs.Chains.{Chained};
ghost use Rattle.table.specs.Arcs.{target_of};
ghost use Rattle.automata.specs.Layout.{arc_size};

use table::answer::Counts;
use table::arc::target_at;
use table::layout::ARC_SIZE;

// Chains without an arc: 65,535 is none.
pub fn no_chains() -> [u16; 9216]
    ensures { result ≡ replicate 9216 65535 }
{
    [65535; 9216]
}

// An arc at the front of the chain of its target.
fn chain_arc(arcs: &[u8], e: usize, index: &mut [u16])
    requires { (arc_size * e + arc_size ≤ length arcs.now) × (e < 8192) × (target_of arcs.now e < 1024)
        × (length index.old ≡ 9216) }
    ensures { index.new ≡ set (set index.old (1024 + e)
        (get_or index.old (target_of arcs.now e) 0)) (target_of arcs.now e) e }
{
    let target = usize::from(target_at(arcs, ARC_SIZE * e).0);
    index[1024 + e] = index[target];
    index[target] = e as u16;
}

// All arcs, from the last to the first, so that each chain has them in their order.
pub fn chain_arcs(counts: Counts, arcs: &[u8], index: &mut [u16])
    requires { (arc_size * counts.arcs ≤ length arcs.now) × (counts.arcs ≤ 8192)
        × ((e : _) → e < counts.arcs → target_of arcs.now e < 1024) × (index.old ≡ replicate 9216 65535) }
    ensures { Chained (target_of arcs.now) counts.arcs index.new }
{
    for e in (0..counts.arcs).rev() {
        chain_arc(arcs, e, index);
    }
}
