// Arcs whose states have higher numbers, as those of a table behind another.
ghost use Rattle.std.specs.Prelude.{◌≡◌, ◌+◌, ◌*◌, ◌≤◌, ◌<◌, length, drop};
ghost use Rattle.table.specs.Region.{part, splice};
ghost use Rattle.tapes_records.specs.Rewritten.{rewritten, raised_arc};
ghost use Rattle.tapes_records.specs.Results.{Raisable, AllRaisable};
ghost use Rattle.automata.specs.Layout.{arc_size};

use table::arc::{source_at, store_ends, target_at};
use table::layout::ARC_SIZE;
use table::record::ResultState;

// Both states of the arc at `at`.
fn raise_arc(arcs: &mut [u8], at: usize, by: u16)
    requires { (at + arc_size ≤ length arcs.old) × Raisable by (part at arc_size arcs.old) }
    ensures { arcs.new ≡ splice at (raised_arc by (part at arc_size arcs.old))
        arcs.old }
{
    let source = ResultState(by + source_at(arcs, at).0);
    let target = ResultState(by + target_at(arcs, at).0);
    store_ends(arcs, at, source, target);
}

// The states of `count` arcs from a place on.
pub fn raise_arcs(arcs: &mut [u8], from: usize, count: usize, by: u16)
    requires { (from + arc_size * count ≤ length arcs.old) × AllRaisable by count (drop from arcs.old) }
    ensures { arcs.new ≡ splice from (rewritten (raised_arc by) count (drop from arcs.old))
        arcs.old }
{
    for i in 0..count {
        raise_arc(arcs, from + ARC_SIZE * i, by);
    }
}
