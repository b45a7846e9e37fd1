// Which configurations lead on to a final one: marks, bytes 0 and 1, in rounds in place over the edges.
ghost use Rattle.std.specs.Prelude.{◌≡◌, ◌++◌, ◌+◌, ◌*◌, ◌≤◌, length, take, drop};
ghost use Rattle.automata.specs.InPlace.{Becomes};
ghost use Rattle.automata.specs.Marks.{coaccessible};
ghost use Rattle.automata.specs.Layout.{step_size};
ghost use Rattle.intersect_edges.specs.Edges.{edges_at, record_graph, Joins, Joined};
ghost use Rattle.intersect_edges.specs.Marked.{bits, bools, Bits, visited_marks, swept_marks};

use crate::edge::{EdgeRecord, load_edge};
use table::layout::STEP_SIZE;

// One edge of a round: its source is marked where its target is. Tells whether the mark stayed as it was.
fn mark_source(marks: &mut [u8], e: EdgeRecord) -> bool
    requires { Joins (length marks.old) e }
    ensures { Becomes (visited_marks e marks.old) result marks.new marks.old }
{
    if marks[e.to.0 as usize] != 1 || marks[e.from.0 as usize] == 1 {
        return true;
    }
    marks[e.from.0 as usize] = 1;
    false
}

// A round over all edges, the last one first. Tells whether it left every mark as it was.
fn round_marks(work: &[u8], base: usize, arcs: usize, count: usize, marks: &mut [u8]) -> bool
    requires { (base + step_size * arcs ≤ length work.now) × (count ≤ length marks.old)
        × Joined count (edges_at base arcs work.now) }
    ensures { Becomes (swept_marks (edges_at base arcs work.now) marks.old) result
        marks.new marks.old }
{
    let mut same = true;
    for i in (0..arcs).rev() {
        let kept = mark_source(marks, load_edge(work, base + STEP_SIZE * i));
        same = same && kept;
    }
    same
}

// The marks of the configurations from which a final one can be reached, from those of the final ones: as many rounds
// as there are configurations, or until one changes nothing.
pub fn mark_coaccessible(work: &[u8], base: usize, arcs: usize, count: usize, marks: &mut [u8])
    requires { (base + step_size * arcs ≤ length work.now) × (count ≤ length marks.old)
        × Joined count (edges_at base arcs work.now) × Bits (take count marks.old) }
    ensures { marks.new ≡ bits (coaccessible (record_graph (edges_at base arcs work.now))
        (bools (take count marks.old))) ++ drop count marks.old }
{
    for _ in 0..count {
        if round_marks(work, base, arcs, count, marks) {
            return;
        }
    }
}
