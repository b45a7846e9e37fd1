// Chains of arcs by their sources in which a state has no two arcs to the same target.
ghost use Rattle.std.specs.Prelude.{◌+◌, ◌*◌, ◌≤◌, ◌<◌, length};
ghost use Rattle.table.specs.Arcs.{source_of};
ghost use Rattle.table_adjacency.specs.Chains.{Chainable};
ghost use Rattle.table_adjacency.specs.Distinct.{Marked, MarksArc, Markable, MarksState, MarksAll, LinksArc, LinksAll, LinksDistinct};
ghost use Rattle.automata.specs.Layout.{arc_size};

use crate::fill;
use table::answer::Counts;
use table::arc::{source_at, target_at};
use table::layout::ARC_SIZE;

// The arc with number `j`, from the state `q` to `t`, is marked unless one between them is.
fn mark_arc(q: u16, t: usize, j: usize, seen: &mut [u16], marks: &mut [u16])
    requires { (q < 1024) × (t < length seen.old) × (j < length marks.old) }
    ensures { MarksArc q t j seen.old marks.old seen.new marks.new }
{
    if seen[t] != q + 1 {
        seen[t] = q + 1;
        marks[j] = 1;
    }
}

// The arcs that leave the state `q`.
fn mark_state(
    counts: Counts,
    arcs: &[u8],
    first: &[u16],
    next: &[u16],
    q: u16,
    seen: &mut [u16],
    marks: &mut [u16],
)
    requires { (Markable counts.states counts.arcs arcs.now first.now next.now)
        × (Marked counts.states counts.arcs arcs.now seen.old marks.old) × (q < counts.states) }
    ensures { MarksState counts.states counts.arcs arcs.now q seen.old
        marks.old seen.new marks.new }
{
    let state = q as usize;
    let mut j = first[state] as usize;
    while j < counts.arcs {
        let t = target_at(arcs, ARC_SIZE * j).0 as usize;
        mark_arc(q, t, j, seen, marks);
        j = next[j] as usize;
    }
}

// Those of all states.
fn mark_states(
    counts: Counts,
    arcs: &[u8],
    first: &[u16],
    next: &[u16],
    seen: &mut [u16],
    marks: &mut [u16],
)
    requires { (Markable counts.states counts.arcs arcs.now first.now next.now)
        × (Marked counts.states counts.arcs arcs.now seen.old marks.old) }
    ensures { MarksAll counts.arcs arcs.now marks.old marks.new }
{
    for q in 0..counts.states {
        mark_state(counts, arcs, first, next, q as u16, seen, marks);
    }
}

// The arc with number `j`, where it is marked, in front of the chain of its source.
fn link_arc(arcs: &[u8], j: usize, first: &mut [u16], next: &mut [u16])
    requires { (j < 8192) × (arc_size * j + arc_size ≤ length arcs.now) × (source_of arcs.now j < length first.old)
        × (j < length next.old) }
    ensures { LinksArc arcs.now j first.old next.old first.new
        next.new }
{
    if next[j] != 0 {
        let q = source_at(arcs, ARC_SIZE * j).0 as usize;
        next[j] = first[q];
        first[q] = j as u16;
    }
}

// All marked arcs, from the last on, so that each chain has its arcs in the order of the records.
fn link_arcs(counts: Counts, arcs: &[u8], first: &mut [u16], next: &mut [u16])
    requires { Chainable counts.states counts.arcs arcs.now (length first.old) (length next.old) }
    ensures { LinksAll counts.states counts.arcs arcs.now next.old
        first.new next.new }
{
    fill(first, counts.arcs as u16);
    for j in (0..counts.arcs).rev() {
        link_arc(arcs, j, first, next);
    }
}

// From the chains of all arcs those in which each arc has one between the same states. `marks` is zero before where no
// two arcs of a chain are to lead to the same target.
pub fn link_distinct(
    counts: Counts,
    arcs: &[u8],
    first: &[u16],
    next: &[u16],
    heads: &mut [u16],
    marks: &mut [u16],
)
    requires { (Markable counts.states counts.arcs arcs.now first.now next.now)
        × (Chainable counts.states counts.arcs arcs.now (length heads.old) (length marks.old)) }
    ensures { LinksDistinct counts.states counts.arcs arcs.now heads.new
        marks.new }
{
    let mut seen = [0u16; 1024];
    mark_states(counts, arcs, first, next, &mut seen, marks);
    link_arcs(counts, arcs, heads, marks);
}
