// The arcs from a cell that is taken up: each cell to which a tight arc leads is found.
ghost use Rattle.std.specs.Prelude.{◌≡◌, ◌*◌, ◌/◌, ◌<◌, length};
ghost use Rattle.table_adjacency.specs.Chains.{Chained};
ghost use Rattle.lookup_moves.specs.Distances.{cells_of};
ghost use Rattle.path_search.specs.Search.{search_of, follow, follow_arcs};
ghost use Rattle.path_search.specs.FirstPath.{Kept};
ghost use Rattle.table.specs.Arcs.{source_of};
ghost use Rattle.path_search.specs.Tight.{next_cell};
ghost use Rattle.path_search.specs.Searchable.{Searchable, Weights};

use crate::enter::enter_cell;
use crate::tight::{shift_of, tight_to};
use lookup_moves::spot::Spans;
use lookup_tuple::Strings;
use table::answer::Counts;

// Arc e from a cell of its source. Tells how many cells are found.
fn follow_arc(
    counts: Counts,
    arcs: &[u8],
    e: usize,
    text: &[u8],
    strings: Strings,
    spans: Spans,
    here: usize,
    found: usize,
    work: &mut [u8],
) -> usize
    requires { Searchable counts arcs.now text.now strings spans
        × Weights (counts.states * spans.all) work.old
        × Kept (counts.states * spans.all) (search_of (cells_of work.old) found) × (e < counts.arcs)
        × (here < counts.states * spans.all) × (source_of arcs.now e ≡ here / spans.all) }
    ensures { (search_of (cells_of work.new) result
        ≡ follow (counts.states * spans.all)
        (next_cell counts arcs.now text.now strings spans (cells_of work.old)) here e
        (search_of (cells_of work.old) found)) × (length work.new ≡ length work.old) }
{
    let to = here % spans.all + shift_of(counts, arcs, e, spans);
    match tight_to(counts, arcs, e, text, strings, spans, to, here, work) {
        Some(there) => enter_cell(work, counts.states * spans.all, there, e, found),
        None => found,
    }
}

// All arcs that leave the state of a cell, by their chain. Tells how many cells are found.
pub fn follow_arcs(
    counts: Counts,
    arcs: &[u8],
    text: &[u8],
    strings: Strings,
    spans: Spans,
    first: &[u16],
    next: &[u16],
    here: usize,
    found: usize,
    work: &mut [u8],
) -> usize
    requires { Searchable counts arcs.now text.now strings spans
        × Weights (counts.states * spans.all) work.old
        × Kept (counts.states * spans.all) (search_of (cells_of work.old) found)
        × Chained counts.states counts.arcs arcs.now first.now next.now
        × (here < counts.states * spans.all) }
    ensures { (search_of (cells_of work.new) result
        ≡ follow_arcs (counts.states * spans.all)
        (next_cell counts arcs.now text.now strings spans (cells_of work.old))
        counts.arcs here 0 (search_of (cells_of work.old) found))
        × (length work.new ≡ length work.old) }
{
    let mut count = found;
    let mut e = first[here / spans.all] as usize;
    while e < counts.arcs {
        count = follow_arc(counts, arcs, e, text, strings, spans, here, count, work);
        e = next[e] as usize;
    }
    count
}
