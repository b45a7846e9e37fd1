// Back from the end of a path to its start, along the arcs by which its cells were found: once to count the arcs, once
// to write their numbers.
ghost use Rattle.std.specs.Prelude.{◌≡◌, [], ◌*◌, ◌≤◌, length};
ghost use Rattle.automata.specs.Calls.LeastPath.{entries};
ghost use Rattle.automata.specs.Calls.Outcome.{overwrite};
ghost use Rattle.lookup_moves.specs.Distances.{cells_of};
ghost use Rattle.path_search.specs.Tight.{cell_before};
ghost use Rattle.path_search.specs.Trail.{Retraceable, Behind, count_back, run_back, CanCount, CanWalk};

use crate::enter::NO_ARC;
use crate::tight::shift_of;
use lookup_moves::cell::weight_at;
use lookup_moves::spot::Spans;
use table::answer::Counts;
use table::arc::source_at;
use table::bytes::put16;
use table::layout::ARC_SIZE;

// The cell from which arc e leads to another.
fn cell_before(counts: Counts, arcs: &[u8], e: usize, spans: Spans, there: usize) -> usize
    requires { Retraceable counts arcs.now spans × Behind counts arcs.now spans e there }
    ensures { result ≡ cell_before counts arcs.now spans e there }
{
    let source = source_at(arcs, ARC_SIZE * e).0 as usize;
    source * spans.all + (there % spans.all - shift_of(counts, arcs, e, spans))
}

// How many arcs lead from a cell, one of the `found` ones, back to the start of its path.
pub fn count_arcs(
    counts: Counts,
    arcs: &[u8],
    spans: Spans,
    end: usize,
    found: usize,
    work: &[u8],
) -> usize
    requires { Retraceable counts arcs.now spans × (24 * (counts.states * spans.all) ≤ length work.now)
        × CanCount counts arcs.now spans (cells_of work.now) found end }
    ensures { result ≡ count_back counts arcs.now spans (cells_of work.now) found end }
{
    let cells = counts.states * spans.all;
    let mut at = end;
    for count in 0..found {
        let mark = weight_at(work, cells + at) as usize;
        if mark == NO_ARC {
            return count;
        }
        at = cell_before(counts, arcs, mark, spans, at);
    }
    found
}

// The numbers of the `count` arcs from the start of the path to a cell, over the front of the list. Tells the cell at
// which the path starts.
pub fn write_arcs(
    counts: Counts,
    arcs: &[u8],
    spans: Spans,
    end: usize,
    count: usize,
    list: &mut [u8],
    work: &[u8],
) -> usize
    requires { Retraceable counts arcs.now spans × (24 * (counts.states * spans.all) ≤ length work.now)
        × CanWalk counts arcs.now spans (cells_of work.now) count end × (2 * count ≤ length list.old) }
    ensures { (list.new ≡ overwrite
        (entries (run_back counts arcs.now spans (cells_of work.now) count end []).0)
        list.old) × (result ≡ (run_back counts arcs.now spans
        (cells_of work.now) count end []).1) }
{
    let cells = counts.states * spans.all;
    let mut at = end;
    for left in (0..count).rev() {
        let mark = weight_at(work, cells + at) as usize;
        put16(list, 2 * left, mark as u16);
        at = cell_before(counts, arcs, mark, spans, at);
    }
    at
}
