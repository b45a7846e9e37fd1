// Tight arcs: where an arc leads from a cell such that its weight and the least weight there make the least weight
// here.
ghost use Rattle.std.specs.Prelude.{◌≡◌, ◌+◌, ◌*◌, ◌≤◌, ◌<◌};
ghost use Rattle.lookup_moves.specs.Distances.{cells_of};
ghost use Rattle.lookup_moves.specs.Moves.{Labelled};
ghost use Rattle.lookup_cells.specs.Pushes.{back_by};
ghost use Rattle.lookup_moves.specs.Spots.{spot_of};
ghost use Rattle.path_search.specs.Tight.{shift_of, end_there, tight_to};
ghost use Rattle.table.specs.Records.{option_of};
ghost use Rattle.path_search.specs.Searchable.{Searchable, Weights, Spannable};
ghost use Rattle.automata.specs.Layout.{arc_size};
ghost use Rattle.table.specs.Arcs.{labels_start};

use lookup_moves::cell::{cell_number, weight_at};
use lookup_moves::moves::moved_back;
use lookup_moves::spot::{Spans, spot_at};
use lookup_tuple::Strings;
use table::answer::Counts;
use table::arc::{arc_weight_at, labels_start, target_at};
use table::layout::{ARC_SIZE, LABEL_SIZE};

// By how much the labels of arc e move the number of a combination, with so many combinations behind each string.
pub fn shift_of(counts: Counts, arcs: &[u8], e: usize, spans: Spans) -> usize
    requires { Labelled arcs.now (labels_start (arc_size * e)) × (counts.tapes ≤ 8) × Spannable spans }
    ensures { result ≡ shift_of counts arcs.now spans.spans e }
{
    let mut at = labels_start(ARC_SIZE * e);
    let mut shift: usize = 0;
    for h in 0..counts.tapes {
        shift += arcs[at] as usize * spans.spans[h];
        at += LABEL_SIZE;
    }
    shift
}

// Whether the labels of arc e end at the combination with this number.
fn ends_at(
    counts: Counts,
    arcs: &[u8],
    e: usize,
    text: &[u8],
    strings: Strings,
    spans: Spans,
    to: usize,
) -> bool
    requires { Searchable counts arcs.now text.now strings spans × (e < counts.arcs) × (to < spans.all) }
    ensures { result ≡ end_there (back_by counts.tapes e arcs.now text.now
        (spot_of strings spans to)) }
{
    let spot = spot_at(strings, spans, to);
    moved_back(
        arcs,
        ARC_SIZE * e,
        counts.tapes,
        text,
        &spot.starts,
        &spot.positions,
        &spot.spans,
    )
    .is_some()
}

// The cell of the combination `to` to which arc e leads from a cell, where the arc is tight.
pub fn tight_to(
    counts: Counts,
    arcs: &[u8],
    e: usize,
    text: &[u8],
    strings: Strings,
    spans: Spans,
    to: usize,
    here: usize,
    work: &[u8],
) -> Option<usize>
    requires { Searchable counts arcs.now text.now strings spans
        × Weights (counts.states * spans.all) work.now × (e < counts.arcs)
        × (here < counts.states * spans.all) }
    ensures { option_of result ≡ tight_to counts arcs.now text.now strings spans
        (cells_of work.now) to here e }
{
    if spans.all <= to {
        return None;
    }
    let at = ARC_SIZE * e;
    let there = cell_number(target_at(arcs, at).0 as usize, spans.all, to);
    let weighs = arc_weight_at(arcs, at) as u64 + weight_at(work, there) == weight_at(work, here);
    if weighs && ends_at(counts, arcs, e, text, strings, spans, to) {
        Some(there)
    } else {
        None
    }
}
