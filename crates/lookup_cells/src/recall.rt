// How far back the labels of an arc lead from a combination of positions, found once for all arcs with the same
// labels: a memo of 2,048 numbers has for each number of labels the combination that it was last asked of, and behind
// these the answers.
ghost use Rattle.std.specs.Prelude.{◌≡◌, ◌+◌, ◌*◌, ◌≤◌, ◌<◌, length, replicate};
ghost use Rattle.lookup_moves.specs.Moves.{Laid, Labelled, spot_with};
ghost use Rattle.lookup_cells.specs.Recall.{back_number, back_at, Knows};
ghost use Rattle.automata.specs.Layout.{arc_size};
ghost use Rattle.table.specs.Arcs.{labels_start};

use lookup_moves::moves::moved_back;
use table::answer::Counts;
use table::layout::ARC_SIZE;

// Nothing is known: 2^64 - 1 is no combination.
pub fn no_memo() -> [usize; 2048]
    ensures { result ≡ replicate 2048 18446744073709551615 }
{
    [18446744073709551615; 2048]
}

// How far back the labels of arc e lead, 2^64 - 1 where they do not end at the combination: a number and no Option, as
// the memo keeps one word for each answer.
fn lead_back(
    counts: Counts,
    arcs: &[u8],
    e: usize,
    text: &[u8],
    starts: &[usize],
    positions: &[usize],
    spans: &[usize],
) -> usize
    requires { Labelled arcs.now (labels_start (arc_size * e))
        × Laid counts.tapes (length text.now) (spot_with starts.now positions.now spans.now 0 0) }
    ensures { result ≡ back_number (back_at counts.tapes arcs.now text.now
        starts.now positions.now spans.now e) }
{
    moved_back(
        arcs,
        ARC_SIZE * e,
        counts.tapes,
        text,
        starts,
        positions,
        spans,
    )
    .unwrap_or(18446744073709551615)
}

// The same, from the memo where it is known there, and kept there.
pub fn recall(
    counts: Counts,
    arcs: &[u8],
    e: usize,
    text: &[u8],
    starts: &[usize],
    positions: &[usize],
    spans: &[usize],
    number: usize,
    numbers: &[u16],
    memo: &mut [usize],
) -> usize
    requires { (e < counts.arcs) × (counts.arcs ≤ 8192)
        × ((f : _) → f < counts.arcs → Labelled arcs.now (labels_start (arc_size * f)))
        × Laid counts.tapes (length text.now) (spot_with starts.now positions.now spans.now 0 0)
        × Knows counts arcs.now text.now starts.now positions.now spans.now number numbers.now
        memo.old }
    ensures { (result ≡ back_number (back_at counts.tapes arcs.now text.now
        starts.now positions.now spans.now e))
        × Knows counts arcs.now text.now starts.now positions.now
        spans.now number numbers.now memo.new }
{
    let k = usize::from(numbers[e]);
    if 1024 <= k {
        return lead_back(counts, arcs, e, text, starts, positions, spans);
    }
    if memo[k] == number {
        return memo[1024 + k];
    }
    let by = lead_back(counts, arcs, e, text, starts, positions, spans);
    memo[1024 + k] = by;
    memo[k] = number;
    by
}
