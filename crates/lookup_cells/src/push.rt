// Relaxation at one combination of positions: from each state with a weight over the arcs into it whose labels end
// there, which may lower the weights of their sources. A state whose weight at the combination itself became less is
// taken up again.
ghost use Rattle.std.specs.Prelude.{◌+◌, ◌≤◌, ◌<◌};
ghost use Rattle.lookup_moves.specs.Moves.{spot_with};
ghost use Rattle.lookup_labels.specs.Numbers.{Numbered};
ghost use Rattle.lookup_cells.specs.Recall.{Fresh, Knows};
ghost use Rattle.lookup_cells.specs.Queues.{Queue};
ghost use Rattle.lookup_cells.specs.Pushes.{Spaced, Ready, Marking, Visits, Pushes, PushesAll, AllDone, Marks, Settles};

use crate::queue::{dequeue, enqueue};
use crate::recall::recall;
use lookup_moves::cell::{FAR, cell_number, lower, weight_at};
use lookup_moves::spot::Spot;
use table::answer::Counts;
use table::arc::{arc_weight_at, source_at, target_at};
use table::layout::ARC_SIZE;

// Arc e. Tells whether the weight of its source at the combination itself became less.
fn visit_arc(
    counts: Counts,
    arcs: &[u8],
    e: usize,
    text: &[u8],
    starts: &[usize],
    positions: &[usize],
    spans: &[usize],
    number: usize,
    all: usize,
    numbers: &[u16],
    memo: &mut [usize],
    work: &mut [u8],
) -> bool
    requires { (e < counts.arcs) × Ready counts arcs.now text.now
        (spot_with starts.now positions.now spans.now number all)
        × Spaced counts.states (spot_with starts.now positions.now spans.now number all) work.old
        × Knows counts arcs.now text.now starts.now positions.now spans.now number numbers.now
        memo.old }
    ensures { Visits counts.tapes e arcs.now text.now
        (spot_with starts.now positions.now spans.now number all) result work.new
        work.old × Knows counts arcs.now text.now starts.now
        positions.now spans.now number numbers.now memo.new }
{
    let at = ARC_SIZE * e;
    let by = recall(
        counts, arcs, e, text, starts, positions, spans, number, numbers, memo,
    );
    if number < by {
        return false;
    }
    let source = cell_number(usize::from(source_at(arcs, at).0), all, number - by);
    let target = cell_number(usize::from(target_at(arcs, at).0), all, number);
    let through = u64::from(arc_weight_at(arcs, at)) + weight_at(work, target);
    let lowered = lower(work, source, through);
    by == 0 && lowered
}

// Arc e, and its source into the queue where that is so.
fn push_arc(
    counts: Counts,
    arcs: &[u8],
    e: usize,
    text: &[u8],
    starts: &[usize],
    positions: &[usize],
    spans: &[usize],
    number: usize,
    all: usize,
    numbers: &[u16],
    memo: &mut [usize],
    queue: &mut [u16],
    work: &mut [u8],
)
    requires { (e < counts.arcs) × Ready counts arcs.now text.now
        (spot_with starts.now positions.now spans.now number all)
        × Spaced counts.states (spot_with starts.now positions.now spans.now number all) work.old
        × Queue queue.old × Knows counts arcs.now text.now starts.now positions.now spans.now number
        numbers.now memo.old }
    ensures { Pushes counts arcs.now text.now
        (spot_with starts.now positions.now spans.now number all) e work.new
        work.old queue.new queue.old
        × Knows counts arcs.now text.now starts.now positions.now
        spans.now number numbers.now memo.new }
{
    let near = visit_arc(
        counts, arcs, e, text, starts, positions, spans, number, all, numbers, memo, work,
    );
    if near {
        enqueue(usize::from(source_at(arcs, ARC_SIZE * e).0), queue);
    }
}

// The arcs into a state.
fn push_state(
    counts: Counts,
    arcs: &[u8],
    text: &[u8],
    starts: &[usize],
    positions: &[usize],
    spans: &[usize],
    number: usize,
    all: usize,
    numbers: &[u16],
    memo: &mut [usize],
    index: &[u16],
    state: usize,
    queue: &mut [u16],
    work: &mut [u8],
)
    requires { (state < 1024) × Ready counts arcs.now text.now
        (spot_with starts.now positions.now spans.now number all)
        × Spaced counts.states (spot_with starts.now positions.now spans.now number all) work.old
        × Marking counts arcs.now index.now queue.old
        × Knows counts arcs.now text.now starts.now positions.now spans.now number numbers.now
        memo.old }
    ensures { PushesAll counts arcs.now text.now
        (spot_with starts.now positions.now spans.now number all) state
        work.new work.old queue.new queue.old
        × Knows counts arcs.now text.now starts.now positions.now
        spans.now number numbers.now memo.new }
{
    let mut e = usize::from(index[state]);
    while e < counts.arcs {
        push_arc(
            counts, arcs, e, text, starts, positions, spans, number, all, numbers, memo, queue,
            work,
        );
        e = usize::from(index[1024 + e]);
    }
}

// Each of so many states that has a weight at the combination into the queue.
fn enqueue_reached(states: usize, spot: Spot, work: &[u8], queue: &mut [u16])
    requires { (states ≤ 1024) × Spaced states spot work.now × Queue queue.old }
    ensures { Marks states spot work.now queue.new queue.old }
{
    for q in 0..states {
        if weight_at(work, cell_number(q, spot.all, spot.number)) < FAR {
            enqueue(q, queue);
        }
    }
}

// The arcs into the first state of the queue, until no state waits.
fn push_waiting(
    counts: Counts,
    arcs: &[u8],
    text: &[u8],
    starts: &[usize],
    positions: &[usize],
    spans: &[usize],
    number: usize,
    all: usize,
    numbers: &[u16],
    memo: &mut [usize],
    index: &[u16],
    queue: &mut [u16],
    work: &mut [u8],
)
    requires { Ready counts arcs.now text.now (spot_with starts.now positions.now spans.now number all)
        × Spaced counts.states (spot_with starts.now positions.now spans.now number all) work.old
        × Marking counts arcs.now index.now queue.old
        × AllDone counts arcs.now text.now (spot_with starts.now positions.now spans.now number all)
        queue.old work.old × Knows counts arcs.now text.now starts.now positions.now spans.now number
        numbers.now memo.old }
    ensures { Settles counts arcs.now text.now
        (spot_with starts.now positions.now spans.now number all) work.new
        work.old × Queue queue.new
        × Knows counts arcs.now text.now starts.now positions.now
        spans.now number numbers.now memo.new }
{
    while queue[2049] != 0 {
        let state = dequeue(queue);
        push_state(
            counts, arcs, text, starts, positions, spans, number, all, numbers, memo, index, state,
            queue, work,
        );
    }
}

// The states with a weight, and again those whose weight became less, until none can lower a weight.
pub fn settle(
    counts: Counts,
    arcs: &[u8],
    text: &[u8],
    spot: Spot,
    numbers: &[u16],
    memo: &mut [usize],
    index: &[u16],
    queue: &mut [u16],
    work: &mut [u8],
)
    requires { Ready counts arcs.now text.now spot × Spaced counts.states spot work.old
        × Marking counts arcs.now index.now queue.old
        × Numbered counts.tapes counts.arcs arcs.now numbers.now × Fresh (spot.number + 1) memo.old }
    ensures { Settles counts arcs.now text.now spot work.new work.old
        × Queue queue.new × Fresh spot.number memo.new }
{
    enqueue_reached(counts.states, spot, work, queue);
    push_waiting(
        counts,
        arcs,
        text,
        &spot.starts,
        &spot.positions,
        &spot.spans,
        spot.number,
        spot.all,
        numbers,
        memo,
        index,
        queue,
        work,
    );
}
