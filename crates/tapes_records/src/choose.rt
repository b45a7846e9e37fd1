// The labels on chosen tapes, moved to the front of each arc's record.
ghost use Rattle.std.specs.Prelude.{◌≡◌, ◌+◌, ◌-◌, ◌*◌, ◌≤◌, length, take};
ghost use Rattle.automata.specs.Memory.{zeros};
ghost use Rattle.automata.specs.Layout.{arc_size, label_size, labels_size};
ghost use Rattle.table.specs.Arcs.{labels_start};
ghost use Rattle.table.specs.Region.{part, splice};
ghost use Rattle.tapes_records.specs.Choice.{Choice};
ghost use Rattle.tapes_records.specs.Rewritten.{rewritten, chosen_labels, chosen_arc};

use table::arc::labels_start;
use table::bytes::copy_into;
use table::layout::{ARC_SIZE, LABEL_SIZE, LABELS_SIZE};

// Where the label on a tape stands among the labels of an arc.
fn label_place(tape: u8) -> usize
    requires { (1 ≤ tape) × (tape ≤ 8) }
    ensures { (result ≡ label_size * (tape - 1)) × (result ≤ 63) }
{
    LABEL_SIZE * (usize::from(tape) - 1)
}

// The labels on the first `used` tapes of a list, one after the other over the front of `out`.
fn copy_labels(labels: &[u8], tapes: &[u8], used: usize, out: &mut [u8])
    requires { Choice tapes.now used × (length labels.now ≡ labels_size) × (length out.old ≡ labels_size) }
    ensures { out.new ≡ splice 0 (chosen_labels (take used tapes.now) labels.now)
        out.old }
{
    let mut to = 0;
    for tape in &tapes[..used] {
        let from = label_place(*tape);
        copy_into(out, to, &labels[from..from + LABEL_SIZE]);
        to += LABEL_SIZE;
    }
}

// The bytes of these labels of the arc at `at`, with zeros behind them.
fn labels_at(arcs: &[u8], at: usize, tapes: &[u8], used: usize) -> [u8; LABELS_SIZE]
    requires { Choice tapes.now used × (at + arc_size ≤ length arcs.now) }
    ensures { result ≡ splice 0 (chosen_labels (take used tapes.now)
        (part (labels_start at) labels_size arcs.now)) (zeros labels_size) }
{
    let mut labels = [0; LABELS_SIZE];
    let from = labels_start(at);
    copy_labels(&arcs[from..from + LABELS_SIZE], tapes, used, &mut labels);
    labels
}

// The record of the arc at `at` with these labels alone.
fn choose_arc(arcs: &mut [u8], at: usize, tapes: &[u8], used: usize)
    requires { Choice tapes.now used × (at + arc_size ≤ length arcs.old) }
    ensures { arcs.new ≡ splice at (chosen_arc (take used tapes.now)
        (part at arc_size arcs.old)) arcs.old }
{
    let labels = labels_at(arcs, at, tapes, used);
    copy_into(arcs, labels_start(at), &labels);
}

// The first `count` records of arcs, each with the labels on the first `used` tapes of a list alone.
pub fn choose_arcs(count: usize, tapes: &[u8], used: usize, arcs: &mut [u8])
    requires { Choice tapes.now used × (arc_size * count ≤ length arcs.old) }
    ensures { arcs.new ≡ splice 0 (rewritten (chosen_arc (take used tapes.now)) count
        arcs.old) arcs.old }
{
    for i in 0..count {
        choose_arc(arcs, ARC_SIZE * i, tapes, used);
    }
}
