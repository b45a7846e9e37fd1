// A quick test of an arc's record, eight bytes at a time. What passes it has no refusal; what does not is left to the
// judgement.
ghost use Rattle.std.specs.Prelude.{◌≡◌, true, ◌+◌, ◌*◌, ◌≤◌, length, replicate};
ghost use Rattle.automata.specs.Lists.{all};
ghost use Rattle.automata.specs.Answer.{ok, forget};
ghost use Rattle.automata.specs.Memory.{is_zero};
ghost use Rattle.automata.specs.Layout.{arc_size, label_size, labels_size};
ghost use Rattle.table.specs.Region.{part};
ghost use Rattle.table.specs.Endian.{le};
ghost use Rattle.table.specs.Judging.{read_label, labels_read, read_labels, read_arc};

use crate::bytes::{get16, get32, get64};
use crate::layout::{
    CONTENT_PLACE, LABEL_SIZE, LABELS_END, LABELS_PLACE, LABELS_SIZE, SYMBOLS_PLACE, TARGET_PLACE,
};

// The highest bits of eight bytes.
const HIGHEST: u64 = 0x8080808080808080;

// The highest bits of the first bytes of eight, so many.
fn first_highest(len: u8) -> u64
    requires { len ≤ 8 }
    ensures { result ≡ le (replicate len 128) }
{
    let half = 4 * (8 - len);
    HIGHEST >> half >> half
}

// Whether the nine bytes at a place are a label: as many symbols as its length says, and zeros. To add the same number
// to every byte sets the highest bit of just those bytes that are at least a threshold, where no byte has it before.
fn good_label(labels: &[u8], at: usize) -> bool
    requires { at + label_size ≤ length labels.now }
    ensures { result ≡ true → forget (read_label (part at label_size labels.now)) ≡ ok tt }
{
    let len = labels[at];
    if 8 < len {
        return false;
    }
    let word = get64(labels, at + SYMBOLS_PLACE);
    if word & HIGHEST != 0 {
        return false;
    }
    let within = first_highest(len);
    // just the bytes within the length are at least 1
    if (word + 0x7f7f7f7f7f7f7f7f) & HIGHEST != within {
        return false;
    }
    // just these are at least byte 48, the digit 0
    if (word + 0x5050505050505050) & HIGHEST != within {
        return false;
    }
    // none is past Z
    if (word + 0x2525252525252525) & HIGHEST != 0 {
        return false;
    }
    // the same are past 9 as are at least A
    if (word + 0x4646464646464646) & HIGHEST != (word + 0x3f3f3f3f3f3f3f3f) & HIGHEST {
        return false;
    }
    true
}

// Whether there are so many labels side by side.
fn good_labels(labels: &[u8], tapes: usize) -> bool
    requires { length labels.now ≡ tapes * label_size }
    ensures { result ≡ true → forget (labels_read tapes labels.now) ≡ ok tt }
{
    for tape in 0..tapes {
        if !good_label(labels, LABEL_SIZE * tape) {
            return false;
        }
    }
    true
}

// Whether the bytes of so many labels are all zero.
fn blank_labels(labels: &[u8], tapes: usize) -> bool
    requires { length labels.now ≡ tapes * label_size }
    ensures { result ≡ true → all is_zero labels.now ≡ true }
{
    for tape in 0..tapes {
        let at = LABEL_SIZE * tape;
        if labels[at] != 0 || get64(labels, at + SYMBOLS_PLACE) != 0 {
            return false;
        }
    }
    true
}

// Whether the bytes are the labels of an arc, those of unused tapes zero.
fn good_tapes(labels: &[u8], tapes: usize) -> bool
    requires { (length labels.now ≡ labels_size) × (tapes ≤ 8) }
    ensures { result ≡ true → forget (read_labels tapes labels.now) ≡ ok tt }
{
    let end = tapes * LABEL_SIZE;
    if !good_labels(&labels[0..end], tapes) {
        return false;
    }
    blank_labels(&labels[end..LABELS_SIZE], 8 - tapes)
}

// Whether the bytes are the record of an arc of a table with so many tapes and states.
pub fn good_arc(arc: &[u8], tapes: usize, states: usize) -> bool
    requires { (length arc.now ≡ arc_size) × (tapes ≤ 8) }
    ensures { result ≡ true → forget (read_arc tapes states arc.now) ≡ ok tt }
{
    if states <= get16(arc, 0) as usize {
        return false;
    }
    if states <= get16(arc, TARGET_PLACE) as usize {
        return false;
    }
    if 999999999 < get32(arc, CONTENT_PLACE) {
        return false;
    }
    good_tapes(&arc[LABELS_PLACE..LABELS_END], tapes)
}
