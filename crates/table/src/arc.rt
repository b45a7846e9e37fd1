// The fields of an arc in the record that stands at a place: read one by one, and written.
ghost use Rattle.std.specs.Prelude.{◌≡◌, ◌++◌, ◌+◌, ◌≤◌, ◌<◌, length, get_or};
ghost use Rattle.automata.specs.Limits.{max_tapes};
ghost use Rattle.automata.specs.Layout.{arc_size, content_place, content_size};
ghost use Rattle.table.specs.Region.{part, splice};
ghost use Rattle.table.specs.Endian.{to_le};
ghost use Rattle.table.specs.Arcs.{source_at, target_at, arc_weight_at, labels_start, label_place};

use crate::bytes::{copy_into, get16, get32, put16, put32};
use crate::layout::{CONTENT_PLACE, CONTENT_SIZE, LABEL_SIZE, LABELS_PLACE, TARGET_PLACE};
use crate::record::{InputState, ResultState};

// The state that the arc leaves.
pub fn source_at(arcs: &[u8], at: usize) -> InputState
    requires { at + arc_size ≤ length arcs.now }
    ensures { result.0 ≡ source_at at arcs.now }
{
    InputState(get16(arcs, at))
}

// The state that the arc leads to.
pub fn target_at(arcs: &[u8], at: usize) -> InputState
    requires { at + arc_size ≤ length arcs.now }
    ensures { result.0 ≡ target_at at arcs.now }
{
    InputState(get16(arcs, at + TARGET_PLACE))
}

// The weight of the arc.
pub fn arc_weight_at(arcs: &[u8], at: usize) -> u32
    requires { at + arc_size ≤ length arcs.now }
    ensures { result ≡ arc_weight_at at arcs.now }
{
    get32(arcs, at + CONTENT_PLACE)
}

// Where the labels of the arc begin. One stands behind the other.
pub fn labels_start(at: usize) -> usize
    requires { at < 18446744073709551000 }
    ensures { result ≡ labels_start at }
{
    at + LABELS_PLACE
}

// Where the arc's label on a tape stands, the tapes counted from 0.
pub fn label_place(at: usize, tape: usize) -> usize
    requires { (at < 18446744073709551000) × (tape < max_tapes) }
    ensures { result ≡ label_place at tape }
{
    labels_start(at) + LABEL_SIZE * tape
}

// How many symbols the arc has on a tape.
pub fn label_length_at(arcs: &[u8], at: usize, tape: usize) -> u8
    requires { (at + arc_size ≤ length arcs.now) × (tape < max_tapes) }
    ensures { result ≡ get_or arcs.now (label_place at tape) 0 }
{
    arcs[label_place(at, tape)]
}

// The states of an arc that is made, written at its place.
pub fn store_ends(out: &mut [u8], at: usize, source: ResultState, target: ResultState)
    requires { at + arc_size ≤ length out.old }
    ensures { out.new ≡ splice at (to_le 2 source.0 ++ to_le 2 target.0) out.old }
{
    put16(out, at, source.0);
    put16(out, at + TARGET_PLACE, target.0);
}

// The weight of an arc that is made, written at its place.
pub fn store_arc_weight(out: &mut [u8], at: usize, weight: u32)
    requires { at + arc_size ≤ length out.old }
    ensures { out.new ≡ splice (at + content_place) (to_le 4 weight) out.old }
{
    put32(out, at + CONTENT_PLACE, weight);
}

// The content of the arc at `from`, written as that of the arc at `to`.
pub fn copy_content(arcs: &[u8], from: usize, out: &mut [u8], to: usize)
    requires { (from + arc_size ≤ length arcs.now) × (to + arc_size ≤ length out.old) }
    ensures { out.new ≡ splice (to + content_place)
        (part (from + content_place) content_size arcs.now) out.old }
{
    let place = from + CONTENT_PLACE;
    copy_into(out, to + CONTENT_PLACE, &arcs[place..place + CONTENT_SIZE]);
}
