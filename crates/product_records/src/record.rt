// The record of a move as an arc: its ends, its weight, and the labels of both sides.
ghost use Rattle.std.specs.Prelude.{◌≡◌, ◌+◌, ◌*◌, ◌≤◌, ◌<◌, length};
ghost use Rattle.automata.specs.Memory.{zeros};
ghost use Rattle.automata.specs.Layout.{arc_size, label_size, labels_size};
ghost use Rattle.table.specs.Region.{part, splice};
ghost use Rattle.product_search.specs.Moves.{no_arc};
ghost use Rattle.product_records.specs.Sums.{side_over, move_front, move_labels, move_record, MoveFits};

use crate::sum::move_weight;
use product_search::vertex::{Move, NO_ARC};
use table::arc::{labels_start, store_arc_weight, store_ends};
use table::bytes::{copy_into, get64, put64};
use table::layout::{ARC_SIZE, LABEL_SIZE, LABELS_SIZE, SYMBOLS_PLACE};
use table::record::ResultState;

// A label: its length and its eight bytes, these as one number, which is less work than byte by byte.
fn copy_label(arcs: &[u8], from: usize, out: &mut [u8], to: usize)
    requires { (from + label_size ≤ length arcs.now) × (to + label_size ≤ length out.old) }
    ensures { out.new ≡ splice to (part from label_size arcs.now) out.old }
{
    let len = arcs[from];
    let symbols = get64(arcs, from + SYMBOLS_PLACE);
    out[to] = len;
    put64(out, to + SYMBOLS_PLACE, symbols);
}

// The labels of a record: 72 zeros.
fn clear_labels(out: &mut [u8], to: usize)
    requires { to + labels_size ≤ length out.old }
    ensures { out.new ≡ splice to (zeros labels_size) out.old }
{
    copy_into(out, to, &[0; LABELS_SIZE]);
}

// The labels of a side's arc on so many tapes; nothing where its path has ended.
fn store_side(arcs: &[u8], arc: u16, tapes: usize, out: &mut [u8], to: usize)
    requires { ((arc ≡ no_arc → ⊥) → arc_size * arc + arc_size ≤ length arcs.now) × (tapes ≤ 8)
        × (to + label_size * tapes ≤ length out.old) }
    ensures { out.new ≡ side_over arcs.now tapes arc to out.old }
{
    if arc == NO_ARC {
        return;
    }
    let mut from = labels_start(ARC_SIZE * arc as usize);
    let mut at = to;
    for _tape in 0..tapes {
        copy_label(arcs, from, out, at);
        from += LABEL_SIZE;
        at += LABEL_SIZE;
    }
}

// The labels of both sides, those of the second behind those of the first, and zeros.
fn store_labels(
    m: Move,
    first_tapes: usize,
    second_tapes: usize,
    first_arcs: &[u8],
    second_arcs: &[u8],
    out: &mut [u8],
    to: usize,
)
    requires { ((m.first ≡ no_arc → ⊥) → arc_size * m.first + arc_size ≤ length first_arcs.now)
        × ((m.second ≡ no_arc → ⊥) → arc_size * m.second + arc_size ≤ length second_arcs.now)
        × (first_tapes + second_tapes ≤ 8) × (to + labels_size ≤ length out.old) }
    ensures { (out.new ≡ splice to (move_labels first_arcs.now
        second_arcs.now first_tapes second_tapes m) out.old)
        × (length (move_labels first_arcs.now second_arcs.now first_tapes second_tapes m)
        ≡ labels_size) }
{
    clear_labels(out, to);
    store_side(first_arcs, m.first, first_tapes, out, to);
    store_side(
        second_arcs,
        m.second,
        second_tapes,
        out,
        to + LABEL_SIZE * first_tapes,
    );
}

// The ends of a move and its weight.
fn store_front(m: Move, weight: u32, out: &mut [u8], to: usize)
    requires { to + arc_size ≤ length out.old }
    ensures { out.new ≡ splice to (move_front m weight) out.old }
{
    store_ends(out, to, ResultState(m.from.0), ResultState(m.to.0));
    store_arc_weight(out, to, weight);
}

// The record of a move.
pub fn store_move(
    m: Move,
    first_tapes: usize,
    second_tapes: usize,
    work: &[u8],
    first_states: &[u8],
    first_arcs: &[u8],
    second_states: &[u8],
    second_arcs: &[u8],
    out: &mut [u8],
    to: usize,
)
    requires { MoveFits first_states.now first_arcs.now second_states.now second_arcs.now work.now m
        × (first_tapes + second_tapes ≤ 8) × (to + arc_size ≤ length out.old) }
    ensures { (out.new ≡ splice to (move_record first_states.now first_arcs.now
        second_states.now second_arcs.now work.now first_tapes second_tapes m)
        out.old) × (length (move_record first_states.now first_arcs.now
        second_states.now second_arcs.now work.now first_tapes second_tapes m)
        ≡ arc_size) }
{
    let weight = move_weight(
        m,
        work,
        first_states,
        first_arcs,
        second_states,
        second_arcs,
    );
    store_front(m, weight, out, to);
    store_labels(
        m,
        first_tapes,
        second_tapes,
        first_arcs,
        second_arcs,
        out,
        labels_start(to),
    );
}
