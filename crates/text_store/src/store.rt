// The lines of a text that was judged, stored as the records of a table. Nothing of them is judged again.
ghost use Rattle.std.specs.Prelude.{◌≡◌, ◌+◌, ◌*◌, ◌≤◌, length, drop};
ghost use Rattle.table.specs.Region.{splice};
ghost use Rattle.text_store.specs.Recode.{recoded};
ghost use Rattle.text_store.specs.Stored.{state_of_line, label_of_columns, number_bytes, no_labels, arc_of_line};
ghost use Rattle.automata.specs.Layout.{arc_size, state_size, arc_width, label_size, label_width, labels_column, labels_size, state_width};

use crate::recode::write_parts;
use table::arc::{labels_start, store_arc_weight, store_ends};
use table::bytes::copy_into;
use table::layout::{
    AMOUNT_WIDTH, ARC_SIZE, ARC_WIDTH, LABEL_SIZE, LABEL_WIDTH, LABELS_COLUMN, LABELS_SIZE,
    NUMBER_WIDTH, STATE_END, STATE_SIZE, STATE_WIDTH, SYMBOLS_PLACE, WEIGHT_COLUMN,
};
use table::record::{ResultState, State, store_state};
use text_columns::decimal::columns_value;
use text_columns::weight::{columns_weight, leading_blanks};

// The record of the state in a line that was judged.
fn store_state_line(line: &[u8], states: &mut [u8], at: usize)
    requires { (length line.now ≡ state_width) × (at + state_size ≤ length states.old) }
    ensures { states.new ≡ splice at (state_of_line line.now) states.old }
{
    let initial = columns_weight(&line[0..AMOUNT_WIDTH]);
    let last = columns_weight(&line[AMOUNT_WIDTH..STATE_END]);
    store_state(states, at, State { initial, last });
}

// The records of so many state lines from a place of a text.
pub fn store_states(text: &[u8], start: usize, count: usize, states: &mut [u8])
    requires { (start + count * state_width ≤ length text.now) × (count * state_size ≤ length states.old) }
    ensures { states.new ≡ splice 0
        (recoded state_of_line state_width count (drop start text.now)) states.old }
{
    let lines = &text[start..];
    write_parts(
        lines,
        STATE_WIDTH,
        count,
        states,
        0,
        STATE_SIZE,
        store_state_line,
    );
}

// The record of the label in nine columns: what follows the blanks of the last eight, and zeros up to eight bytes.
fn store_label(column: &[u8], arcs: &mut [u8], at: usize)
    requires { (length column.now ≡ label_width) × (at + label_size ≤ length arcs.old) }
    ensures { arcs.new ≡ splice at (label_of_columns column.now) arcs.old }
{
    let blanks = leading_blanks(&column[1..LABEL_WIDTH]);
    let mut symbols = [0u8; 16];
    copy_into(&mut symbols, 0, &column[1..LABEL_WIDTH]);
    arcs[at] = (8 - blanks) as u8;
    copy_into(arcs, at + SYMBOLS_PLACE, &symbols[blanks..blanks + 8]);
}

// The records of the labels on so many tapes.
fn store_labels(labels: &[u8], tapes: usize, arcs: &mut [u8], start: usize)
    requires { (tapes * label_width ≤ length labels.now) × (start + tapes * label_size ≤ length arcs.old) }
    ensures { arcs.new ≡ splice start (recoded label_of_columns label_width tapes labels.now)
        arcs.old }
{
    write_parts(
        labels,
        LABEL_WIDTH,
        tapes,
        arcs,
        start,
        LABEL_SIZE,
        store_label,
    );
}

// Source, target and weight of the arc in a line that was judged.
fn store_numbers(line: &[u8], arcs: &mut [u8], at: usize)
    requires { (labels_column ≤ length line.now) × (at + arc_size ≤ length arcs.old) }
    ensures { arcs.new ≡ splice at (number_bytes line.now) arcs.old }
{
    let source = columns_value(&line[0..NUMBER_WIDTH]);
    let target = columns_value(&line[NUMBER_WIDTH..WEIGHT_COLUMN]);
    let weight = columns_value(&line[WEIGHT_COLUMN..LABELS_COLUMN]);
    let from = ResultState((source % 65536) as u16);
    let to = ResultState((target % 65536) as u16);
    store_ends(arcs, at, from, to);
    store_arc_weight(arcs, at, (weight % 4294967296) as u32);
}

// No label on any tape.
fn store_no_labels(arcs: &mut [u8], at: usize)
    requires { at + labels_size ≤ length arcs.old }
    ensures { arcs.new ≡ splice at no_labels arcs.old }
{
    let zeros = [0u8; LABELS_SIZE];
    copy_into(arcs, at, &zeros);
}

// The record of the arc in a line that was judged.
fn store_arc_line(line: &[u8], tapes: usize, arcs: &mut [u8], at: usize)
    requires { (length line.now ≡ arc_width + tapes * label_width)
        × ((tapes ≤ 8) × (at + arc_size ≤ length arcs.old)) }
    ensures { arcs.new ≡ splice at (arc_of_line tapes line.now) arcs.old }
{
    store_numbers(line, arcs, at);
    let labels = labels_start(at);
    store_no_labels(arcs, labels);
    store_labels(&line[LABELS_COLUMN..], tapes, arcs, labels);
}

// The records of so many arc lines from a place of a text.
pub fn store_arcs(text: &[u8], start: usize, count: usize, tapes: usize, arcs: &mut [u8])
    requires { (start + count * (arc_width + tapes * label_width) ≤ length text.now)
        × ((tapes ≤ 8) × (count * arc_size ≤ length arcs.old)) }
    ensures { arcs.new ≡ splice 0 (recoded (arc_of_line tapes) (arc_width + tapes * label_width) count
        (drop start text.now)) arcs.old }
{
    let width = ARC_WIDTH + tapes * LABEL_WIDTH;
    let store = |line: &[u8], out: &mut [u8], at: usize|
        requires { (length line.now ≡ arc_width + tapes * label_width)
            × ((tapes ≤ 8) × (at + arc_size ≤ length out.old)) }
        ensures { out.new ≡ splice at (arc_of_line tapes line.now) out.old }
    { store_arc_line(line, tapes, out, at) };
    write_parts(&text[start..], width, count, arcs, 0, ARC_SIZE, store);
}
