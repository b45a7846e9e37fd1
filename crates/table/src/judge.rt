// The judgement of a table in memory: its counts, then its records in order, each by its least refusal.
ghost use Rattle.std.specs.Prelude.{◌≡◌, ◌+◌, ◌*◌, ◌≤◌, min, length, drop};
ghost use Rattle.automata.specs.Lists.{all};
ghost use Rattle.automata.specs.Symbols.{is_symbol};
ghost use Rattle.automata.specs.Table.{counts_fit};
ghost use Rattle.automata.specs.Answer.{forget, require};
ghost use Rattle.automata.specs.Memory.{is_zero, decode_table};
ghost use Rattle.automata.specs.Layout.{arc_size, state_size, label_size, labels_size, weight_size};
ghost use Rattle.table.specs.Region.{part};
ghost use Rattle.table.specs.Answers.{refusal_number, judged_as, memory};
ghost use Rattle.table.specs.Judging.{read_weight, read_state, read_label, labels_read, read_labels, read_arc, first_state, states_judged, first_arc, arcs_judged};

use crate::answer::{Counts, Refusal, both};
use crate::bytes::{get16, get32};
use crate::good::good_arc;
use crate::layout::{
    ABSENT, AMOUNT_PLACE, ARC_SIZE, CONTENT_PLACE, FINAL_PLACE, LABEL_SIZE, LABELS_END,
    LABELS_PLACE, LABELS_SIZE, PRESENT, STATE_SIZE, SYMBOLS_PLACE, TARGET_PLACE,
};
use crate::lent::Table;
use crate::symbol::has_number;

// Fine where the test passes, else the refusal.
fn demand(passes: bool, refusal: Refusal) -> Result<(), Refusal>
    ensures { judged_as result ≡ require passes (refusal_number refusal) }
{
    if passes { Ok(()) } else { Err(refusal) }
}

// The weight in the five bytes at a place.
fn judge_weight(bytes: &[u8], at: usize) -> Result<(), Refusal>
    requires { at + weight_size ≤ length bytes.now }
    ensures { judged_as result ≡ forget (read_weight (part at weight_size bytes.now)) }
{
    let flag = bytes[at];
    let n = get32(bytes, at + AMOUNT_PLACE);
    if flag == ABSENT {
        return demand(n == 0, Refusal::Form);
    }
    if flag != PRESENT {
        return Err(Refusal::Form);
    }
    demand(n <= 999999999, Refusal::Size)
}

// The record of a state at a place.
fn judge_state_record(bytes: &[u8], at: usize) -> Result<(), Refusal>
    requires { at + state_size ≤ length bytes.now }
    ensures { judged_as result ≡ forget (read_state (part at state_size bytes.now)) }
{
    both(
        judge_weight(bytes, at),
        judge_weight(bytes, at + FINAL_PLACE),
    )
}

// Whether every byte is a symbol.
pub fn all_symbols(bytes: &[u8]) -> bool
    ensures { result ≡ all is_symbol bytes.now }
{
    for b in bytes {
        if !has_number(*b) {
            return false;
        }
    }
    true
}

// Whether every byte is zero.
pub fn all_zero(bytes: &[u8]) -> bool
    ensures { result ≡ all is_zero bytes.now }
{
    for b in bytes {
        if *b != 0 {
            return false;
        }
    }
    true
}

// How many of eight bytes are within a label's length.
fn within(len: u8) -> usize
    ensures { result ≡ min len 8 }
{
    len.min(8) as usize
}

// The label in the nine bytes of a slice.
fn judge_label(label: &[u8]) -> Result<(), Refusal>
    requires { length label.now ≡ label_size }
    ensures { judged_as result ≡ forget (read_label label.now) }
{
    let len = label[0];
    let end = SYMBOLS_PLACE + within(len);
    if !all_symbols(&label[SYMBOLS_PLACE..end]) {
        return Err(Refusal::Form);
    }
    if !all_zero(&label[end..LABEL_SIZE]) {
        return Err(Refusal::Form);
    }
    demand(len <= 8, Refusal::Size)
}

// The labels of an arc on so many tapes, side by side.
fn judge_labels(labels: &[u8], tapes: usize) -> Result<(), Refusal>
    requires { length labels.now ≡ tapes * label_size }
    ensures { judged_as result ≡ forget (labels_read tapes labels.now) }
{
    let mut judged = Ok(());
    let mut at = 0;
    for _tape in 0..tapes {
        judged = both(judged, judge_label(&labels[at..at + LABEL_SIZE]));
        at += LABEL_SIZE;
    }
    judged
}

// The bytes of an arc's labels: unused tapes are zero.
fn judge_tapes(labels: &[u8], tapes: usize) -> Result<(), Refusal>
    requires { (length labels.now ≡ labels_size) × (tapes ≤ 8) }
    ensures { judged_as result ≡ forget (read_labels tapes labels.now) }
{
    let end = tapes * LABEL_SIZE;
    let used = judge_labels(&labels[0..end], tapes);
    let unused = all_zero(&labels[end..LABELS_SIZE]);
    both(used, demand(unused, Refusal::Form))
}

// The record of an arc of a table with so many tapes and states.
fn judge_arc_record(arc: &[u8], tapes: usize, states: usize) -> Result<(), Refusal>
    requires { (length arc.now ≡ arc_size) × (tapes ≤ 8) }
    ensures { judged_as result ≡ forget (read_arc tapes states arc.now) }
{
    let source = demand((get16(arc, 0) as usize) < states, Refusal::State);
    let target = demand((get16(arc, TARGET_PLACE) as usize) < states, Refusal::State);
    let weight = demand(get32(arc, CONTENT_PLACE) <= 999999999, Refusal::Size);
    let labels = judge_tapes(&arc[LABELS_PLACE..LABELS_END], tapes);
    both(source, both(target, both(weight, labels)))
}

// The same, with the quick test first.
fn judge_arc(arc: &[u8], tapes: usize, states: usize) -> Result<(), Refusal>
    requires { (length arc.now ≡ arc_size) × (tapes ≤ 8) }
    ensures { judged_as result ≡ forget (read_arc tapes states arc.now) }
{
    if good_arc(arc, tapes, states) {
        return Ok(());
    }
    judge_arc_record(arc, tapes, states)
}

// The record of a state at a place of a slice, which may end before it.
fn judge_state_at(states: &[u8], at: usize) -> Result<(), Refusal>
    requires { at ≤ length states.now }
    ensures { judged_as result ≡ first_state (drop at states.now) }
{
    if states.len() - at < STATE_SIZE {
        return Err(Refusal::Short);
    }
    judge_state_record(states, at)
}

// So many records of states. The first refusal counts.
fn judge_states(states: &[u8], count: usize) -> Result<(), Refusal>
    ensures { judged_as result ≡ states_judged count states.now }
{
    for i in 0..count {
        judge_state_at(states, STATE_SIZE * i)?;
    }
    Ok(())
}

// The record of an arc at a place of a slice, which may end before it.
fn judge_arc_at(arcs: &[u8], at: usize, tapes: usize, states: usize) -> Result<(), Refusal>
    requires { (at ≤ length arcs.now) × (tapes ≤ 8) }
    ensures { judged_as result ≡ first_arc tapes states (drop at arcs.now) }
{
    if arcs.len() - at < ARC_SIZE {
        return Err(Refusal::Short);
    }
    judge_arc(&arcs[at..at + ARC_SIZE], tapes, states)
}

// So many records of arcs. The first refusal counts.
fn judge_arcs(arcs: &[u8], count: usize, tapes: usize, states: usize) -> Result<(), Refusal>
    requires { tapes ≤ 8 }
    ensures { judged_as result ≡ arcs_judged tapes states count arcs.now }
{
    for i in 0..count {
        judge_arc_at(arcs, ARC_SIZE * i, tapes, states)?;
    }
    Ok(())
}

// Whether the counts of a table are in range.
fn counts_fit(counts: Counts) -> bool
    ensures { result ≡ counts_fit counts.tapes counts.states counts.arcs }
{
    (1..=8).contains(&counts.tapes) && counts.states <= 1024 && counts.arcs <= 8192
}

// A table in memory: its first refusal, if it has one.
pub fn judge(table: &Table) -> Result<(), Refusal>
    ensures { judged_as result ≡ forget (decode_table (memory table.now)) }
{
    let counts = table.counts;
    if !counts_fit(counts) {
        return Err(Refusal::Size);
    }
    judge_states(table.states, counts.states)?;
    judge_arcs(table.arcs, counts.arcs, counts.tapes, counts.states)
}
