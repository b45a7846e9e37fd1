// Judges tables in memory, one of each kind of fault, and prints a line for each: the number of the case and of the
// answer, 0 where the table is accepted. What is expected, worked out from document 01, stands beside each case.
#![tactic(auto)]

mod sample;

use sample::{ARCS_END, ARCS_LENT, STATES_END, STATES_LENT, changed_arcs, changed_states};
use table::answer::{Counts, Refusal};
use table::judge::judge;
use table::layout::{ARC_SIZE, LABEL_SIZE, LABELS_END, LABELS_PLACE, STATE_SIZE};
use table::lent::Table;

// In the record of an arc the length and the first symbol of its label on the first tape, the highest byte of its
// weight, and the last byte of its labels.
const LABEL: usize = LABELS_PLACE;

const SYMBOL: usize = LABEL + 1;

const WEIGHT_TOP: usize = LABELS_PLACE - 1;

const LABELS_LAST: usize = LABELS_END - 1;

// The number of a judgement: 0 where there is no refusal.
fn number_of(judged: Result<(), Refusal>) -> u8 {
    match judged {
        Ok(()) => 0,
        Err(r) => u8::from(r),
    }
}

// Judges the first bytes of each slice and prints a line.
fn report(case: u64, counts: Counts, states: &[u8], n: usize, arcs: &[u8], m: usize) {
    if states.len() < n || arcs.len() < m {
        return;
    }
    let table = Table {
        counts,
        states: &states[0..n],
        arcs: &arcs[0..m],
    };
    let answer = number_of(judge(&table));
    io::print_decimal(1, case);
    io::write_all(1, &[b' ']);
    io::print_decimal(1, u64::from(answer));
    io::write_all(1, &[b'\n']);
}

// The counts of the table.
fn counts() -> Counts {
    Counts {
        tapes: 2,
        states: 2,
        arcs: 2,
    }
}

// The table with other counts, of so many bytes of states and of arcs.
fn count_case(case: u64, tapes: usize, states: usize, arcs: usize, n: usize, m: usize) {
    let counted = Counts {
        tapes,
        states,
        arcs,
    };
    let state_bytes = changed_states(STATES_LENT, 0, STATES_LENT, 0);
    let arc_bytes = changed_arcs(ARCS_LENT, 0, ARCS_LENT, 0);
    report(case, counted, &state_bytes, n, &arc_bytes, m);
}

// So many bytes of each, with a byte of the states and one of the arcs changed.
fn mixed_case(case: u64, n: usize, m: usize, a: usize, x: u8, b: usize, y: u8) {
    let states = changed_states(a, x, a, x);
    let arcs = changed_arcs(b, y, b, y);
    report(case, counts(), &states, n, &arcs, m);
}

// The table with two bytes of its states changed.
fn state_case(case: u64, a: usize, x: u8, b: usize, y: u8) {
    let states = changed_states(a, x, b, y);
    let arcs = changed_arcs(ARCS_LENT, 0, ARCS_LENT, 0);
    report(case, counts(), &states, STATES_LENT, &arcs, ARCS_LENT);
}

// The table with two bytes of its arcs changed.
fn arc_case(case: u64, a: usize, x: u8, b: usize, y: u8) {
    let states = changed_states(STATES_LENT, 0, STATES_LENT, 0);
    let arcs = changed_arcs(a, x, b, y);
    report(case, counts(), &states, STATES_LENT, &arcs, ARCS_LENT);
}

// The counts of a table, and bytes lent beyond its records.
fn count_cases() {
    // 0: the table as it stands, with bytes behind the records that are no part of it
    count_case(1, 2, 2, 2, STATES_LENT, ARCS_LENT);
    // 0: the same in just the bytes of its records
    count_case(2, 2, 2, 2, STATES_END, ARCS_END);
    // 3: no tape
    count_case(3, 0, 2, 2, STATES_LENT, ARCS_LENT);
    // 3: nine tapes
    count_case(4, 9, 2, 2, STATES_LENT, ARCS_LENT);
    // 3: 1,025 states
    count_case(5, 2, 1025, 2, STATES_LENT, ARCS_LENT);
    // 3: 8,193 arcs
    count_case(6, 2, 2, 8193, STATES_LENT, ARCS_LENT);
    // 3: tapes: the greatest number there is
    count_case(7, 18446744073709551615, 2, 2, STATES_LENT, ARCS_LENT);
    // 3: states: the same
    count_case(8, 2, 18446744073709551615, 2, STATES_LENT, ARCS_LENT);
    // 3: arcs: the same
    count_case(9, 2, 2, 18446744073709551615, STATES_LENT, ARCS_LENT);
    // 3: all three
    count_case(
        10,
        18446744073709551615,
        18446744073709551615,
        18446744073709551615,
        STATES_LENT,
        ARCS_LENT,
    );
    // 3: no tape and no bytes: counts are judged before any record
    count_case(11, 0, 2, 2, 0, 0);
    // 0: eight tapes: the other six have empty labels
    count_case(12, 8, 2, 2, STATES_LENT, ARCS_LENT);
    // 2: one tape: the label on the second stands on an unused tape
    count_case(13, 1, 2, 2, STATES_LENT, ARCS_LENT);
    // 4: one state: the first arc leads to state 1
    count_case(14, 2, 1, 2, STATES_LENT, ARCS_LENT);
    // 4: no states: the first arc leaves state 0
    count_case(15, 2, 0, 2, STATES_LENT, ARCS_LENT);
    // 0: no arcs, and no bytes for them
    count_case(16, 2, 2, 0, STATES_END, 0);
    // 0: no states and no arcs
    count_case(17, 2, 0, 0, 0, 0);
}

// Records that the bytes lent do not wholly hold.
fn slice_cases() {
    // 1: a byte short of the second state
    count_case(18, 2, 2, 2, STATES_END - 1, ARCS_END);
    // 1: a byte short of the second arc
    count_case(19, 2, 2, 2, STATES_END, ARCS_END - 1);
    // 1: a byte short of the first state
    count_case(20, 2, 2, 2, STATE_SIZE - 1, ARCS_END);
    // 1: a byte short of the first arc
    count_case(21, 2, 2, 2, STATES_END, ARC_SIZE - 1);
    // 1: no bytes for states
    count_case(22, 2, 2, 2, 0, ARCS_END);
    // 1: no bytes for arcs
    count_case(23, 2, 2, 2, STATES_END, 0);
    // 1: three states counted, two lent
    count_case(24, 2, 3, 2, STATES_END, ARCS_END);
    // 1: 1,024 states counted, two lent
    count_case(25, 2, 1024, 2, STATES_END, ARCS_END);
    // 1: 8,192 arcs counted, two lent
    count_case(26, 2, 2, 8192, STATES_END, ARCS_END);
    // 2: a third state whose bytes are all 255: its flag is neither 0 nor 1
    count_case(27, 2, 3, 2, STATES_LENT, ARCS_END);
    // 2: the first state has the flag 2, the second is missing: in record order
    mixed_case(28, STATES_END - 1, ARCS_END, 5, 2, ARCS_LENT, 0);
    // 1: the second state is missing, the first arc has a byte that is no symbol: states first
    mixed_case(29, STATES_END - 1, ARCS_END, STATES_LENT, 0, SYMBOL, 97);
    // 4: the first arc leaves state 2, the second is missing: in record order
    mixed_case(30, STATES_END, ARC_SIZE + 20, STATES_LENT, 0, 0, 2);
    // 3: a weight of the first state is too great, the first arc is missing: states first
    mixed_case(31, STATES_END, ARC_SIZE - 1, 4, 255, ARCS_LENT, 0);
}

// The fields of a state.
fn state_cases() {
    // 2: initial flag 2 in the first state
    state_case(32, 0, 2, 0, 2);
    // 2: initial flag 255 in the second
    state_case(33, STATE_SIZE, 255, STATE_SIZE, 255);
    // 2: final flag 2 in the second
    state_case(34, STATE_SIZE + 5, 2, STATE_SIZE + 5, 2);
    // 2: the number of an absent final weight is 1
    state_case(35, 6, 1, 6, 1);
    // 2: its highest byte is 1
    state_case(36, 9, 1, 9, 1);
    // 2: the number of an absent initial weight is 1
    state_case(37, STATE_SIZE + 1, 1, STATE_SIZE + 1, 1);
    // 2: an absent initial weight, its number still 5
    state_case(38, 0, 0, 0, 0);
    // 0: an absent initial weight, its number 0
    state_case(39, 0, 0, 1, 0);
    // 3: the initial weight 4,278,190,085
    state_case(40, 4, 255, 4, 255);
    // 3: the final weight 1,000,000,000, one too great
    state_case(41, STATE_SIZE + 6, 0, STATE_SIZE + 7, 202);
    // 0: the initial weight 65,535
    state_case(42, 1, 255, 2, 255);
    // 0: the final weight 0, present
    state_case(43, 5, 1, 5, 1);
    // 2: in one record 3 (initial) and 2 (final): the lesser
    state_case(44, 4, 255, 5, 2);
    // 2: in one record 2 (initial) and 3 (final): the lesser
    state_case(45, STATE_SIZE, 2, STATE_SIZE + 9, 255);
    // 3: 3 in the first state, 2 in the second: in record order
    state_case(46, 4, 255, STATE_SIZE, 2);
    // 2: 2 in the first state, 3 in the second: in record order
    state_case(47, 6, 1, STATE_SIZE + 9, 255);
}

// The fields of an arc.
fn arc_cases() {
    // 4: source 2 of two states
    arc_case(48, 0, 2, 0, 2);
    // 4: source 256
    arc_case(49, 1, 1, 1, 1);
    // 4: target 2
    arc_case(50, 2, 2, 2, 2);
    // 4: target 65,281
    arc_case(51, 3, 255, 3, 255);
    // 0: source 0 of the second arc
    arc_case(52, ARC_SIZE, 0, ARC_SIZE, 0);
    // 3: weight 1,006,632,967
    arc_case(53, WEIGHT_TOP, 60, WEIGHT_TOP, 60);
    // 0: weight 989,855,751
    arc_case(54, WEIGHT_TOP, 59, WEIGHT_TOP, 59);
    // 2: length 3 of AZ: the third byte is 0, no symbol
    arc_case(55, LABEL, 3, LABEL, 3);
    // 2: length 1 of AZ: the second byte is past it and not 0
    arc_case(56, LABEL, 1, LABEL, 1);
    // 2: length 0 of AZ
    arc_case(57, LABEL, 0, LABEL, 0);
    // 2: length 9 of AZ and six zeros: all eight bytes count as within it, and 0 is no symbol
    arc_case(58, LABEL, 9, LABEL, 9);
    // 3: length 9 of eight symbols
    arc_case(59, ARC_SIZE + LABEL, 9, ARC_SIZE + LABEL, 9);
    // 3: length 255 of eight symbols
    arc_case(60, ARC_SIZE + LABEL, 255, ARC_SIZE + LABEL, 255);
    // 2: length 1 of 9 on the second tape, made 0
    arc_case(
        61,
        ARC_SIZE + LABEL + LABEL_SIZE,
        0,
        ARC_SIZE + LABEL + LABEL_SIZE,
        0,
    );
    // 2: a symbol behind the empty label of the second tape
    arc_case(62, SYMBOL + LABEL_SIZE, 65, SYMBOL + LABEL_SIZE, 65);
    // 2: a length on the third tape, which the table has not
    arc_case(63, LABEL + 2 * LABEL_SIZE, 1, LABEL + 2 * LABEL_SIZE, 1);
    // 2: a byte on the third tape
    arc_case(64, SYMBOL + 2 * LABEL_SIZE, 65, SYMBOL + 2 * LABEL_SIZE, 65);
    // 2: the last byte of the eighth tape
    arc_case(65, LABELS_LAST, 1, LABELS_LAST, 1);
    // 2: the same in the second arc
    arc_case(66, ARC_SIZE + LABELS_LAST, 255, ARC_SIZE + LABELS_LAST, 255);
    // 0: a byte behind the last record
    arc_case(67, ARCS_END, 0, ARCS_END, 0);
}

// The edges of the symbols.
fn symbol_cases() {
    // 2: the byte before A
    arc_case(68, SYMBOL, 64, SYMBOL, 64);
    // 2: the byte behind Z
    arc_case(69, SYMBOL, 91, SYMBOL, 91);
    // 2: the byte before 0
    arc_case(70, SYMBOL, 47, SYMBOL, 47);
    // 2: the byte behind 9
    arc_case(71, SYMBOL, 58, SYMBOL, 58);
    // 2: a small a
    arc_case(72, SYMBOL, 97, SYMBOL, 97);
    // 2: a blank
    arc_case(73, SYMBOL, 32, SYMBOL, 32);
    // 2: the greatest byte
    arc_case(74, SYMBOL, 255, SYMBOL, 255);
    // 0: 09
    arc_case(75, SYMBOL, 48, SYMBOL + 1, 57);
    // 0: ZA
    arc_case(76, SYMBOL, 90, SYMBOL + 1, 65);
}

// Two faults in one arc, and in two records.
fn order_cases() {
    // 2: 3 (weight) and 2 (unused tape) in one record: the lesser
    arc_case(77, WEIGHT_TOP, 60, LABELS_LAST, 1);
    // 3: 4 (source) and 3 (weight)
    arc_case(78, 0, 2, WEIGHT_TOP, 60);
    // 2: 4 (target) and 2 (symbol)
    arc_case(79, 2, 2, SYMBOL, 97);
    // 3: 4 (source) and 3 (label length) in the second arc
    arc_case(80, ARC_SIZE, 2, ARC_SIZE + LABEL, 9);
    // 2: 3 (length) and 2 (symbol) in one label
    arc_case(81, ARC_SIZE + LABEL, 9, ARC_SIZE + SYMBOL, 97);
    // 4: 4 (source) and 4 (target)
    arc_case(82, 0, 2, 2, 2);
    // 4: 4 in the first arc, 2 in the second: in record order
    arc_case(83, 0, 2, ARC_SIZE + SYMBOL, 97);
    // 3: 3 in the first arc, 4 in the second
    arc_case(84, WEIGHT_TOP, 60, ARC_SIZE, 9);
    // 3: 3 in the first arc, 2 in the second
    arc_case(85, WEIGHT_TOP, 60, ARC_SIZE + SYMBOL, 97);
    // 2: 2 in the first arc, 4 in the second
    arc_case(86, SYMBOL, 97, ARC_SIZE, 9);
    // 3: 3 in the second state, 2 in the first arc: states first
    mixed_case(87, STATES_END, ARCS_END, STATE_SIZE + 9, 255, SYMBOL, 97);
    // 2: 2 in the second state, 4 in the first arc
    mixed_case(88, STATES_END, ARCS_END, STATE_SIZE, 2, 0, 2);
}

fn main() {
    count_cases();
    slice_cases();
    state_cases();
    arc_cases();
    symbol_cases();
    order_cases();
}
