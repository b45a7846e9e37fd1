// A small table in memory, as it stands and with bytes changed.
use table::bytes::copy_into;
use table::layout::{ARC_SIZE, CONTENT_PLACE, LABELS_PLACE, STATE_SIZE, TARGET_PLACE};

// The bytes of the table's two states and of its two arcs, and the bytes that are lent for them.
pub const STATES_END: usize = 2 * STATE_SIZE;

pub const STATES_LENT: usize = 3 * STATE_SIZE;

pub const ARCS_END: usize = 2 * ARC_SIZE;

pub const ARCS_LENT: usize = 2 * ARC_SIZE + 10;

// Two states: initial weight 5 and no final one; no initial one and final weight 999,999,999. Behind them stand bytes
// that are no part of the table.
const STATES: [u8; STATES_LENT] = [
    1, 5, 0, 0, 0, 0, 0, 0, 0, 0, 0, 0, 0, 0, 0, 1, 255, 201, 154, 59, 255, 255, 255, 255, 255,
    255, 255, 255, 255, 255,
];

// Two arcs on two tapes: 0 to 1 with weight 7 and the labels AZ and none; 1 to 1 with weight 0 and the labels ABCDEF09
// and 9. Behind them stand bytes that are no part of the table.
fn arc_records() -> [u8; ARCS_LENT] {
    let mut arcs = [255u8; ARCS_LENT];
    copy_into(&mut arcs, 0, &[0u8; ARCS_END]);
    arcs[TARGET_PLACE] = 1;
    arcs[CONTENT_PLACE] = 7;
    copy_into(&mut arcs, LABELS_PLACE, &[2u8, 65, 90]);
    arcs[ARC_SIZE] = 1;
    arcs[ARC_SIZE + TARGET_PLACE] = 1;
    copy_into(
        &mut arcs,
        ARC_SIZE + LABELS_PLACE,
        &[8u8, 65, 66, 67, 68, 69, 70, 48, 57, 1, 57],
    );
    arcs
}

// The states with two bytes changed; a place past them changes nothing.
pub fn changed_states(a: usize, x: u8, b: usize, y: u8) -> [u8; STATES_LENT] {
    let mut states = STATES;
    if a < STATES_LENT {
        states[a] = x;
    }
    if b < STATES_LENT {
        states[b] = y;
    }
    states
}

// The same of the arcs.
pub fn changed_arcs(a: usize, x: u8, b: usize, y: u8) -> [u8; ARCS_LENT] {
    let mut arcs = arc_records();
    if a < ARCS_LENT {
        arcs[a] = x;
    }
    if b < ARCS_LENT {
        arcs[b] = y;
    }
    arcs
}
