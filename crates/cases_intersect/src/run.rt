// One case: a table read from its text, kept on pairs of tapes, and what is printed of the answer.
use cases::input::{bytes, lent, number, table};
use cases::print::print_result;
use intersect::call::intersect;
use table::answer::{Counts, Refusal};
use table::layout::{ARC_SIZE, STATE_SIZE};
use table::lent::Table;

// The records of a table that is read, of at most 6 states and 8 arcs, and the most that is lent to a result.
const TABLE_STATES: usize = 6 * STATE_SIZE;

const TABLE_ARCS: usize = 8 * ARC_SIZE;

const RESULT_STATES: usize = 130 * STATE_SIZE;

const RESULT_ARCS: usize = 193 * ARC_SIZE;

// The answer of a build, and the space that was lent to it.
#[derive(Drop)]
struct Built {
    answer: Result<Counts, Refusal>,
    states: [u8; RESULT_STATES],
    arcs: [u8; RESULT_ARCS],
    work: [u8; 45000],
}

// Keeps a table on the pairs at the end of the line, three numbers each, with as many states, arcs and bytes of work
// lent as the line says.
fn keep(input: &[u8], at: usize, table: &Table) -> Built {
    let mut states = [170u8; RESULT_STATES];
    let mut arcs = [170u8; RESULT_ARCS];
    let mut work = [170u8; 45000];
    let mut pairs = [0u8; 17];
    let n = bytes(input, at, 5, &mut pairs);
    let state_end = lent(input, at, 2, STATE_SIZE, RESULT_STATES);
    let arc_end = lent(input, at, 3, ARC_SIZE, RESULT_ARCS);
    let work_end = lent(input, at, 4, 1, 45000);
    let answer = intersect(
        table,
        &pairs[..n],
        &mut states[..state_end],
        &mut arcs[..arc_end],
        &mut work[..work_end],
    );
    Built {
        answer,
        states,
        arcs,
        work,
    }
}

// What is built of the table of at most 6 states and 8 arcs that the line names.
fn build(input: &[u8], at: usize) -> Built {
    let mut states = [0u8; TABLE_STATES];
    let mut arcs = [0u8; TABLE_ARCS];
    let counts = table(input, at, 1, &mut states, &mut arcs);
    let kept = Table {
        counts,
        states: &states,
        arcs: &arcs,
    };
    keep(input, at, &kept)
}

// The case whose line begins at a place: its number comes first.
pub fn case(input: &[u8], at: usize) {
    let made = build(input, at);
    io::print_decimal(1, number(input, at, 0) as u64);
    print_result(
        made.answer,
        &made.states,
        &made.arcs,
        &made.work,
        number(input, at, 4),
    );
}
