// One case: two tables read from their text, multiplied, and what is printed of the answer.
use cases::input::{lent, number, table};
use cases::print::print_result;
use product::call::product;
use table::answer::{Counts, Refusal};
use table::layout::{ARC_SIZE, STATE_SIZE};
use table::lent::Table;

// The records of a table that is read, of at most 6 states and 6 arcs, and the most that is lent to a result.
const TABLE_STATES: usize = 6 * STATE_SIZE;

const TABLE_ARCS: usize = 6 * ARC_SIZE;

const RESULT_STATES: usize = 20 * STATE_SIZE;

const RESULT_ARCS: usize = 20 * ARC_SIZE;

// A table that is read.
#[derive(Drop)]
struct Operand {
    counts: Counts,
    states: [u8; TABLE_STATES],
    arcs: [u8; TABLE_ARCS],
}

// The answer of a product, and the space that was lent to it.
#[derive(Drop)]
struct Made {
    answer: Result<Counts, Refusal>,
    states: [u8; RESULT_STATES],
    arcs: [u8; RESULT_ARCS],
    work: [u8; 640],
}

// The counts of a table: of one that the line names, which is read into lent space; or, where the letter that comes
// first on the line is D, of one state and no arc in the bytes as they are, with the tapes that the line says.
fn read_operand(
    input: &[u8],
    at: usize,
    place: usize,
    states: &mut [u8],
    arcs: &mut [u8],
) -> Counts {
    if number(input, at, 0) == usize::from(b'D') {
        Counts {
            tapes: number(input, at, place),
            states: 1,
            arcs: 0,
        }
    } else {
        table(input, at, place, states, arcs)
    }
}

// The table at a place of the line. The bytes of its states are 2 where they are not read: a flag that is refused.
fn operand_at(input: &[u8], at: usize, place: usize) -> Operand {
    let mut states = [2; TABLE_STATES];
    let mut arcs = [0; TABLE_ARCS];
    let counts = read_operand(input, at, place, &mut states, &mut arcs);
    Operand {
        counts,
        states,
        arcs,
    }
}

// Multiplies two tables, with as many states, arcs and bytes of work lent as the line says.
fn multiply(input: &[u8], at: usize, a: &Table, b: &Table) -> Made {
    let mut states = [170; RESULT_STATES];
    let mut arcs = [170; RESULT_ARCS];
    let mut work = [170; 640];
    let state_end = lent(input, at, 4, STATE_SIZE, RESULT_STATES);
    let arc_end = lent(input, at, 5, ARC_SIZE, RESULT_ARCS);
    let work_end = lent(input, at, 6, 1, 640);
    let answer = product(
        a,
        b,
        &mut states[..state_end],
        &mut arcs[..arc_end],
        &mut work[..work_end],
    );
    Made {
        answer,
        states,
        arcs,
        work,
    }
}

// The case whose line begins at a place: its number, and what is printed of the product of its two tables, with so many
// bytes of work lent.
pub fn case(input: &[u8], at: usize) {
    let a = operand_at(input, at, 2);
    let b = operand_at(input, at, 3);
    let first = Table {
        counts: a.counts,
        states: &a.states,
        arcs: &a.arcs,
    };
    let second = Table {
        counts: b.counts,
        states: &b.states,
        arcs: &b.arcs,
    };
    let made = multiply(input, at, &first, &second);
    io::print_decimal(1, number(input, at, 1) as u64);
    print_result(
        made.answer,
        &made.states,
        &made.arcs,
        &made.work,
        number(input, at, 6),
    );
}
