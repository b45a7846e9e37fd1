// One join: two tables read from their texts, joined in space of a given size, and what is printed of the answer.
use cases::input::{bytes, lent, named, number, read_string, table};
use cases::print::{
    front_clear, print_answer, print_clear, print_clear_line, print_made, print_refused_kept,
};
use join::call::join;
use table::answer::{Counts, Refusal};
use table::layout::{ARC_SIZE, STATE_SIZE};
use table::lent::Table;

// The records of a table that is read, of at most 16 states and 16 arcs, and the most that is lent to a product and to
// a result.
const TABLE_STATES: usize = 16 * STATE_SIZE;

const TABLE_ARCS: usize = 16 * ARC_SIZE;

const RESULT_STATES: usize = 60 * STATE_SIZE;

const RESULT_ARCS: usize = 200 * ARC_SIZE;

// A table, and how many bytes of its states are lent.
#[derive(Drop)]
struct Operand {
    counts: Counts,
    states: [u8; TABLE_STATES],
    lent: usize,
    arcs: [u8; TABLE_ARCS],
}

// The answer of a join, and the space that was lent to it.
#[derive(Drop)]
struct Joined {
    answer: Result<Counts, Refusal>,
    product_states: [u8; RESULT_STATES],
    product_arcs: [u8; RESULT_ARCS],
    states: [u8; RESULT_STATES],
    arcs: [u8; RESULT_ARCS],
    work: [u8; 31000],
}

// Another byte at a place, if the place is there.
fn put(bytes: &mut [u8], at: usize, b: u8) {
    if at < bytes.len() {
        bytes[at] = b;
    }
}

// The table of the name X, damaged in one of four ways, or not (0): 1 has its last state record cut by a byte, 2 has a
// presence mark 2, 3 has nine tapes, 4 has an arc to a state that is not there.
fn damaged(input: &[u8], damage: usize, states: &mut [u8], arcs: &mut [u8]) -> Counts {
    let _ = read_string(input, named(input, usize::from(b'X')), states, arcs);
    put(states, 0, if damage == 2 { 2 } else { 1 });
    put(arcs, 2, if damage == 4 { 2 } else { 1 });
    Counts {
        tapes: if damage == 3 { 9 } else { 1 },
        states: 2,
        arcs: 1,
    }
}

// Whether a case is of damaged tables, by the letter that comes first on its line.
fn of_damaged(input: &[u8], at: usize) -> bool {
    number(input, at, 0) == usize::from(b'D')
}

// How many bytes of its states are lent.
fn state_bytes(input: &[u8], at: usize, place: usize) -> usize {
    if of_damaged(input, at) && number(input, at, place) == 1 {
        2 * STATE_SIZE - 1
    } else {
        TABLE_STATES
    }
}

// The records of the table at a place of the line, by its name or by its damage.
fn read_operand(
    input: &[u8],
    at: usize,
    place: usize,
    states: &mut [u8],
    arcs: &mut [u8],
) -> Counts {
    if of_damaged(input, at) {
        damaged(input, number(input, at, place), states, arcs)
    } else {
        table(input, at, place, states, arcs)
    }
}

// The table at a place of the line.
fn operand_at(input: &[u8], at: usize, place: usize) -> Operand {
    let mut states = [0; TABLE_STATES];
    let mut arcs = [0; TABLE_ARCS];
    let counts = read_operand(input, at, place, &mut states, &mut arcs);
    Operand {
        counts,
        states,
        lent: state_bytes(input, at, place),
        arcs,
    }
}

// Joins two tables on the pairs at the end of the line, three numbers each.
fn join_in(input: &[u8], at: usize, first: &Table, second: &Table) -> Joined {
    let mut product_states = [170; RESULT_STATES];
    let mut product_arcs = [170; RESULT_ARCS];
    let mut states = [170; RESULT_STATES];
    let mut arcs = [170; RESULT_ARCS];
    let mut work = [170; 31000];
    let mut pairs = [0; 17];
    let n = bytes(input, at, 9, &mut pairs);
    let ps = lent(input, at, 4, STATE_SIZE, RESULT_STATES);
    let pa = lent(input, at, 5, ARC_SIZE, RESULT_ARCS);
    let rs = lent(input, at, 6, STATE_SIZE, RESULT_STATES);
    let ra = lent(input, at, 7, ARC_SIZE, RESULT_ARCS);
    let w = lent(input, at, 8, 1, 31000);
    let answer = join(
        first,
        second,
        &pairs[..n],
        &mut product_states[..ps],
        &mut product_arcs[..pa],
        &mut states[..rs],
        &mut arcs[..ra],
        &mut work[..w],
    );
    Joined {
        answer,
        product_states,
        product_arcs,
        states,
        arcs,
        work,
    }
}

// The join of the two tables of a line.
fn join_case(input: &[u8], at: usize) -> Joined {
    let a = operand_at(input, at, 2);
    let b = operand_at(input, at, 3);
    let first = Table {
        counts: a.counts,
        states: &a.states[..a.lent.min(TABLE_STATES)],
        arcs: &a.arcs,
    };
    let second = Table {
        counts: b.counts,
        states: &b.states[..b.lent.min(TABLE_STATES)],
        arcs: &b.arcs,
    };
    join_in(input, at, &first, &second)
}

// Whether as many bytes of the product and of the work space as the line says are clear.
fn print_all_clear(input: &[u8], at: usize, joined: &Joined) {
    let ps = lent(input, at, 4, STATE_SIZE, RESULT_STATES);
    let pa = lent(input, at, 5, ARC_SIZE, RESULT_ARCS);
    print_clear(front_clear(&joined.product_states, ps) && front_clear(&joined.product_arcs, pa));
    print_clear_line(front_clear(&joined.work, number(input, at, 8)));
}

// The case whose line begins at a place: its kind and its number come first.
pub fn case(input: &[u8], at: usize) {
    let joined = join_case(input, at);
    io::print_decimal(1, number(input, at, 1) as u64);
    print_answer(joined.answer);
    print_refused_kept(joined.answer, &joined.states, &joined.arcs);
    print_all_clear(input, at, &joined);
    print_made(joined.answer, &joined.states, &joined.arcs);
}
