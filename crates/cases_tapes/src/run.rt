// One case: tables read from their texts, a call on them, and what is printed of the answer.
use cases::input::{bytes, lent, number, table};
use cases::print::{kept_records, print_answer, print_kept_line, print_made};
use table::answer::{Counts, Refusal};
use table::layout::{ARC_SIZE, STATE_SIZE};
use table::lent::Table;
use tapes::drop::drop_tapes;
use tapes::project::project;
use tapes::union::union;

// The records of a table of at most 6 states and 6 arcs.
const STATE_SPACE: usize = 6 * STATE_SIZE;

const ARC_SPACE: usize = 6 * ARC_SIZE;

// Damage to the first byte of records, where the number at a place of the line is 1: of a state the flag of a weight,
// of an arc the number of its source.
fn damage(input: &[u8], at: usize, place: usize, bytes: &mut [u8], b: u8) {
    if number(input, at, place) == 1 && !bytes.is_empty() {
        bytes[0] = b;
    }
}

// The union of two tables that the line names; the first state of the first table or the first arc of the second may be
// damaged.
fn union_of(
    input: &[u8],
    at: usize,
    states: &mut [u8],
    arcs: &mut [u8],
) -> Result<Counts, Refusal> {
    let mut one_states = [0; STATE_SPACE];
    let mut one_arcs = [0; ARC_SPACE];
    let mut two_states = [0; STATE_SPACE];
    let mut two_arcs = [0; ARC_SPACE];
    let one = table(input, at, 4, &mut one_states, &mut one_arcs);
    let two = table(input, at, 6, &mut two_states, &mut two_arcs);
    damage(input, at, 5, &mut one_states, 2);
    damage(input, at, 7, &mut two_arcs, 9);
    let first = Table {
        counts: one,
        states: &one_states,
        arcs: &one_arcs,
    };
    let second = Table {
        counts: two,
        states: &two_states,
        arcs: &two_arcs,
    };
    union(&first, &second, states, arcs)
}

// Tapes of a table chosen or dropped: by a list where the letter that comes first on the line is P, else by a mask. Its
// first state may be damaged.
fn tapes_of(
    input: &[u8],
    at: usize,
    states: &mut [u8],
    arcs: &mut [u8],
) -> Result<Counts, Refusal> {
    let mut table_states = [0; STATE_SPACE];
    let mut table_arcs = [0; ARC_SPACE];
    let mut tapes = [0; 12];
    let counts = table(input, at, 4, &mut table_states, &mut table_arcs);
    damage(input, at, 5, &mut table_states, 2);
    let n = bytes(input, at, 6, &mut tapes);
    let table = Table {
        counts,
        states: &table_states,
        arcs: &table_arcs,
    };
    match u8::try_from(number(input, at, 0)) {
        Ok(b'P') => project(&table, &tapes[..n], states, arcs),
        _ => drop_tapes(&table, tapes[0], states, arcs),
    }
}

// The call of the case with as many states and arcs lent as the line says.
fn call(input: &[u8], at: usize, states: &mut [u8], arcs: &mut [u8]) -> Result<Counts, Refusal> {
    let state_end = lent(input, at, 2, STATE_SIZE, states.len());
    let arc_end = lent(input, at, 3, ARC_SIZE, arcs.len());
    match u8::try_from(number(input, at, 0)) {
        Ok(b'U') => union_of(input, at, &mut states[..state_end], &mut arcs[..arc_end]),
        _ => tapes_of(input, at, &mut states[..state_end], &mut arcs[..arc_end]),
    }
}

// Whether the result space kept its bytes, and the table.
fn print_space(answer: Result<Counts, Refusal>, states: &[u8], arcs: &[u8]) {
    let (n, m) = answer.map_or((0, 0), |c| (c.states, c.arcs));
    print_kept_line(kept_records(states, n, STATE_SIZE) && kept_records(arcs, m, ARC_SIZE));
    print_made(answer, states, arcs);
}

// A table of one tape and no arc.
fn states_alone(count: usize, states: &[u8]) -> Table<'_> {
    let counts = Counts {
        tapes: 1,
        states: count,
        arcs: 0,
    };
    Table {
        counts,
        states,
        arcs: &[],
    }
}

// A table of 1,024 states without weights, and behind it so many such states more, with room for 1,026: the answer
// alone.
fn union_of_many(more: usize) {
    let many = [0; 1024 * STATE_SIZE];
    let mut states = [170; 1026 * STATE_SIZE];
    let mut arcs = [170; ARC_SIZE];
    let first = states_alone(1024, &many);
    let second = states_alone(more, &many);
    let answer = union(&first, &second, &mut states, &mut arcs);
    print_answer(answer);
    io::write_all(1, b"\n");
}

// The case whose line begins at a place: its kind and its number come first.
pub fn case(input: &[u8], at: usize) {
    io::print_decimal(1, number(input, at, 1) as u64);
    if number(input, at, 0) == usize::from(b'M') {
        return union_of_many(number(input, at, 2));
    }
    let mut states = [170; STATE_SPACE];
    let mut arcs = [170; ARC_SPACE];
    let answer = call(input, at, &mut states, &mut arcs);
    print_answer(answer);
    print_space(answer, &states, &arcs);
}
