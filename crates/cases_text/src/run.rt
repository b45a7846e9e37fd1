// One case: a text that is read, or a table that is written, and the line that is printed of it.
use cases::input::{find, named, number, read_string, string_after};
use cases::print::{kept_from, print_answer, print_kept_line, print_number, print_whether};
use table::answer::{Counts, Refusal};
use table::layout::{ARC_SIZE, STATE_SIZE};
use table::lent::Table;

// The records of a table of at most 6 states and 4 arcs.
const STATE_SPACE: usize = 6 * STATE_SIZE;

const ARC_SPACE: usize = 4 * ARC_SIZE;

// Whether a table that was read is written as the text that was read.
fn print_same(table: &Table, text: &[u8]) {
    let mut output = [170u8; 400];
    match text::write(table, &mut output) {
        Ok(n) => {
            let written = &output[0..n.min(400)];
            print_whether(check::same(written, text), b" same\n", b" differs\n");
        }
        Err(_) => {
            io::write_all(1, b" not written\n");
        }
    }
}

// Reads a text, its string from a place to another, into the space of a table.
fn read_case(input: &[u8], from: usize, end: usize) {
    let mut states = [170u8; STATE_SPACE];
    let mut arcs = [170u8; ARC_SPACE];
    let answer = read_string(input, from, &mut states, &mut arcs);
    print_answer(answer);
    match answer {
        Ok(counts) => {
            if from <= end && end <= input.len() {
                let table = Table {
                    counts,
                    states: &states,
                    arcs: &arcs,
                };
                print_same(&table, &input[from..end]);
            }
        }
        Err(_) => {
            let kept = kept_from(&states, 0) && kept_from(&arcs, 0);
            print_kept_line(kept);
        }
    }
}

// Another byte at a place, if the place is there and the number is a byte.
fn change(bytes: &mut [u8], at: usize, b: usize) {
    if at < bytes.len() && b < 256 {
        bytes[at] = b as u8;
    }
}

// What was written: the answer, and whether the bytes of the output behind the text are as they were.
fn print_written(answer: Result<usize, Refusal>, output: &[u8; 200]) {
    match answer {
        Ok(n) => {
            io::write_all(1, b" bytes");
            print_number(n);
            print_kept_line(kept_from(output, n));
        }
        Err(r) => {
            print_answer(Err(r));
            print_kept_line(kept_from(output, 0));
        }
    }
}

// Writes a table into so many bytes of an output of 200.
fn write_to(table: &Table, room: usize) {
    if 200 < room {
        return;
    }
    let mut output = [170u8; 200];
    let answer = text::write(table, &mut output[0..room]);
    print_written(answer, &output);
}

// The string that the table to write is read from.
fn example(input: &[u8]) -> usize {
    named(input, b'E' as usize)
}

// Writes the example with other counts.
fn count_case(input: &[u8], at: usize) {
    let mut states = [0u8; STATE_SPACE];
    let mut arcs = [0u8; ARC_SPACE];
    let _ = read_string(input, example(input), &mut states, &mut arcs);
    let counts = Counts {
        tapes: number(input, at, 2),
        states: number(input, at, 3),
        arcs: number(input, at, 4),
    };
    let table = Table {
        counts,
        states: &states,
        arcs: &arcs,
    };
    write_to(&table, 200);
}

// Writes the example into so much room, with a byte of its states and one of its arcs changed.
fn write_case(input: &[u8], at: usize) {
    let mut states = [0u8; STATE_SPACE];
    let mut arcs = [0u8; ARC_SPACE];
    let _ = read_string(input, example(input), &mut states, &mut arcs);
    change(&mut states, number(input, at, 3), number(input, at, 4));
    change(&mut arcs, number(input, at, 5), number(input, at, 6));
    let counts = Counts {
        tapes: 2,
        states: 1,
        arcs: 2,
    };
    let table = Table {
        counts,
        states: &states,
        arcs: &arcs,
    };
    write_to(&table, number(input, at, 2));
}

// The case whose line begins at a place: its kind and its number come first.
pub fn case(input: &[u8], at: usize) {
    let kind = number(input, at, 0);
    io::print_decimal(1, number(input, at, 1) as u64);
    if kind == b'R' as usize {
        let from = string_after(input, at);
        read_case(input, from, find(input, from, b'}'));
    } else if kind == b'W' as usize {
        write_case(input, at);
    } else {
        count_case(input, at);
    }
}
