// One case: a table read from its text, a tuple looked up in it, and what is printed of the answer.
use cases::input::{find, lent, number, string_after, table};
use cases::print::{front_clear, print_clear_line};
use lookup::call::lookup;
use table::answer::Refusal;
use table::layout::{ARC_SIZE, STATE_SIZE};
use table::lent::Table;

// The records of a table of at most 4 states and 5 arcs.
const STATE_SPACE: usize = 4 * STATE_SIZE;

const ARC_SPACE: usize = 5 * ARC_SIZE;

// The answer.
fn print_answer(answer: Result<Option<u64>, Refusal>) {
    match answer {
        Ok(Some(w)) => {
            io::write_all(1, b" weight ");
            io::print_decimal(1, w);
        }
        Ok(None) => {
            io::write_all(1, b" none");
        }
        Err(why) => {
            io::write_all(1, b" refused ");
            io::print_decimal(1, u64::from(u8::from(why)));
        }
    }
}

// Looks a tuple up in a table whose name stands on the line, in so much work space.
fn look(input: &[u8], at: usize, tuple: &[u8], work: &mut [u8]) {
    let mut states = [0u8; STATE_SPACE];
    let mut arcs = [0u8; ARC_SPACE];
    let counts = table(input, at, 1, &mut states, &mut arcs);
    let table = Table {
        counts,
        states: &states,
        arcs: &arcs,
    };
    print_answer(lookup(&table, tuple, work));
}

// The same with as many bytes of work lent as the line says, and the tuple behind it.
fn look_in(input: &[u8], at: usize, work: &mut [u8]) {
    let work_end = lent(input, at, 2, 1, work.len());
    let from = string_after(input, at);
    let end = find(input, from, b'}');
    if from <= end {
        look(input, at, &input[from..end], &mut work[0..work_end]);
    }
}

// The case whose line begins at a place: its number comes first.
pub fn case(input: &[u8], at: usize) {
    let mut work = [170u8; 5000];
    io::print_decimal(1, number(input, at, 0) as u64);
    look_in(input, at, &mut work);
    print_clear_line(front_clear(&work, number(input, at, 2)));
}
