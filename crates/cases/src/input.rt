// The form of an input. A case is a line that begins with the byte >, and holds numbers; a capital letter on it counts
// as a number too, that of its byte; all other bytes of the line are for the reader alone. A string stands between {,
// with the byte 10 behind it, and }. The string of a table has a capital letter for a name, which stands before the {,
// with a blank between. Anything else is a comment: a line of one begins with the byte #. No string and no comment
// holds one of the bytes >, { and }.
ghost use Rattle.std.specs.Prelude.{◌≤◌, length};

use std::ops::ControlFlow;
use table::answer::{Counts, Refusal};
use table::layout::{ARC_SIZE, STATE_SIZE};

// What stands for a number that a line does not have: no `None`, since each program takes a missing number for one that
// is above every size, and prints it so.
pub const NO_NUMBER: usize = 99999999;

// A line that is being read: how many numbers are still to pass, and the number whose digits were just read.
#[derive(Clone, Copy)]
struct Scan {
    left: usize,
    digits: Option<usize>,
}

// A number with one digit more; one of a million or more stays as it is.
fn with_digit(value: usize, b: u8) -> usize {
    if value < 1000000 && b'0' <= b {
        value * 10 + usize::from(b - b'0')
    } else {
        value
    }
}

// A number has ended: it is the one that is looked for, or one less is left to pass.
fn ended(left: usize, value: usize) -> ControlFlow<usize, Scan> {
    match left {
        0 => ControlFlow::Break(value),
        n => ControlFlow::Continue(Scan {
            left: n - 1,
            digits: None,
        }),
    }
}

// A byte that is no digit, where no digits stand before it.
fn step_between(left: usize, b: u8) -> ControlFlow<usize, Scan> {
    match b {
        b'\n' => ControlFlow::Break(NO_NUMBER),
        b'A'..=b'Z' => ended(left, usize::from(b)),
        _ => ControlFlow::Continue(Scan { left, digits: None }),
    }
}

// One more byte of a line, a byte 10 with it: the number that is looked for, or how the reading goes on.
fn step(s: Scan, b: u8) -> ControlFlow<usize, Scan> {
    match s.digits {
        digits if b.is_ascii_digit() => ControlFlow::Continue(Scan {
            left: s.left,
            digits: Some(with_digit(digits.unwrap_or(0), b)),
        }),
        Some(value) if s.left == 0 => ControlFlow::Break(value),
        Some(_) => step_between(s.left - 1, b),
        None => step_between(s.left, b),
    }
}

// The number at a place of the line that the byte `at` stands on, counted from 0 from that byte on.
pub fn number(input: &[u8], at: usize, place: usize) -> usize {
    let mut s = Scan {
        left: place,
        digits: None,
    };
    for i in at..input.len() {
        match step(s, input[i]) {
            ControlFlow::Break(value) => return value,
            ControlFlow::Continue(next) => s = next,
        }
    }
    NO_NUMBER
}

// The first place from one on that holds a byte; where none does, the end.
pub fn find(input: &[u8], from: usize, b: u8) -> usize
    ensures { result ≤ length input.now }
{
    for i in from..input.len() {
        if input[i] == b {
            return i;
        }
    }
    input.len()
}

// Where the next case begins, behind its byte >.
pub fn next(input: &[u8], at: usize) -> Option<usize> {
    let mark = find(input, at, b'>');
    if mark < input.len() {
        Some(mark + 1)
    } else {
        None
    }
}

// Runs every case of the standard input, of at most 200, at the place where its line begins.
pub fn run_all<F: Fn(&[u8], usize)>(case: F)
    requires { F.IsAlwaysCallable case }
{
    let mut input = io::large_buffer();
    io::read_full(0, &mut input);
    let mut at = 0;
    for _ in 0..200 {
        let Some(place) = next(&input, at) else {
            return;
        };
        case(&input, place);
        at = place;
    }
}

// Where the line behind the one that a byte stands on begins; the end where there is none.
pub fn line_after(input: &[u8], at: usize) -> usize {
    let end = find(input, at, b'\n');
    if end < input.len() { end + 1 } else { end }
}

// The numbers of a line from a place on, as bytes, and how many there are; a number above 255 ends them.
pub fn bytes(input: &[u8], at: usize, place: usize, out: &mut [u8]) -> usize
    ensures { result ≤ length out.old }
{
    if 100 < place || 100 < out.len() {
        return 0;
    }
    for (i, b) in out.iter_mut().enumerate() {
        match u8::try_from(number(input, at, place + i)) {
            Ok(n) => *b = n,
            Err(_) => return i,
        }
    }
    out.len()
}

// Where the string begins that has a name; the end where none has.
pub fn named(input: &[u8], name: usize) -> usize
    ensures { result ≤ length input.now }
{
    for i in 4..input.len() {
        if input[i - 2] == b'{' && input[i - 3] == b' ' && usize::from(input[i - 4]) == name {
            return i;
        }
    }
    input.len()
}

// Where the first string behind a place begins; the end where there is none.
pub fn string_after(input: &[u8], at: usize) -> usize
    ensures { result ≤ length input.now }
{
    let open = find(input, at, b'{');
    if input.len() - open < 2 {
        input.len()
    } else {
        open + 2
    }
}

// How many bytes so many records of states or of arcs take, by their size; where `size` is neither, the number itself.
// A million and more stay as they are.
pub fn bytes_of(n: usize, size: usize) -> usize {
    match size {
        STATE_SIZE | ARC_SIZE if n < 1000000 => n * size,
        _ => n,
    }
}

// How many bytes the records take whose number stands at a place of a line: at most so many.
pub fn lent(input: &[u8], at: usize, place: usize, size: usize, most: usize) -> usize
    ensures { result ≤ most }
{
    bytes_of(number(input, at, place), size).min(most)
}

// The table whose text is a string from a place on, in lent space.
pub fn read_string(
    input: &[u8],
    from: usize,
    states: &mut [u8],
    arcs: &mut [u8],
) -> Result<Counts, Refusal> {
    let end = find(input, from, b'}');
    text::read(&input[from.min(end)..end], states, arcs)
}

// The counts of the table whose name stands at a place of a line, in lent space; no states and no tapes where its
// string is not a table.
pub fn table(input: &[u8], at: usize, place: usize, states: &mut [u8], arcs: &mut [u8]) -> Counts {
    let from = named(input, number(input, at, place));
    read_string(input, from, states, arcs).unwrap_or(Counts {
        tapes: 0,
        states: 0,
        arcs: 0,
    })
}
