// The program `agree`: the pair line and the table from standard input, the table of the accounts that agree, or the
// refusal, to standard output. All that matters is `agree_text`; one byte more than the longest input is read, so that
// a longer one is known.
#![tactic(auto)]

use agree_text::agree_text;
use agree_text::keep::OUTPUT_LENT;

// Room for an input and for one byte more.
fn input_space() -> [u8; 65537] {
    [0; 65537]
}

// Writes the first bytes of a slice, where it has so many.
fn write_front(bytes: &[u8], n: usize) {
    if n <= bytes.len() {
        io::write_all(1, &bytes[0..n]);
    }
}

// The same of the output.
fn write_output(bytes: &[u8; OUTPUT_LENT], n: usize) {
    write_front(bytes, n);
}

// What is written of the first bytes of a slice that was read.
fn run(bytes: &[u8], n: usize) {
    if bytes.len() < n {
        return;
    }
    let mut output = [0u8; OUTPUT_LENT];
    let m = agree_text(&bytes[0..n], &mut output);
    write_output(&output, m);
}

// The same of the input.
fn run_input(bytes: &[u8; 65537], n: usize) {
    run(bytes, n);
}

fn main() {
    let mut input = input_space();
    let n = io::read_full(0, &mut input);
    run_input(&input, n);
}
