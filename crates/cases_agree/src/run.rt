// One case: the first line and the table as one text, and what `agree` writes of it.
use agree_text::agree_text;
use agree_text::keep::OUTPUT_LENT;
use cases::input::{find, named, number, string_after};
use table::bytes::copy_into;

// Copies a part to a place of a text where there is room for it, and tells the place behind what stands there.
fn append(text: &mut [u8], at: usize, part: &[u8]) -> usize {
    if text.len() < at || text.len() - at < part.len() {
        return at;
    }
    copy_into(text, at, part);
    at + part.len()
}

// The same of the string that begins at a place of the input.
fn append_string(text: &mut [u8], at: usize, input: &[u8], from: usize) -> usize {
    let end = find(input, from, b'}');
    append(text, at, &input[from.min(end)..end])
}

// Writes the first bytes of a slice, where it has so many.
fn print_front(bytes: &[u8], n: usize) {
    if n <= bytes.len() {
        io::write_all(1, &bytes[0..n]);
    }
}

// The same of an output.
fn print_output(bytes: &[u8; OUTPUT_LENT], n: usize) {
    print_front(bytes, n);
}

// What `agree` writes of the first bytes of a text, where it has so many.
fn print_written(text: &[u8], n: usize) {
    if text.len() < n {
        return;
    }
    let mut output = [0u8; OUTPUT_LENT];
    let m = agree_text(&text[0..n], &mut output);
    print_output(&output, m);
}

// The case whose line begins at a place: its number and the name of its table come first, then the first line as a
// string. Where no string has that name, nothing follows the first line.
pub fn case(input: &[u8], at: usize) {
    let mut text = [0u8; 4096];
    let line = append_string(&mut text, 0, input, string_after(input, at));
    let n = append_string(&mut text, line, input, named(input, number(input, at, 1)));
    io::print_decimal(1, number(input, at, 0) as u64);
    io::write_all(1, b"\n");
    print_written(&text, n);
}
