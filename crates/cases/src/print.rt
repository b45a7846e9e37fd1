// What is printed of a case.
use crate::input::bytes_of;
use table::answer::{Counts, Refusal};
use table::judge::all_zero;
use table::lent::Table;

// A blank and a number.
pub fn print_number(n: usize) {
    io::write_all(1, b" ");
    io::print_decimal(1, n as u64);
}

// One of two words.
pub fn print_whether(fine: bool, yes: &[u8], no: &[u8]) {
    io::write_all(1, if fine { yes } else { no });
}

// Whether bytes are as they were lent.
pub fn print_kept(kept: bool) {
    print_whether(kept, b" kept", b" changed");
}

// The same, at the end of a line.
pub fn print_kept_line(kept: bool) {
    print_whether(kept, b" kept\n", b" changed\n");
}

// Whether bytes are zero.
pub fn print_clear(clear: bool) {
    print_whether(clear, b" clear", b" dirty");
}

// The same, at the end of a line.
pub fn print_clear_line(clear: bool) {
    print_whether(clear, b" clear\n", b" dirty\n");
}

// The text of a table of at most 1,000 bytes.
pub fn print_text(table: &Table) {
    let mut output = [0u8; 1000];
    match text::write(table, &mut output) {
        Ok(n) => {
            io::write_all(1, &output[0..n.min(1000)]);
        }
        Err(_) => {
            io::write_all(1, b"not written\n");
        }
    }
}

// An answer: the counts of a table, or the number of a refusal.
pub fn print_answer(answer: Result<Counts, Refusal>) {
    match answer {
        Ok(c) => {
            io::write_all(1, b" table");
            print_number(c.tapes);
            print_number(c.states);
            print_number(c.arcs);
        }
        Err(r) => {
            io::write_all(1, b" refused");
            print_number(usize::from(u8::from(r)));
        }
    }
}

// Whether the first bytes of a slice are zero.
pub fn front_clear(bytes: &[u8], n: usize) -> bool {
    n <= bytes.len() && all_zero(&bytes[0..n])
}

// Whether the bytes of a slice from a place on are all 170.
pub fn kept_from(bytes: &[u8], from: usize) -> bool {
    from <= bytes.len() && bytes[from..].iter().all(|b| *b == 170)
}

// The same from the record of a number on, where a record has `size` bytes.
pub fn kept_records(bytes: &[u8], from: usize, size: usize) -> bool {
    kept_from(bytes, bytes_of(from, size))
}

// Of a refusal, whether the result space kept its bytes.
pub fn print_refused_kept(answer: Result<Counts, Refusal>, states: &[u8], arcs: &[u8]) {
    if answer.is_err() {
        print_kept(kept_from(states, 0) && kept_from(arcs, 0));
    }
}

// The text of a table that was made.
pub fn print_made(answer: Result<Counts, Refusal>, states: &[u8], arcs: &[u8]) {
    if let Ok(counts) = answer {
        print_text(&Table {
            counts,
            states,
            arcs,
        });
    }
}

// The answer, of a refusal whether the result space kept its bytes, whether so many bytes of work are clear, and the
// table that was made.
pub fn print_result(
    answer: Result<Counts, Refusal>,
    states: &[u8],
    arcs: &[u8],
    work: &[u8],
    n: usize,
) {
    print_answer(answer);
    print_refused_kept(answer, states, arcs);
    print_clear_line(front_clear(work, n));
    print_made(answer, states, arcs);
}
