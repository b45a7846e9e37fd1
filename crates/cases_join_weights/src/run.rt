// One case: weights of a tuple in joins that must give the same.
use crate::tables::{Kept, Part, drop_of, join_parts, keep_of, lent, union_of};
use cases::input::{find, number, string_after};
use lookup::call::lookup;
use table::answer::Refusal;

// A weight, behind its word where `word` says so.
fn print_weight(answer: Result<Option<u64>, Refusal>, word: bool) {
    match answer {
        Ok(Some(w)) => {
            if word {
                io::write_all(1, b" weight");
            }
            io::write_all(1, b" ");
            io::print_decimal(1, w);
        }
        Ok(None) => {
            io::write_all(1, b" none");
        }
        Err(why) => {
            io::write_all(1, b" refused ");
            io::print_decimal(1, u64::from(u8::from(why)));
        }
    }
}

// The weight in a table of the tuple behind a case's lines.
fn look(input: &[u8], at: usize, kept: &Kept, word: bool) {
    let mut work = [170; 12000];
    let from = string_after(input, at);
    let end = find(input, from, b'}');
    if from <= end {
        print_weight(lookup(&lent(kept), &input[from..end], &mut work), word);
    }
}

// In the join of two tables.
fn weigh_join(input: &[u8], at: usize) {
    look(input, at, &join_parts(input, at, Part::First), true);
}

// In a join on some pairs, the others kept afterwards and their second tapes dropped.
fn weigh_steps(input: &[u8], at: usize) {
    let joined = join_parts(input, at, Part::First);
    let kept = keep_of(input, at, &joined);
    look(input, at, &drop_of(input, at, &kept), true);
}

// Of a union of two parts joined to another table: in the join of the union, in the joins of its parts, and in the
// union of these.
fn weigh_parts(input: &[u8], at: usize) {
    let one = join_parts(input, at, Part::First);
    let other = join_parts(input, at, Part::Other);
    look(input, at, &join_parts(input, at, Part::Whole), true);
    io::write_all(1, b":");
    look(input, at, &one, false);
    look(input, at, &other, false);
    look(input, at, &union_of(&one, &other), false);
}

// The case whose line begins at a place: its kind and its number come first.
pub fn case(input: &[u8], at: usize) {
    let kind = number(input, at, 0);
    io::print_decimal(1, number(input, at, 1) as u64);
    if kind == usize::from(b'P') {
        weigh_parts(input, at);
    } else if kind == usize::from(b'S') {
        weigh_steps(input, at);
    } else {
        weigh_join(input, at);
    }
    io::write_all(1, b"\n");
}
