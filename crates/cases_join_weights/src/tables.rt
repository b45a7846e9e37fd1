// Tables by value, and the calls on them. A case has two lines. On the first stand its kind, its number, the names of
// two tables, and the pairs that they are joined on, three numbers each. On the second stands, of a join in steps, a
// mask of tapes and the pairs that are kept afterwards; and of a union, the name of its other part, and the place, 2 or
// 3, of the table on the first line that is its first part.
use cases::input::{bytes, line_after, number, table};
use intersect::call::intersect;
use join::call::join;
use table::answer::{Counts, Refusal};
use table::layout::{ARC_SIZE, STATE_SIZE};
use table::lent::Table;
use tapes::drop::drop_tapes;
use tapes::union::union;

// The records of a table of at most 60 states and 200 arcs.
pub const STATE_SPACE: usize = 60 * STATE_SIZE;

pub const ARC_SPACE: usize = 200 * ARC_SIZE;

// A table, read or made, with its records.
#[derive(Clone, Copy)]
pub struct Kept {
    counts: Counts,
    states: [u8; STATE_SPACE],
    arcs: [u8; ARC_SPACE],
}

// Of a table on the first line that is the first part of a union: itself, the other part, or the union.
#[derive(Clone, Copy)]
pub enum Part {
    First,
    Other,
    Whole,
}

// The table as it is lent to a call.
pub fn lent(kept: &Kept) -> Table<'_> {
    Table {
        counts: kept.counts,
        states: &kept.states,
        arcs: &kept.arcs,
    }
}

// The counts of a table that was made; none where it was refused.
fn counts_of(answer: Result<Counts, Refusal>) -> Counts {
    answer.unwrap_or(Counts {
        tapes: 0,
        states: 0,
        arcs: 0,
    })
}

// The table whose name stands at a place of a line.
fn table_at(input: &[u8], at: usize, place: usize) -> Kept {
    let mut states = [0; STATE_SPACE];
    let mut arcs = [0; ARC_SPACE];
    let counts = table(input, at, place, &mut states, &mut arcs);
    Kept {
        counts,
        states,
        arcs,
    }
}

// The union of two tables.
pub fn union_of(a: &Kept, b: &Kept) -> Kept {
    let mut states = [0; STATE_SPACE];
    let mut arcs = [0; ARC_SPACE];
    let answer = union(&lent(a), &lent(b), &mut states, &mut arcs);
    Kept {
        counts: counts_of(answer),
        states,
        arcs,
    }
}

// The join of two tables on the pairs of a line.
fn join_of(input: &[u8], at: usize, a: &Kept, b: &Kept) -> Kept {
    let mut pairs = [0; 12];
    let mut product_states = [170; STATE_SPACE];
    let mut product_arcs = [170; ARC_SPACE];
    let mut work = [170; 31000];
    let mut states = [0; STATE_SPACE];
    let mut arcs = [0; ARC_SPACE];
    let n = bytes(input, at, 4, &mut pairs);
    let answer = join(
        &lent(a),
        &lent(b),
        &pairs[..n],
        &mut product_states,
        &mut product_arcs,
        &mut states,
        &mut arcs,
        &mut work,
    );
    Kept {
        counts: counts_of(answer),
        states,
        arcs,
    }
}

// A table kept on the pairs of the second line.
pub fn keep_of(input: &[u8], at: usize, kept: &Kept) -> Kept {
    let mut pairs = [0; 12];
    let mut work = [170; 31000];
    let mut states = [0; STATE_SPACE];
    let mut arcs = [0; ARC_SPACE];
    let n = bytes(input, line_after(input, at), 1, &mut pairs);
    let answer = intersect(&lent(kept), &pairs[..n], &mut states, &mut arcs, &mut work);
    Kept {
        counts: counts_of(answer),
        states,
        arcs,
    }
}

// A table without some of its tapes, by the mask of the second line.
pub fn drop_of(input: &[u8], at: usize, kept: &Kept) -> Kept {
    let mut mask = [0; 1];
    let mut states = [0; STATE_SPACE];
    let mut arcs = [0; ARC_SPACE];
    bytes(input, line_after(input, at), 0, &mut mask);
    let answer = drop_tapes(&lent(kept), mask[0], &mut states, &mut arcs);
    Kept {
        counts: counts_of(answer),
        states,
        arcs,
    }
}

// The table at a place of the first line: itself, or, where it is the first part of a union, the part that is asked
// for.
fn operand(input: &[u8], at: usize, place: usize, part: Part) -> Kept {
    let line = line_after(input, at);
    let first = table_at(input, at, place);
    if number(input, line, 1) != place {
        return first;
    }
    match part {
        Part::First => first,
        Part::Other => table_at(input, line, 0),
        Part::Whole => {
            let other = table_at(input, line, 0);
            union_of(&first, &other)
        }
    }
}

// The join of the two tables of a case.
pub fn join_parts(input: &[u8], at: usize, part: Part) -> Kept {
    let a = operand(input, at, 2, part);
    let b = operand(input, at, 3, part);
    join_of(input, at, &a, &b)
}
