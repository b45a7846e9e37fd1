// One case: a table read from its text, a tuple looked up in it with its path, and what is printed of the answer.
ghost use Rattle.std.specs.Prelude.{◌≤◌};

use cases::input::{find, lent, number, string_after, table};
use cases::print::{front_clear, kept_from, print_clear_line, print_kept, print_number};
use path::call::path;
use path_search::answer::PathTold;
use table::answer::{Counts, Refusal};
use table::bytes::get16;
use table::layout::{ARC_SIZE, STATE_SIZE};
use table::lent::Table;

// The records of a table of at most 12 states and 312 arcs.
const STATE_SPACE: usize = 12 * STATE_SIZE;

const ARC_SPACE: usize = (MOST_BEFORE + MOST_ARCS) * ARC_SIZE;

// The most arcs of a table that a case names, and the most that stand before them.
const MOST_ARCS: usize = 12;

const MOST_BEFORE: usize = 300;

// How many arcs stand before those of the table: as many as the line says, 0 where it says nothing.
fn arcs_before(input: &[u8], at: usize) -> usize
    ensures { result ≤ 300 }
{
    let n = number(input, at, 5);
    if n <= MOST_BEFORE { n } else { 0 }
}

// Where something holds, another byte at a place, if the place is there.
fn put_where(holds: bool, bytes: &mut [u8], at: usize, b: u8) {
    if holds && at < bytes.len() {
        bytes[at] = b;
    }
}

// Damage to counts: 1 is a state more than records are lent, 3 is nine tapes.
fn damaged_counts(damage: usize, c: Counts) -> Counts {
    match damage {
        1 => Counts { states: 13, ..c },
        3 => Counts { tapes: 9, ..c },
        _ => c,
    }
}

// The table that the line names, of at most 12 states and 12 arcs, damaged as the line says: 2 is a presence mark 2 at
// its first state, 4 is a target that is not there at its first arc. The arcs before its own have records of zeros:
// from state 0 to itself, with empty labels and weight 0.
fn read_table(input: &[u8], at: usize, states: &mut [u8], arcs: &mut [u8]) -> Counts {
    let before = arcs_before(input, at);
    let end = arcs.len();
    let from = end.min(ARC_SIZE * before);
    let c = table(input, at, 1, states, &mut arcs[from..end]);
    let damage = number(input, at, 4);
    put_where(damage == 2, states, 0, 2);
    put_where(damage == 4, arcs, 2, 13);
    damaged_counts(
        damage,
        Counts {
            arcs: before + c.arcs.min(MOST_ARCS),
            ..c
        },
    )
}

// The path behind the weight of the tuple that stands behind the line, with as many bytes of list and of work lent as
// the line says.
fn path_in(
    input: &[u8],
    at: usize,
    table: &Table,
    list: &mut [u8],
    work: &mut [u8],
) -> Result<Option<PathTold>, Refusal> {
    let list_end = lent(input, at, 2, 1, list.len());
    let work_end = lent(input, at, 3, 1, work.len());
    let from = string_after(input, at);
    let end = find(input, from, b'}');
    let start = from.min(end);
    path(
        table,
        &input[start..end],
        &mut list[0..list_end],
        &mut work[0..work_end],
    )
}

// The same in the table of the line.
fn find_path(
    input: &[u8],
    at: usize,
    list: &mut [u8],
    work: &mut [u8],
) -> Result<Option<PathTold>, Refusal> {
    let mut states = [0u8; STATE_SPACE];
    let mut arcs = [0u8; ARC_SPACE];
    let counts = read_table(input, at, &mut states, &mut arcs);
    let table = Table {
        counts,
        states: &states,
        arcs: &arcs,
    };
    path_in(input, at, &table, list, work)
}

// The first arc numbers of a list, of at most 300.
fn print_arcs(list: &[u8; 600], arcs: usize) {
    for h in 0..arcs.min(300) {
        print_number(get16(list, 2 * h) as usize);
    }
}

// A path, and whether the list kept its bytes past it.
fn print_path(told: PathTold, list: &[u8; 600]) {
    io::write_all(1, b" weight ");
    io::print_decimal(1, told.weight);
    io::write_all(1, b" start");
    print_number(told.start);
    io::write_all(1, b" arcs");
    print_arcs(list, told.arcs);
    if told.arcs <= 300 {
        print_kept(kept_from(list, 2 * told.arcs));
    }
}

// The answer; where there is no path, whether the list kept all of its bytes.
fn print_answer(answer: Result<Option<PathTold>, Refusal>, list: &[u8; 600]) {
    match answer {
        Ok(Some(told)) => print_path(told, list),
        Ok(None) => {
            io::write_all(1, b" none");
            print_kept(kept_from(list, 0));
        }
        Err(why) => {
            io::write_all(1, b" refused");
            print_number(usize::from(u8::from(why)));
            print_kept(kept_from(list, 0));
        }
    }
}

// The case whose line begins at a place: its number comes first.
pub fn case(input: &[u8], at: usize) {
    let mut list = [170u8; 600];
    let mut work = [170u8; 13000];
    io::print_decimal(1, number(input, at, 0) as u64);
    let answer = find_path(input, at, &mut list, &mut work);
    print_answer(answer, &list);
    print_clear_line(front_clear(&work, number(input, at, 3)));
}
