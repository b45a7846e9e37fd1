// Prints the closing delays of small tables: of each state the least delay, the least of the pair turned round (which
// is the greatest, negated), and whether a final state is reached. Each is worked out by hand beside its table; a delay
// is the number of symbols that a path to a final state spells on the pair's first tape, less that on its second.
#![tactic(auto)]

ghost use Rattle.std.specs.Prelude.{◌≡◌, ◌+◌, ◌*◌, ◌≤◌, length};
ghost use Rattle.automata.specs.Memory.{Sound};
ghost use Rattle.automata.specs.Layout.{arc_size, delays_size};
ghost use Rattle.table.specs.Answers.{lent};
ghost use Rattle.table.specs.Region.{splice};
ghost use Rattle.table.specs.Pairs.{Named};
ghost use Rattle.cases_delays.specs.Tables.{symbols, arc_bytes, arcs_bytes, state_bytes, counts_of, only};

use delays::closing_tables;
use table::answer::Counts;
use table::bytes::{copy_into, get16};
use table::layout::{
    ARC_SIZE, DELAYS_SIZE, FINAL_PLACE, LABEL_SIZE, LABELS_PLACE, OPPOSITE_PLACE, REACHING_PLACE,
    STATE_SIZE, SYMBOLS_PLACE, TARGET_PLACE,
};
use table::lent::Table;
use table::pair::{Pair, PairList};

// Where the third arc and the fourth stand, and the bytes of four.
const THIRD_ARC: usize = 2 * ARC_SIZE;

const FOURTH_ARC: usize = 3 * ARC_SIZE;

const FOUR_ARCS: usize = 4 * ARC_SIZE;

// The bytes of four states, and of the delays of so many.
const FOUR_STATES: usize = 4 * STATE_SIZE;

const FOUR_DELAYS: usize = 4 * DELAYS_SIZE;

// Where the labels of an arc behind its first one stand, and the first symbols of three.
const SECOND_LABEL: usize = LABELS_PLACE + LABEL_SIZE;

const THIRD_LABEL: usize = SECOND_LABEL + LABEL_SIZE;

const FIRST_SYMBOL: usize = LABELS_PLACE + SYMBOLS_PLACE;

const SECOND_SYMBOL: usize = SECOND_LABEL + SYMBOLS_PLACE;

const THIRD_SYMBOL: usize = THIRD_LABEL + SYMBOLS_PLACE;

// Where the final weights of the states behind the first one stand.
const SECOND_FINAL: usize = STATE_SIZE + FINAL_PLACE;

const THIRD_FINAL: usize = 2 * STATE_SIZE + FINAL_PLACE;

const FOURTH_FINAL: usize = 3 * STATE_SIZE + FINAL_PLACE;

// How many symbols a label has, of none or one.
fn symbols_of(symbol: u8) -> u8
    ensures { result ≡ symbols symbol }
{
    if symbol == 0 { 0 } else { 1 }
}

// The record of an arc of weight 0: source, target, and one symbol or none (0) on each of three tapes.
fn arc_record(arc: [u8; 5]) -> [u8; ARC_SIZE]
    ensures { result ≡ arc_bytes arc }
{
    let mut record = [0u8; ARC_SIZE];
    record[0] = arc[0];
    record[TARGET_PLACE] = arc[1];
    record[LABELS_PLACE] = symbols_of(arc[2]);
    record[FIRST_SYMBOL] = arc[2];
    record[SECOND_LABEL] = symbols_of(arc[3]);
    record[SECOND_SYMBOL] = arc[3];
    record[THIRD_LABEL] = symbols_of(arc[4]);
    record[THIRD_SYMBOL] = arc[4];
    record
}

// An arc written at a place.
fn put_arc(arcs: &mut [u8], at: usize, arc: [u8; 5])
    requires { at + arc_size ≤ length arcs.old }
    ensures { arcs.new ≡ splice at (arc_bytes arc) arcs.old }
{
    copy_into(arcs, at, &arc_record(arc));
}

// The records of four states: 1 for one with the final weight 0. No state is initial, which closing delays do not ask.
fn state_records(finals: [u8; 4]) -> [u8; FOUR_STATES]
    ensures { result ≡ state_bytes finals }
{
    let mut records = [0u8; FOUR_STATES];
    records[FINAL_PLACE] = finals[0];
    records[SECOND_FINAL] = finals[1];
    records[THIRD_FINAL] = finals[2];
    records[FOURTH_FINAL] = finals[3];
    records
}

// A delay as it is held.
fn print_delay(v: u16) {
    match v {
        65535 => {
            io::write_all(1, b"missing");
        }
        0 => {
            io::write_all(1, b"endless");
        }
        1..=16383 => {
            io::write_all(1, b"-");
            io::print_decimal(1, u64::from(16384 - v));
        }
        _ => {
            io::print_decimal(1, u64::from(v - 16384));
        }
    }
}

// What the closing tables hold of state `q`.
fn print_state(work: &[u8], q: usize)
    requires { delays_size * q + delays_size ≤ length work.now }
{
    let at = DELAYS_SIZE * q;
    io::write_all(1, b"  ");
    io::print_decimal(1, q as u64);
    io::write_all(1, b": least ");
    print_delay(get16(work, at));
    io::write_all(1, b", turned round ");
    print_delay(get16(work, at + OPPOSITE_PLACE));
    if get16(work, at + REACHING_PLACE) == 65535 {
        io::write_all(1, b", no final state\n");
    } else {
        io::write_all(1, b", a final state\n");
    }
}

// The same of all states.
fn print_states(work: &[u8], states: usize)
    requires { delays_size * states ≤ length work.now }
{
    for q in 0..states {
        print_state(work, q);
    }
}

// The closing delays of a table of at most four states and four arcs: its tapes, states and arcs, which states are
// final, its arcs (zeros past their number), and the two tapes.
fn show(
    name: &[u8],
    size: [usize; 3],
    finals: [u8; 4],
    a: [u8; 5],
    b: [u8; 5],
    c: [u8; 5],
    d: [u8; 5],
    tapes: [u8; 2],
)
    requires { ((counts_of size).states ≤ 4) × Sound (lent (counts_of size) (state_bytes finals) (arcs_bytes a b c d))
        × Named (counts_of size).tapes (only tapes) }
{
    let states = state_records(finals);
    let mut arcs = [0u8; FOUR_ARCS];
    put_arc(&mut arcs, 0, a);
    put_arc(&mut arcs, ARC_SIZE, b);
    put_arc(&mut arcs, THIRD_ARC, c);
    put_arc(&mut arcs, FOURTH_ARC, d);
    let counts = Counts {
        tapes: size[0],
        states: size[1],
        arcs: size[2],
    };
    let pair = Pair {
        first: tapes[0],
        second: tapes[1],
        limit: 0,
    };
    let pairs = PairList {
        pairs: [pair; 4],
        used: 1,
    };
    let mut work = [0u8; FOUR_DELAYS];
    let table = Table {
        counts,
        states: &states,
        arcs: &arcs,
    };
    closing_tables(&table, pairs, &mut work, 0);
    io::write_all(1, name);
    print_states(&work, counts.states);
}

// The tables P and Q of document 01.
fn tables_p_q() {
    // P: from 2 nothing is left to spell. From 1 the loop adds 1 - 1 and the last arc 0 - 1, so -1 on every path. From
    // 0 the first arc adds 1.
    show(
        b"P\n",
        [3, 3, 3],
        [0, 0, 1, 0],
        [0, 1, b'A', b'X', 0],
        [1, 1, b'B', b'Y', b'A'],
        [1, 2, 0, b'Z', b'B'],
        [0; 5],
        [1, 3],
    );
    // Q: from 0 the last arc gives 0 - 1 and the loop adds 1 each time, so the least is -1 and there is no greatest.
    show(
        b"Q\n",
        [2, 2, 2],
        [0, 1, 0, 0],
        [0, 0, b'A', 0, 0],
        [0, 1, 0, b'A', 0],
        [0; 5],
        [0; 5],
        [1, 2],
    );
}

// The tables R and S of document 01.
fn tables_r_s() {
    // R: from 1 the loop takes 1 off each time: no least, and 0 is the greatest. From 0 its own loop adds 1 each time:
    // neither.
    show(
        b"R\n",
        [2, 2, 3],
        [0, 1, 0, 0],
        [0, 0, b'A', 0, 0],
        [0, 1, b'A', b'A', 0],
        [1, 1, 0, b'A', 0],
        [0; 5],
        [1, 2],
    );
    // S: both arcs spell one symbol on either tape.
    show(
        b"S\n",
        [2, 2, 2],
        [0, 1, 0, 0],
        [0, 1, b'A', b'B', 0],
        [0, 1, b'B', b'A', 0],
        [0; 5],
        [0; 5],
        [1, 2],
    );
}

// A loop that makes the least or the greatest endless.
fn one_endless() {
    // From 0 the loop takes 1 off each time: no least. Without it the other arc gives 1, the greatest: -1 turned round.
    show(
        b"endless least\n",
        [2, 2, 2],
        [0, 1, 0, 0],
        [0, 0, 0, b'A', 0],
        [0, 1, b'A', 0, 0],
        [0; 5],
        [0; 5],
        [1, 2],
    );
    // From 0 the loop adds 1 each time: no greatest. Without it the other arc gives 0, the least.
    show(
        b"endless greatest\n",
        [2, 2, 2],
        [0, 1, 0, 0],
        [0, 0, b'A', 0, 0],
        [0, 1, b'A', b'A', 0],
        [0; 5],
        [0; 5],
        [1, 2],
    );
}

// Loops that make both endless, and one that makes neither so.
fn both_or_none() {
    // From 0 one loop adds 1 and the other takes 1 off.
    show(
        b"both endless\n",
        [2, 2, 3],
        [0, 1, 0, 0],
        [0, 0, b'A', 0, 0],
        [0, 0, 0, b'A', 0],
        [0, 1, b'A', b'A', 0],
        [0; 5],
        [1, 2],
    );
    // From 0 the arcs to the final state give 1 and -1; the loop changes nothing.
    show(
        b"none endless\n",
        [2, 2, 3],
        [0, 1, 0, 0],
        [0, 1, b'A', 0, 0],
        [0, 1, 0, b'A', 0],
        [0, 0, b'A', b'B', 0],
        [0; 5],
        [1, 2],
    );
}

// States from which no final state, or nothing else, is reached.
fn dead_ends() {
    // 0 and 1 lead to each other only; 2 is final, and nothing leads there.
    show(
        b"unreachable final state\n",
        [2, 3, 2],
        [0, 0, 1, 0],
        [0, 1, b'A', b'A', 0],
        [1, 0, 0, b'A', 0],
        [0; 5],
        [0; 5],
        [1, 2],
    );
    // From 0 the arc to 1 gives 0. The loop at 2 is on no path to a final state, and so makes nothing endless.
    show(
        b"dead end\n",
        [2, 3, 3],
        [0, 1, 0, 0],
        [0, 1, b'A', b'A', 0],
        [0, 2, 0, b'A', 0],
        [2, 2, 0, b'A', 0],
        [0; 5],
        [1, 2],
    );
    // The empty path gives 0 and the loop adds 1 each time: 0 is the least, and there is no greatest.
    show(
        b"one state\n",
        [2, 1, 1],
        [1, 0, 0, 0],
        [0, 0, b'A', 0, 0],
        [0; 5],
        [0; 5],
        [0; 5],
        [1, 2],
    );
}

fn main() {
    tables_p_q();
    tables_r_s();
    one_endless();
    both_or_none();
    dead_ends();
}
