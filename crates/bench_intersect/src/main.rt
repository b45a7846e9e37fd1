// A build of 1,000 configurations and 7,992 arcs, or, where standard input begins with h, of half the size: a program
// to time. It prints the counts of the table that was built.
#![tactic(auto)]

ghost use Rattle.std.specs.Prelude.{◌≡◌, ◌+◌, ◌*◌, ◌≤◌, length};
ghost use Rattle.automata.specs.Layout.{arc_size, config_size, delays_size, state_size, step_size};

use intersect::call::intersect;
use table::answer::{Counts, Refusal};
use table::arc::{label_place, store_ends};
use table::bytes::copy_into;
use table::layout::{
    ARC_SIZE, CONFIG_SIZE, DELAYS_SIZE, FINAL_PLACE, PRESENT, STATE_SIZE, STEP_SIZE,
};
use table::lent::Table;
use table::record::ResultState;

// Room for the states and for the arcs of a table of the largest size, and for the work of a build into such space.
const STATE_SPACE: usize = 1024 * STATE_SIZE;

const ARC_SPACE: usize = 8192 * ARC_SIZE;

const WORK_SPACE: usize = 1024 * CONFIG_SIZE + 8192 * STEP_SIZE + 1024 * DELAYS_SIZE;

// The final weight of the last state of 1,000, and of 500.
const LAST_FINAL: usize = 999 * STATE_SIZE + FINAL_PLACE;

const HALF_FINAL: usize = 499 * STATE_SIZE + FINAL_PLACE;

// The arcs, all zero.
fn arc_space() -> [u8; ARC_SPACE]
    ensures { 8192 * arc_size ≡ length result }
{
    [0; ARC_SPACE]
}

// The states, without a weight.
fn state_space() -> [u8; STATE_SPACE]
    ensures { 1024 * state_size ≡ length result }
{
    [0; STATE_SPACE]
}

// The work space.
fn work_space() -> [u8; WORK_SPACE]
    ensures { 1024 * config_size + 8192 * step_size + 1024 * delays_size ≡ length result }
{
    [0; WORK_SPACE]
}

// An arc with the label A on both of two tapes.
fn put_arc(arcs: &mut [u8], at: usize, source: u16, target: u16)
    requires { at + arc_size ≤ length arcs.old }
{
    store_ends(arcs, at, ResultState(source), ResultState(target));
    let label = [1u8, 65];
    copy_into(arcs, label_place(at, 0), &label);
    copy_into(arcs, label_place(at, 1), &label);
}

// Arcs from each state to the next, eight each.
fn put_chain(arcs: &mut [u8], count: u16)
    requires { arc_size * count ≤ length arcs.old }
{
    for k in 0..count {
        put_arc(arcs, ARC_SIZE * usize::from(k), k / 8, k / 8 + 1);
    }
}

// What a build came to: its counts, or the number of a refusal.
fn print_answer(answer: Result<Counts, Refusal>) {
    match answer {
        Ok(c) => {
            io::print_decimal(1, c.states as u64);
            io::write_all(1, b" ");
            io::print_decimal(1, c.arcs as u64);
        }
        Err(r) => {
            io::print_decimal(1, u64::from(u8::from(r)));
        }
    }
    io::write_all(1, b"\n");
}

// Builds the table on tapes 1 = 2 with the limit 0.
fn run(table: &Table) {
    let mut out_states = state_space();
    let mut out_arcs = arc_space();
    let mut work = work_space();
    let pairs = [1u8, 2, 0];
    let answer = intersect(table, &pairs, &mut out_states, &mut out_arcs, &mut work);
    print_answer(answer);
}

// A chain of 1,000 states.
fn run_whole(arcs: &[u8]) {
    let mut states = state_space();
    states[0] = PRESENT;
    states[LAST_FINAL] = PRESENT;
    run(&Table {
        counts: Counts {
            tapes: 2,
            states: 1000,
            arcs: 7992,
        },
        states: &states,
        arcs,
    });
}

// The first 500 of its states.
fn run_half(arcs: &[u8]) {
    let mut states = state_space();
    states[0] = PRESENT;
    states[HALF_FINAL] = PRESENT;
    run(&Table {
        counts: Counts {
            tapes: 2,
            states: 500,
            arcs: 3992,
        },
        states: &states,
        arcs,
    });
}

fn main() {
    let mut arcs = arc_space();
    put_chain(&mut arcs, 7992);
    let mut word = [0u8; 1];
    io::read_full(0, &mut word);
    if word[0] == b'h' {
        run_half(&arcs);
    } else {
        run_whole(&arcs);
    }
}
