// The closing delays of two large tables, 1,024 states and some 8,190 arcs each, on four pairs in both directions: a
// program to time. It prints the delays of state 0 on the first pair, and on it turned round.
#![tactic(auto)]

ghost use Rattle.std.specs.Prelude.{◌≡◌, true, false, ◌+◌, ◌*◌, ◌≤◌, length};
ghost use Rattle.delays_relaxation.specs.Edges.{edges, Joined, Readable};
ghost use Rattle.automata.specs.Layout.{arc_size, state_size};

use delays_relaxation::listing::list_arcs;
use delays_relaxation::{edge_at, least_delays};
use table::arc::{label_place, store_ends};
use table::bytes::get16;
use table::layout::{ARC_SIZE, FINAL_PLACE, PRESENT, STATE_SIZE};
use table::record::ResultState;

// Room for the states and for the arcs of a table of the largest size.
const STATE_SPACE: usize = 1024 * STATE_SIZE;

const ARC_SPACE: usize = 8192 * ARC_SIZE;

// The final weight of the last state, and the two arcs behind a chain of 8,184.
const LAST_FINAL: usize = 1023 * STATE_SIZE + FINAL_PLACE;

const NEXT_ARC: usize = 8184 * ARC_SIZE;

const LAST_ARC: usize = 8185 * ARC_SIZE;

// The arcs, all zero.
fn arc_space() -> [u8; ARC_SPACE]
    ensures { 8192 * arc_size ≡ length result }
{
    [0; ARC_SPACE]
}

// The states, without a weight.
fn state_space() -> [u8; STATE_SPACE]
    ensures { 1024 * state_size ≡ length result }
{
    [0; STATE_SPACE]
}

// An arc whose labels on two tapes have these lengths. Relaxation reads no symbols.
fn put_arc(arcs: &mut [u8], at: usize, source: u16, target: u16, up: u8, down: u8)
    requires { at + arc_size ≤ length arcs.old }
{
    store_ends(arcs, at, ResultState(source), ResultState(target));
    arcs[label_place(at, 0)] = up;
    arcs[label_place(at, 1)] = down;
}

// Arcs from each state to the next, eight each, in turn one symbol more on the first and on the second tape.
fn put_chain(arcs: &mut [u8], count: u16)
    requires { arc_size * count ≤ length arcs.old }
{
    for k in 0..count {
        let odd = (k % 2) as u8;
        put_arc(
            arcs,
            ARC_SIZE * usize::from(k),
            k / 8,
            k / 8 + 1,
            odd,
            1 - odd,
        );
    }
}

// Whether every arc joins states.
fn joined(arcs: &[u8], count: usize, states: u16) -> bool
    requires { arc_size * count ≤ length arcs.now }
    ensures { result ≡ true → Joined states (edges false 0 0 0 count arcs.now) }
{
    for k in 0..count {
        let e = edge_at(arcs, ARC_SIZE * k, false, 0, 0);
        if states <= e.source || states <= e.target {
            return false;
        }
    }
    true
}

// The closing delays of one pair.
fn both_ways(states: &[u8], arcs: &[u8], count: usize, order: &[u16], work: &mut [u8], at: usize)
    requires { Readable states.now 1024 arcs.now count × (at + 65480 ≤ length work.old) }
{
    least_delays(states, 1024, arcs, count, false, 0, 1, order, work, at);
    least_delays(states, 1024, arcs, count, false, 1, 0, order, work, at + 4);
}

// The delays of state 0 on the first pair, as they are held.
fn print_first(work: &[u8])
    requires { 6 ≤ length work.now }
{
    io::print_decimal(1, get16(work, 0) as u64);
    io::write_all(1, b" ");
    io::print_decimal(1, get16(work, 4) as u64);
    io::write_all(1, b"\n");
}

// Four pairs, with the arcs listed.
fn four_pairs(states: &[u8], arcs: &[u8], count: usize, order: &[u16])
    requires { Readable states.now 1024 arcs.now count }
{
    let mut work = io::large_buffer();
    both_ways(states, arcs, count, order, &mut work, 0);
    both_ways(states, arcs, count, order, &mut work, 8);
    both_ways(states, arcs, count, order, &mut work, 16);
    both_ways(states, arcs, count, order, &mut work, 24);
    print_first(&work);
}

// The same, where the arcs join states.
fn run(states: &[u8], arcs: &[u8], count: usize)
    requires { (1024 * state_size ≤ length states.now) × (arc_size * count ≤ length arcs.now) × (count ≤ 8192) }
{
    if joined(arcs, count, 1024) {
        let mut order = [65535u16; 8192];
        list_arcs(states, 1024, arcs, count, false, &mut order);
        four_pairs(states, arcs, count, &order);
    }
}

// A chain, and then the same chain closed to a loop that adds and takes off: every delay becomes endless.
fn main() {
    let mut states = state_space();
    states[LAST_FINAL] = PRESENT;
    let mut arcs = arc_space();
    put_chain(&mut arcs, 8184);
    run(&states, &arcs, 8184);
    put_arc(&mut arcs, NEXT_ARC, 1023, 0, 0, 1);
    put_arc(&mut arcs, LAST_ARC, 1023, 0, 1, 0);
    run(&states, &arcs, 8186);
}
