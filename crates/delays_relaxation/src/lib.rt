// Closing delays by relaxation over a table in memory. One vector of the work space holds the delays; rounds read and
// write it in place, from the last arc to the first.
#![tactic(auto)]

pub mod cycles;
pub mod listing;
pub mod places;
pub mod settle;

ghost use Rattle.std.specs.Prelude.{◌≡◌, ◌+◌, ◌*◌, ◌≤◌, ◌<◌, length};
ghost use Rattle.automata.specs.InPlace.{Becomes};
ghost use Rattle.automata.specs.Layout.{arc_size, delays_size, state_size, final_place};
ghost use Rattle.delays_relaxation.specs.Vector.{vector, Room};
ghost use Rattle.delays_relaxation.specs.Edges.{edge_at, edges, Readable, ReadableArcs, through_edge, improve, visited, swept, start_of, flag_place, started, Filled, rounds_of, both_rounds};
ghost use Rattle.delays_relaxation.specs.Lowered.{FillsLeast};

use crate::places::note_arc;
use crate::settle::settle;
use table::arc::{label_length_at, source_at, target_at};
use table::bytes::{get16, put16};
use table::layout::{ARC_SIZE, DELAYS_SIZE, FINAL_PLACE, STATE_SIZE};

// An arc as relaxation reads it: its states, and the lengths of its labels on two tapes.
#[derive(Clone, Copy)]
pub struct Edge {
    pub source: u16,
    pub target: u16,
    pub up: u8,
    pub down: u8,
}

// The arc record at `at`, read on two tapes counted from 0, and backwards where `reversed`.
pub fn edge_at(arcs: &[u8], at: usize, reversed: bool, first: usize, second: usize) -> Edge
    requires { (at + arc_size ≤ length arcs.now) × (first < 8) × (second < 8) }
    ensures { result ≡ edge_at reversed first second at arcs.now }
{
    let source = source_at(arcs, at).0;
    let target = target_at(arcs, at).0;
    Edge {
        source: if reversed { target } else { source },
        target: if reversed { source } else { target },
        up: label_length_at(arcs, at, first),
        down: label_length_at(arcs, at, second),
    }
}

// The least delay through an arc, `v` being the one from its target on. In the two bytes that the lent work space has
// for it (fixed memory), a delay is held as 16,384 more than it is, a missing one as 65,535, an endless one as 0.
fn through_edge(up: u8, down: u8, v: u16) -> u32
    ensures { result ≡ through_edge up down v }
{
    match v {
        65535 => 65535,
        0 => 0,
        _ => (v as u32 + up as u32).saturating_sub(down as u32),
    }
}

// What a round makes of the delay `x` where `t` is the one through an arc: the lesser, or endless if it can be
// improved.
fn improved(diverging: bool, x: u16, t: u32) -> u16
    ensures { result ≡ improve diverging x t }
{
    if x as u32 <= t {
        x
    } else if diverging {
        0
    } else {
        t as u16
    }
}

// One arc of a round: the delay of its source is improved by that of its target. Tells whether it stayed as it was.
fn visit_edge(work: &mut [u8], at: usize, e: Edge, diverging: bool) -> bool
    requires { (at + delays_size * e.source + 2 ≤ length work.old)
        × (at + delays_size * e.target + 2 ≤ length work.old) }
    ensures { Becomes (visited diverging at e work.old) result work.new work.old }
{
    let v = get16(work, at + DELAYS_SIZE * e.target as usize);
    let t = through_edge(e.up, e.down, v);
    let place = at + DELAYS_SIZE * e.source as usize;
    let x = get16(work, place);
    let new = improved(diverging, x, t);
    if new == x {
        return true;
    }
    put16(work, place, new);
    false
}

// A round over all arcs, the last one first; the arcs that change a delay are noted. Tells whether it left every delay
// as it was.
fn round_arcs(
    arcs: &[u8],
    count: usize,
    reversed: bool,
    first: usize,
    second: usize,
    work: &mut [u8],
    at: usize,
    states: usize,
    diverging: bool,
    through: &mut [u16],
) -> bool
    requires { ReadableArcs states arcs.now count reversed first second × Room at 2 states work.old }
    ensures { Becomes (swept diverging at (edges reversed first second 0 count arcs.now)
        work.old) result work.new work.old }
{
    let mut same = true;
    for k in (0..count).rev() {
        let e = edge_at(arcs, ARC_SIZE * k, reversed, first, second);
        let source = e.source as usize;
        let kept = visit_edge(work, at, e, diverging);
        note_arc(kept, through, source, k);
        same = same && kept;
    }
    same
}

// The delay that a state starts with, by its flag for a weight.
fn start_delay(flag: u8) -> u16
    ensures { result ≡ start_of flag }
{
    if flag == 0 { 65535 } else { 16384 }
}

// The place of this flag in a state record: that for a final weight, and that for an initial weight where `reversed`.
fn flag_place(reversed: bool) -> usize
    ensures { (result ≡ flag_place reversed) × (result ≤ final_place) }
{
    if reversed { 0 } else { FINAL_PLACE }
}

// The delays of the empty run.
fn start_delays(bytes: &[u8], states: usize, reversed: bool, work: &mut [u8], at: usize)
    requires { (state_size * states ≤ length bytes.now) × Room at 2 states work.old }
    ensures { work.new ≡ started reversed at 0 states bytes.now work.old }
{
    let flag = flag_place(reversed);
    for q in 0..states {
        put16(
            work,
            at + DELAYS_SIZE * q,
            start_delay(bytes[STATE_SIZE * q + flag]),
        );
    }
}

// As many rounds as there are states, or until one changes nothing.
fn run_rounds(
    arcs: &[u8],
    count: usize,
    reversed: bool,
    first: usize,
    second: usize,
    work: &mut [u8],
    at: usize,
    states: usize,
    diverging: bool,
    through: &mut [u16],
)
    requires { ReadableArcs states arcs.now count reversed first second × Room at 2 states work.old }
    ensures { Filled at states (rounds_of diverging
        (edges reversed first second 0 count arcs.now) states (vector at states work.old))
        work.new work.old }
{
    for _round in 0..states {
        if round_arcs(
            arcs, count, reversed, first, second, work, at, states, diverging, through,
        ) {
            return;
        }
    }
}

// Rounds of both kinds: relaxation, and then what can still be improved becomes endless.
fn run_both(
    arcs: &[u8],
    count: usize,
    reversed: bool,
    first: usize,
    second: usize,
    work: &mut [u8],
    at: usize,
    states: usize,
    through: &mut [u16],
)
    requires { ReadableArcs states arcs.now count reversed first second × Room at 2 states work.old }
    ensures { Filled at states (both_rounds (edges reversed first second 0 count arcs.now) states
        (vector at states work.old)) work.new work.old }
{
    run_rounds(
        arcs, count, reversed, first, second, work, at, states, false, through,
    );
    run_rounds(
        arcs, count, reversed, first, second, work, at, states, true, through,
    );
}

// The least closing delays of all states on two tapes, of the table or, where `reversed`, of its reversal: rounds in
// the order of the listed arcs until the delays stay. Where as many rounds as there are states do not bring that about,
// relaxation in place does, and then what can still be improved becomes endless.
pub fn least_delays(
    bytes: &[u8],
    states: usize,
    arcs: &[u8],
    count: usize,
    reversed: bool,
    first: usize,
    second: usize,
    order: &[u16],
    work: &mut [u8],
    at: usize,
)
    requires { Readable bytes.now states arcs.now count × (first < 8) × (second < 8)
        × Room at 2 states work.old }
    ensures { FillsLeast reversed (edges reversed first second 0 count arcs.now) at states
        bytes.now work.new work.old }
{
    start_delays(bytes, states, reversed, work, at);
    let mut through = [65535u16; 1024];
    if settle(
        arcs,
        count,
        reversed,
        first,
        second,
        order,
        work,
        at,
        states,
        &mut through,
    ) {
        return;
    }
    run_both(
        arcs,
        count,
        reversed,
        first,
        second,
        work,
        at,
        states,
        &mut through,
    );
}
