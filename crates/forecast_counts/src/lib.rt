// What a forecast of space counts: in the work space, where each state has 64 bytes, and in the arc records.
#![tactic(auto)]

ghost use Rattle.std.specs.Prelude.{◌≡◌, false, ◌+◌, ◌*◌, ◌≤◌, ◌<◌, [], map, eqb, length, get_or};
ghost use Rattle.automata.specs.Lists.{if};
ghost use Rattle.automata.specs.TapePair.{reading};
ghost use Rattle.automata.specs.Explore.{insert_all};
ghost use Rattle.automata.specs.Trim.{rank};
ghost use Rattle.automata.specs.Forecast.{capped_sum};
ghost use Rattle.automata.specs.Layout.{arc_size, delays_size};
ghost use Rattle.delays_relaxation.specs.Edges.{edges, ReadableArcs};
ghost use Rattle.table.specs.Region.{part};
ghost use Rattle.table.specs.Arcs.{label_place};
ghost use Rattle.forecast_counts.specs.Symbols.{label_at, symbols_from, ShortLabels, noted, marked};
ghost use Rattle.forecast_counts.specs.Counts.{on_path_at, marks_from, endless_at, both_at, both_from, delay_size, arc_on_path, raised, greatest_of, cut};

use delays_relaxation::{Edge, edge_at};
use table::arc::{label_length_at, label_place};
use table::bytes::get16;
use table::layout::{ARC_SIZE, DELAYS_SIZE, SYMBOLS_PLACE};
use table::symbol::read_symbol;

// Places in a state's 64 bytes: closing delays of the automaton (after) and of its reversal (before), whether a final
// state can be reached, and whether an initial state leads here. The least closing delay of the automaton is first.
const OPPOSITE_AFTER: usize = 4;

pub const LEAST_BEFORE: usize = 8;

const OPPOSITE_BEFORE: usize = 12;

pub const TO_FINAL: usize = 32;

pub const FROM_INITIAL: usize = 36;

// What stands there for a delay that is endless, and for one that is missing.
const ENDLESS: u16 = 0;

const MISSING: u16 = 65535;

// Where the sum of powers is cut: one above the greatest number that is told.
const CAP: usize = 65536;

// Whether the state whose 64 bytes start at `at` lies on a successful path.
fn on_path(work: &[u8], at: usize) -> bool
    requires { at + 38 ≤ length work.now }
    ensures { result ≡ on_path_at at work.now }
{
    get16(work, at + FROM_INITIAL) != MISSING && get16(work, at + TO_FINAL) != MISSING
}

// How many of the first states lie on successful paths.
pub fn path_states(work: &[u8], states: usize) -> usize
    requires { delays_size * states ≤ length work.now }
    ensures { result ≡ rank (marks_from 0 states work.now) states }
{
    let mut found: usize = 0;
    for q in 0..states {
        found += usize::from(on_path(work, DELAYS_SIZE * q));
    }
    found
}

// Whether the closing delays at the places `a` and `b` are both endless.
fn endless_at(work: &[u8], a: usize, b: usize) -> bool
    requires { (a + 2 ≤ length work.now) × (b + 2 ≤ length work.now) }
    ensures { result ≡ endless_at a b work.now }
{
    get16(work, a) == ENDLESS && get16(work, b) == ENDLESS
}

// Whether cycles of both signs meet at the state whose 64 bytes start at `at`.
fn both_at(work: &[u8], at: usize) -> bool
    requires { at + 14 ≤ length work.now }
    ensures { result ≡ both_at at work.now }
{
    endless_at(work, at + OPPOSITE_BEFORE, at)
        || endless_at(work, at + LEAST_BEFORE, at + OPPOSITE_AFTER)
}

// Whether cycles of both signs meet at one of the first states.
pub fn meets_both(work: &[u8], states: usize) -> bool
    requires { delays_size * states ≤ length work.now }
    ensures { result ≡ both_from 0 states work.now }
{
    for q in 0..states {
        if both_at(work, DELAYS_SIZE * q) {
            return true;
        }
    }
    false
}

// The size of an arc's delay, by the lengths of its labels on two tapes.
fn delay_size(up: u8, down: u8) -> u8
    ensures { result ≡ delay_size up down }
{
    up.abs_diff(down)
}

// Whether both states of an arc lie on successful paths.
fn arc_on_path(work: &[u8], e: Edge) -> bool
    requires { (delays_size * e.source + delays_size ≤ length work.now)
        × (delays_size * e.target + delays_size ≤ length work.now) }
    ensures { result ≡ arc_on_path e.source e.target work.now }
{
    on_path(work, DELAYS_SIZE * e.source as usize) && on_path(work, DELAYS_SIZE * e.target as usize)
}

// The greater of a number and the size of an arc's delay, where the arc lies on a successful path; else the number.
fn raise(work: &[u8], e: Edge, best: u8) -> u8
    requires { (delays_size * e.source + delays_size ≤ length work.now)
        × (delays_size * e.target + delays_size ≤ length work.now) }
    ensures { result ≡ raised (arc_on_path e.source e.target work.now)
        (delay_size e.up e.down) best }
{
    let size = delay_size(e.up, e.down);
    if best < size && arc_on_path(work, e) {
        size
    } else {
        best
    }
}

// The greatest size of an arc's delay on two tapes, among the arcs on successful paths.
pub fn greatest_delay(
    arcs: &[u8],
    count: usize,
    first: usize,
    second: usize,
    work: &[u8],
    states: usize,
) -> u8
    requires { ReadableArcs states arcs.now count false first second × (delays_size * states ≤ length work.now) }
    ensures { result ≡ greatest_of (marks_from 0 states work.now)
        (edges false first second 0 count arcs.now) }
{
    let mut best: u8 = 0;
    for k in 0..count {
        let e = edge_at(arcs, ARC_SIZE * k, false, first, second);
        best = raise(work, e, best);
    }
    best
}

// Each symbol of a label, as it is compared, marks its place in the table of symbols.
fn note_bytes(seen: &mut [u8], label: &[u8])
    requires { length seen.old ≡ 256 }
    ensures { seen.new ≡ noted seen.old (map reading label.now) }
{
    for b in label {
        seen[usize::from(read_symbol(*b))] = 1;
    }
}

// The symbols of an arc's label on one tape are noted.
fn note_label(seen: &mut [u8], arcs: &[u8], at: usize, tape: usize)
    requires { (length seen.old ≡ 256) × (at + arc_size ≤ length arcs.now) × (tape < 8)
        × (get_or arcs.now (label_place at tape) 0 ≤ 8) }
    ensures { seen.new ≡ noted seen.old (label_at tape at arcs.now) }
{
    let from = label_place(at, tape) + SYMBOLS_PLACE;
    let count = usize::from(label_length_at(arcs, at, tape));
    note_bytes(seen, &arcs[from..from + count]);
}

// Those of all labels on two tapes.
fn note_arcs(seen: &mut [u8], arcs: &[u8], count: usize, first: usize, second: usize)
    requires { (length seen.old ≡ 256) × ShortLabels arcs.now count first second }
    ensures { seen.new ≡ noted seen.old
        (symbols_from first second 0 count arcs.now) }
{
    for k in 0..count {
        note_label(seen, arcs, ARC_SIZE * k, first);
        note_label(seen, arcs, ARC_SIZE * k, second);
    }
}

// How many places are marked.
fn count_marks(seen: &[u8]) -> usize
    ensures { result ≡ marked seen.now }
{
    let mut found: usize = 0;
    for mark in seen {
        found += usize::from(*mark == 1);
    }
    found
}

// How many different symbols stand on two tapes of the arcs, as they are compared.
pub fn symbols_used(arcs: &[u8], count: usize, first: usize, second: usize) -> usize
    requires { ShortLabels arcs.now count first second }
    ensures { (result ≡ length (insert_all eqb [] (symbols_from first second 0 count arcs.now)))
        × (result ≤ 256) }
{
    let mut seen = [0u8; 256];
    note_arcs(&mut seen, arcs, count, first, second);
    count_marks(&seen)
}

// One term more in the sum of powers, by one multiplication and one addition, or 65,536 where it is more.
fn next_sum(symbols: usize, sum: usize) -> usize
    requires { (symbols ≤ 256) × (sum ≤ 65536) }
    ensures { (result ≡ cut 65536 (symbols * (1 + sum))) × (result ≤ 65536) }
{
    CAP.min(symbols * (1 + sum))
}

// The sum s + s² + .. + s^D of the symbols s and the delay D, or 65,536 where it is more.
pub fn capped_sum(symbols: usize, delay: usize) -> usize
    requires { symbols ≤ 256 }
    ensures { result ≡ capped_sum 65536 symbols delay }
{
    let mut sum: usize = 0;
    for _term in 0..delay {
        sum = next_sum(symbols, sum);
    }
    sum
}
