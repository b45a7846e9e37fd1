// States on a cycle that lessens the delay, found along the arcs that last made delays less.
ghost use Rattle.std.specs.Prelude.{◌≡◌, true, ◌+◌, ◌*◌, ◌≤◌, ◌<◌, length};
ghost use Rattle.delays_relaxation.specs.Vector.{Room};
ghost use Rattle.delays_relaxation.specs.Edges.{edges, ReadableArcs};
ghost use Rattle.delays_relaxation.specs.Lowered.{Lessens, Lowers};
ghost use Rattle.automata.specs.Layout.{arc_size};

use crate::edge_at;
use crate::places::{note, number_at};
use table::arc::{source_at, target_at};
use table::bytes::{get16, put16};
use table::layout::{ARC_SIZE, DELAYS_SIZE};

// The target of the arc with number `k`, and its source where `reversed`.
fn end_of(arcs: &[u8], k: usize, reversed: bool) -> u16
    requires { arc_size * k + arc_size ≤ length arcs.now }
{
    if reversed {
        source_at(arcs, ARC_SIZE * k).0
    } else {
        target_at(arcs, ARC_SIZE * k).0
    }
}

// The state where the way from `q` along the noted arcs closes, if it does not end or come to a state seen from
// another.
fn closes_at(
    arcs: &[u8],
    count: usize,
    reversed: bool,
    through: &[u16],
    seen: &mut [u16],
    q: u16,
) -> Option<u16>
    requires { arc_size * count ≤ length arcs.now }
{
    let mut p = q;
    let mut left: usize = 1024;
    while number_at(seen, p as usize) == 65535 {
        if left < 1 {
            return None;
        }
        left -= 1;
        note(seen, p as usize, q);
        let k = number_at(through, p as usize) as usize;
        if count <= k {
            return None;
        }
        p = end_of(arcs, k, reversed);
    }
    if number_at(seen, p as usize) == q {
        Some(p)
    } else {
        None
    }
}

// Whether the noted arcs lead from `q` back to it, and their delays add up to less than none.
fn lessens(
    arcs: &[u8],
    count: usize,
    reversed: bool,
    first: usize,
    second: usize,
    through: &[u16],
    states: usize,
    q: u16,
) -> bool
    requires { ReadableArcs states arcs.now count reversed first second }
    ensures { result ≡ true → Lessens (edges reversed first second 0 count arcs.now) q }
{
    let mut p = q;
    let mut up: u32 = 0;
    let mut down: u32 = 0;
    for _step in 0..1024usize {
        let k = number_at(through, p as usize) as usize;
        if count <= k {
            return false;
        }
        let e = edge_at(arcs, ARC_SIZE * k, reversed, first, second);
        if e.source != p {
            return false;
        }
        up += e.up as u32;
        down += e.down as u32;
        p = e.target;
        if p == q {
            return up < down;
        }
    }
    false
}

// The delay of the state where the way from `q` closes becomes endless, if it has one and the cycle lessens it.
fn mark_from(
    arcs: &[u8],
    count: usize,
    reversed: bool,
    first: usize,
    second: usize,
    through: &[u16],
    seen: &mut [u16],
    work: &mut [u8],
    at: usize,
    states: usize,
    q: u16,
)
    requires { ReadableArcs states arcs.now count reversed first second × Room at 2 states work.old }
    ensures { Lowers (edges reversed first second 0 count arcs.now) at states work.new
        work.old }
{
    let Some(c) = closes_at(arcs, count, reversed, through, seen, q) else {
        return;
    };
    if states <= c as usize {
        return;
    }
    let place = at + DELAYS_SIZE * c as usize;
    if get16(work, place) != 65535
        && lessens(arcs, count, reversed, first, second, through, states, c)
    {
        put16(work, place, 0);
    }
}

// The same from every state.
fn mark_ways(
    arcs: &[u8],
    count: usize,
    reversed: bool,
    first: usize,
    second: usize,
    through: &[u16],
    seen: &mut [u16],
    work: &mut [u8],
    at: usize,
    states: usize,
)
    requires { ReadableArcs states arcs.now count reversed first second × Room at 2 states work.old }
    ensures { Lowers (edges reversed first second 0 count arcs.now) at states work.new
        work.old }
{
    for q in (0..1024).rev() {
        mark_from(
            arcs, count, reversed, first, second, through, seen, work, at, states, q,
        );
    }
}

// Of each cycle of noted arcs that lessens the delay one state becomes endless.
pub fn mark_endless(
    arcs: &[u8],
    count: usize,
    reversed: bool,
    first: usize,
    second: usize,
    through: &[u16],
    work: &mut [u8],
    at: usize,
    states: usize,
)
    requires { ReadableArcs states arcs.now count reversed first second × Room at 2 states work.old }
    ensures { Lowers (edges reversed first second 0 count arcs.now) at states work.new
        work.old }
{
    let mut seen = [65535u16; 1024];
    mark_ways(
        arcs, count, reversed, first, second, through, &mut seen, work, at, states,
    );
}
