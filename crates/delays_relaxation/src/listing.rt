// An order of the arcs in which delays advance: a search from the final states backwards lists the arcs into a state
// together, before those into their sources, but for arcs that close a cycle. Nothing depends on it but how many rounds
// it takes until the delays stay.
ghost use Rattle.std.specs.Prelude.{◌+◌, ◌*◌, ◌≤◌, ◌<◌, length};
ghost use Rattle.automata.specs.Layout.{arc_size, state_size};

use crate::places::{note, number_at};
use table::arc::{source_at, target_at};
use table::layout::{ABSENT, ARC_SIZE, FINAL_PLACE, STATE_SIZE};

// How far the search is: the states on its stack, and the places of the list that are free, which are the first.
#[derive(Clone, Copy)]
pub struct Search {
    pub depth: usize,
    pub free: usize,
}

// An arc at the front of the chain of its target.
fn chain_target(arcs: &[u8], k: usize, heads: &mut [u16], next: &mut [u16])
    requires { (arc_size * k + arc_size ≤ length arcs.now) × (k < 8192) }
{
    let target = target_at(arcs, ARC_SIZE * k).0 as usize;
    let front = number_at(heads, target);
    note(next, k, front);
    note(heads, target, k as u16);
}

// The arcs in chains by their targets: the first arc into each state, and for each arc the next into the same state.
fn chain_targets(arcs: &[u8], count: usize, heads: &mut [u16], next: &mut [u16])
    requires { (arc_size * count ≤ length arcs.now) × (count ≤ 8192) }
{
    for k in (0..count).rev() {
        chain_target(arcs, k, heads, next);
    }
}

// A state is seen, and goes on the stack.
fn put_on(seen: &mut [u16], stack: &mut [u16], depth: usize, q: u16) {
    note(seen, q as usize, 1);
    note(stack, depth, q);
}

// The arcs into state `t`, in the last free places. Gives how many places are free then.
fn list_group(
    count: usize,
    heads: &[u16],
    next: &[u16],
    t: usize,
    order: &mut [u16],
    free: usize,
) -> usize {
    let mut k = number_at(heads, t);
    let mut left = free;
    while (k as usize) < count {
        if left < 1 {
            return left;
        }
        left -= 1;
        note(order, left, k);
        k = number_at(next, k as usize);
    }
    left
}

// One step of the search, at the next arc into the state on top of the stack: its source, where it was not seen, goes
// on top. A state without another arc is taken off, and the arcs into it are listed.
fn search_step(
    arcs: &[u8],
    count: usize,
    heads: &[u16],
    next: &[u16],
    cursors: &mut [u16],
    seen: &mut [u16],
    stack: &mut [u16],
    order: &mut [u16],
    s: Search,
) -> Search
    requires { (arc_size * count ≤ length arcs.now) × (0 < s.depth) × (s.depth ≤ 65535) }
    ensures { result.depth ≤ s.depth + 1 }
{
    let depth = s.depth;
    let free = s.free;
    let top = number_at(stack, depth - 1) as usize;
    let k = number_at(cursors, top);
    if count <= k as usize {
        let rest = list_group(count, heads, next, top, order, free);
        return Search {
            depth: depth - 1,
            free: rest,
        };
    }
    let later = number_at(next, k as usize);
    note(cursors, top, later);
    let source = source_at(arcs, ARC_SIZE * k as usize).0;
    if number_at(seen, source as usize) == 0 {
        put_on(seen, stack, depth, source);
        return Search {
            depth: depth + 1,
            free,
        };
    }
    s
}

// Whether the search begins at a state: at any, or at a final one.
fn begins_at(bytes: &[u8], root: usize, any: bool) -> bool
    requires { (state_size * root + state_size ≤ length bytes.now) × (root < 1024) }
{
    any || bytes[STATE_SIZE * root + FINAL_PLACE] != ABSENT
}

// The arcs on ways to the state `root`, if the search begins there and it was not seen, in the last free places. Each
// of at most 8,192 arcs takes a step, and each of at most 1,024 states two.
fn list_from(
    bytes: &[u8],
    root: usize,
    any: bool,
    arcs: &[u8],
    count: usize,
    heads: &[u16],
    next: &[u16],
    cursors: &mut [u16],
    seen: &mut [u16],
    stack: &mut [u16],
    order: &mut [u16],
    free: usize,
) -> usize
    requires { (state_size * root + state_size ≤ length bytes.now) × (root < 1024)
        × (arc_size * count ≤ length arcs.now) }
{
    if !begins_at(bytes, root, any) || number_at(seen, root) == 1 {
        return free;
    }
    put_on(seen, stack, 0, root as u16);
    let mut s = Search { depth: 1, free };
    let mut left: usize = 10240;
    while 0 < s.depth {
        if left < 1 {
            return s.free;
        }
        left -= 1;
        s = search_step(arcs, count, heads, next, cursors, seen, stack, order, s);
    }
    s.free
}

// How many turns the search has: one for each state, or two.
fn turns_of(whole: bool, states: usize) -> usize
    requires { states ≤ 1024 }
    ensures { result ≤ 2 * states }
{
    if whole { 2 * states } else { states }
}

// The state of a turn: the states come twice.
fn root_at(turn: usize, states: usize) -> usize
    requires { turn < 2 * states }
    ensures { result < states }
{
    if turn < states { turn } else { turn - states }
}

// The same from each final state, and in later turns from any.
fn list_roots(
    bytes: &[u8],
    states: usize,
    turns: usize,
    arcs: &[u8],
    count: usize,
    heads: &[u16],
    next: &[u16],
    cursors: &mut [u16],
    seen: &mut [u16],
    stack: &mut [u16],
    order: &mut [u16],
)
    requires { (state_size * states ≤ length bytes.now) × (states ≤ 1024) × (turns ≤ 2 * states)
        × (arc_size * count ≤ length arcs.now) }
{
    let mut free = count;
    for turn in 0..turns {
        free = list_from(
            bytes,
            root_at(turn, states),
            states <= turn,
            arcs,
            count,
            heads,
            next,
            cursors,
            seen,
            stack,
            order,
            free,
        );
    }
}

// The arcs on ways to a final state, in the last of the first `count` places; where `whole`, all others before them.
pub fn list_arcs(
    bytes: &[u8],
    states: usize,
    arcs: &[u8],
    count: usize,
    whole: bool,
    order: &mut [u16],
)
    requires { (state_size * states ≤ length bytes.now) × (states ≤ 1024) × (arc_size * count ≤ length arcs.now)
        × (count ≤ 8192) }
{
    let mut heads = [65535u16; 1024];
    let mut next = [65535u16; 8192];
    let mut seen = [0u16; 1024];
    let mut stack = [0u16; 1024];
    chain_targets(arcs, count, &mut heads, &mut next);
    let mut cursors = heads;
    list_roots(
        bytes,
        states,
        turns_of(whole, states),
        arcs,
        count,
        &heads,
        &next,
        &mut cursors,
        &mut seen,
        &mut stack,
        order,
    );
}
