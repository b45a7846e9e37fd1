// Delays lowered until no arc makes one less: rounds over the listed arcs, over all arcs, and over the listed ones in
// the turned order, with cycles that lessen the delay found between them.
ghost use Rattle.std.specs.Prelude.{◌<◌};
ghost use Rattle.delays_relaxation.specs.Vector.{Room};
ghost use Rattle.delays_relaxation.specs.Edges.{edges, ReadableArcs};
ghost use Rattle.delays_relaxation.specs.Lowered.{Lowers, Settles};

use crate::cycles::mark_endless;
use crate::places::{note_arc, number_at};
use crate::{edge_at, round_arcs, visit_edge};
use table::layout::ARC_SIZE;

// One arc by its number, if there is such an arc. It is noted for its source where it makes the delay less.
fn lower_by(
    arcs: &[u8],
    count: usize,
    reversed: bool,
    first: usize,
    second: usize,
    k: u16,
    work: &mut [u8],
    at: usize,
    states: usize,
    through: &mut [u16],
)
    requires { ReadableArcs states arcs.now count reversed first second × Room at 2 states work.old }
    ensures { Lowers (edges reversed first second 0 count arcs.now) at states work.new
        work.old }
{
    if count <= k as usize {
        return;
    }
    let e = edge_at(arcs, ARC_SIZE * k as usize, reversed, first, second);
    let source = e.source as usize;
    let kept = visit_edge(work, at, e, false);
    note_arc(kept, through, source, k as usize);
}

// The i-th of `count` places, counted from the other end where the order is turned.
fn place_of(turned: bool, i: usize, count: usize) -> usize
    requires { i < count }
{
    if turned { count - 1 - i } else { i }
}

// The listed arcs, one after the other, or in the turned order.
fn lower_listed(
    arcs: &[u8],
    count: usize,
    reversed: bool,
    first: usize,
    second: usize,
    order: &[u16],
    turned: bool,
    work: &mut [u8],
    at: usize,
    states: usize,
    through: &mut [u16],
)
    requires { ReadableArcs states arcs.now count reversed first second × Room at 2 states work.old }
    ensures { Lowers (edges reversed first second 0 count arcs.now) at states work.new
        work.old }
{
    for i in 0..count {
        let k = number_at(order, place_of(turned, i, count));
        lower_by(
            arcs, count, reversed, first, second, k, work, at, states, through,
        );
    }
}

// The listed arcs, and then a round over all arcs. Tells whether this round left every delay as it was.
fn lower_all(
    arcs: &[u8],
    count: usize,
    reversed: bool,
    first: usize,
    second: usize,
    order: &[u16],
    work: &mut [u8],
    at: usize,
    states: usize,
    through: &mut [u16],
) -> bool
    requires { ReadableArcs states arcs.now count reversed first second × Room at 2 states work.old }
    ensures { Settles (edges reversed first second 0 count arcs.now) at states result work.new
        work.old }
{
    lower_listed(
        arcs, count, reversed, first, second, order, false, work, at, states, through,
    );
    round_arcs(
        arcs, count, reversed, first, second, work, at, states, false, through,
    )
}

// Of each cycle that lessens the delay one state becomes endless, and then the listed arcs in the turned order.
fn lower_turned(
    arcs: &[u8],
    count: usize,
    reversed: bool,
    first: usize,
    second: usize,
    order: &[u16],
    work: &mut [u8],
    at: usize,
    states: usize,
    through: &mut [u16],
)
    requires { ReadableArcs states arcs.now count reversed first second × Room at 2 states work.old }
    ensures { Lowers (edges reversed first second 0 count arcs.now) at states work.new
        work.old }
{
    mark_endless(
        arcs, count, reversed, first, second, through, work, at, states,
    );
    lower_listed(
        arcs, count, reversed, first, second, order, true, work, at, states, through,
    );
}

// Rounds until one over all arcs changes nothing, which is told, or as many as there are states.
pub fn settle(
    arcs: &[u8],
    count: usize,
    reversed: bool,
    first: usize,
    second: usize,
    order: &[u16],
    work: &mut [u8],
    at: usize,
    states: usize,
    through: &mut [u16],
) -> bool
    requires { ReadableArcs states arcs.now count reversed first second × Room at 2 states work.old }
    ensures { Settles (edges reversed first second 0 count arcs.now) at states result work.new
        work.old }
{
    for _round in 0..states {
        if lower_all(
            arcs, count, reversed, first, second, order, work, at, states, through,
        ) {
            return true;
        }
        lower_turned(
            arcs, count, reversed, first, second, order, work, at, states, through,
        );
    }
    false
}
