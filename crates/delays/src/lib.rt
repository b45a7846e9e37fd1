// The closing delays of all pairs in a region of the work space, and the test for viable configurations that reads
// them.
#![tactic(auto)]

ghost use Rattle.std.specs.Prelude.{◌≡◌, ◌+◌, ◌*◌, ◌≤◌, ◌<◌, length, get_or};
ghost use Rattle.automata.specs.Closing.{with_delay≤};
ghost use Rattle.automata.specs.Memory.{Sound};
ghost use Rattle.automata.specs.Layout.{delays_size, pair_delays, reaching_place};
ghost use Rattle.automata.specs.Limits.{max_tapes};
ghost use Rattle.table.specs.Answers.{memory};
ghost use Rattle.delays_relaxation.specs.Vector.{Room};
ghost use Rattle.delays_relaxation.specs.Edges.{edges, Readable};
ghost use Rattle.delays_relaxation.specs.Lowered.{FillsLeast};
ghost use Rattle.table.specs.Pairs.{Named, Within, no_pair};
ghost use Rattle.delays.specs.ClosingRegion.{ClosesPair, ClosesPairs, closable_at, viable_at, WritesClosing, Tests};

use delays_relaxation::least_delays;
use delays_relaxation::listing::list_arcs;
use table::bytes::get16;
use table::layout::{DELAYS_SIZE, OPPOSITE_PLACE, PAIR_DELAYS, REACHING_PLACE};
use table::lent::Table;
use table::pair::{Pair, PairList};
use table::record::InputState;

// The closing delays of a pair, of the table or, where `reversed`, of its reversal: the least, and the least of the
// pair turned round.
pub fn close_pair(
    bytes: &[u8],
    states: usize,
    arcs: &[u8],
    count: usize,
    reversed: bool,
    order: &[u16],
    p: Pair,
    work: &mut [u8],
    at: usize,
)
    requires { Readable bytes.now states arcs.now count × Within max_tapes p
        × Room at pair_delays states work.old }
    ensures { ClosesPair reversed bytes.now states arcs.now count p at work.new
        work.old }
{
    let first = p.first as usize - 1;
    let second = p.second as usize - 1;
    least_delays(
        bytes, states, arcs, count, reversed, first, second, order, work, at,
    );
    least_delays(
        bytes,
        states,
        arcs,
        count,
        reversed,
        second,
        first,
        order,
        work,
        at + OPPOSITE_PLACE,
    );
}

// The closing delays of all pairs.
fn close_pairs(
    bytes: &[u8],
    states: usize,
    arcs: &[u8],
    count: usize,
    order: &[u16],
    pairs: PairList,
    work: &mut [u8],
    base: usize,
)
    requires { Readable bytes.now states arcs.now count × (pairs.used ≤ 4)
        × ((h : _) → h < pairs.used → Within max_tapes (get_or pairs.pairs h no_pair)) × Room base reaching_place states work.old }
    ensures { ClosesPairs bytes.now states arcs.now count pairs.pairs pairs.used base
        work.new work.old }
{
    for h in 0..pairs.used {
        close_pair(
            bytes,
            states,
            arcs,
            count,
            false,
            order,
            pairs.pairs[h],
            work,
            base + PAIR_DELAYS * h,
        );
    }
}

// Which states reach a final one, in the table or, where `reversed`, in its reversal: the closing delays on one tape
// taken twice, each of them none or missing.
pub fn mark_reaching(
    bytes: &[u8],
    states: usize,
    arcs: &[u8],
    count: usize,
    reversed: bool,
    order: &[u16],
    work: &mut [u8],
    at: usize,
)
    requires { Readable bytes.now states arcs.now count × Room at 2 states work.old }
    ensures { FillsLeast reversed (edges reversed 0 0 0 count arcs.now) at states bytes.now
        work.new work.old }
{
    least_delays(bytes, states, arcs, count, reversed, 0, 0, order, work, at);
}

// Whether `x` with the delay held as `v` is at most `y`. In the two bytes that work space has for it (fixed memory), a
// delay is held as 16,384 more than it is, a missing one as 65,535, an endless one as 0.
fn within_delay(x: u8, v: u16, y: u8) -> bool
    ensures { result ≡ with_delay≤ x v y }
{
    v == 0 || x as u32 + v as u32 <= y as u32 + 16384
}

// Whether the closing delays at `at` admit a leftover, of length `x` on the first tape and `y` on the second.
fn closable(work: &[u8], at: usize, x: u8, y: u8) -> bool
    requires { at + 6 ≤ length work.now }
    ensures { result ≡ closable_at at x y work.now }
{
    within_delay(x, get16(work, at), y) && within_delay(y, get16(work, at + OPPOSITE_PLACE), x)
}

// Whether a configuration is viable, by the place of its state's 64 bytes and the lengths of its leftovers.
pub fn viable_at(work: &[u8], at: usize, used: usize, firsts: [u8; 4], seconds: [u8; 4]) -> bool
    requires { (at + 34 ≤ length work.now) × (used ≤ 4) }
    ensures { result ≡ viable_at at used firsts seconds work.now }
{
    if get16(work, at + REACHING_PLACE) == 65535 {
        return false;
    }
    for h in 0..used {
        if !closable(work, at + PAIR_DELAYS * h, firsts[h], seconds[h]) {
            return false;
        }
    }
    true
}

// The closing tables, with the arcs listed.
fn write_tables(table: &Table, order: &[u16], pairs: PairList, work: &mut [u8], base: usize)
    requires { Sound (memory table.now) × (base + delays_size * table.now.counts.states ≤ length work.old)
        × Named table.now.counts.tapes pairs }
    ensures { WritesClosing (memory table.now) pairs base work.new
        work.old }
{
    mark_reaching(
        table.states,
        table.counts.states,
        table.arcs,
        table.counts.arcs,
        false,
        order,
        work,
        base + REACHING_PLACE,
    );
    close_pairs(
        table.states,
        table.counts.states,
        table.arcs,
        table.counts.arcs,
        order,
        pairs,
        work,
        base,
    );
}

// The closing tables of the lent table for the pairs, in the region of 64 bytes a state from `base`.
pub fn closing_tables(table: &Table, pairs: PairList, work: &mut [u8], base: usize)
    requires { Sound (memory table.now) × (base + delays_size * table.now.counts.states ≤ length work.old)
        × Named table.now.counts.tapes pairs }
    ensures { WritesClosing (memory table.now) pairs base work.new
        work.old }
{
    let mut order = [65535u16; 8192];
    list_arcs(
        table.states,
        table.counts.states,
        table.arcs,
        table.counts.arcs,
        false,
        &mut order,
    );
    write_tables(table, &order, pairs, work, base);
}

// Whether a configuration with this state and leftovers of these lengths is viable, by the closing tables in the region
// from `base`.
pub fn viable(
    work: &[u8],
    base: usize,
    state: InputState,
    used: usize,
    firsts: [u8; 4],
    seconds: [u8; 4],
) -> bool
    requires { (used ≤ 4) × (base + delays_size * state.0 + delays_size ≤ length work.now) }
    ensures { Tests base state.0 used firsts seconds work.now result }
{
    viable_at(
        work,
        base + DELAYS_SIZE * state.0 as usize,
        used,
        firsts,
        seconds,
    )
}
