// The records of a product: its states and its arcs, in the order in which they stand in work space.
ghost use Rattle.std.specs.Prelude.{◌≡◌, ◌+◌, ◌*◌, ◌≤◌, ◌<◌, length};
ghost use Rattle.automata.specs.Calls.Outcome.{overwrite};
ghost use Rattle.automata.specs.Layout.{arc_size, state_size, step_size, vertex_size};
ghost use Rattle.product_records.specs.Sums.{vertices_at, moves_at};
ghost use Rattle.product_records.specs.Results.{state_records, Vertices, move_records, Moves};

use crate::record::store_move;
use crate::sum::vertex_state;
use product_search::vertex::{load_move, load_vertex};
use table::layout::{ARC_SIZE, STATE_SIZE, STEP_SIZE, VERTEX_SIZE};
use table::record::store_state;

// The records of the first `count` states in `work`, over the front of `out`.
pub fn write_states(
    work: &[u8],
    count: usize,
    first_states: &[u8],
    second_states: &[u8],
    out: &mut [u8],
)
    requires { (vertex_size * count ≤ length work.now)
        × Vertices first_states.now second_states.now (vertices_at 0 count work.now)
        × (state_size * count ≤ length out.old) }
    ensures { out.new ≡ overwrite (state_records first_states.now
        second_states.now (vertices_at 0 count work.now)) out.old }
{
    for i in 0..count {
        let v = load_vertex(work, VERTEX_SIZE * i);
        let s = vertex_state(v, first_states, second_states);
        store_state(out, STATE_SIZE * i, s);
    }
}

// The records of the `count` moves from `base` on, over the front of `out`.
pub fn write_moves(
    work: &[u8],
    base: usize,
    count: usize,
    first_tapes: usize,
    second_tapes: usize,
    first_states: &[u8],
    first_arcs: &[u8],
    second_states: &[u8],
    second_arcs: &[u8],
    out: &mut [u8],
)
    requires { (base + step_size * count ≤ length work.now)
        × Moves first_states.now first_arcs.now second_states.now second_arcs.now work.now
        (moves_at base count work.now) × (first_tapes + second_tapes ≤ 8)
        × (arc_size * count ≤ length out.old) }
    ensures { out.new ≡ overwrite (move_records first_states.now first_arcs.now
        second_states.now second_arcs.now work.now first_tapes second_tapes
        (moves_at base count work.now)) out.old }
{
    for i in 0..count {
        let m = load_move(work, base + STEP_SIZE * i);
        store_move(
            m,
            first_tapes,
            second_tapes,
            work,
            first_states,
            first_arcs,
            second_states,
            second_arcs,
            out,
            ARC_SIZE * i,
        );
    }
}
