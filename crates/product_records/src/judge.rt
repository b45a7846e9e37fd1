// Whether every summed weight of a product is in range.
ghost use Rattle.std.specs.Prelude.{◌≡◌, ◌+◌, ◌*◌, ◌≤◌, ◌<◌, length};
ghost use Rattle.automata.specs.Lists.{and};
ghost use Rattle.automata.specs.Layout.{step_size, vertex_size};
ghost use Rattle.product_records.specs.Sums.{vertices_at, moves_at};
ghost use Rattle.product_records.specs.Results.{states_fit, Vertices, moves_fit, Moves};

use crate::sum::{move_weight, state_fits, vertex_state};
use product_search::vertex::{load_move, load_vertex};
use table::layout::{STEP_SIZE, VERTEX_SIZE};

// Whether the weights of the first `count` states in `work` are in range.
fn states_fit(work: &[u8], count: usize, first_states: &[u8], second_states: &[u8]) -> bool
    requires { (vertex_size * count ≤ length work.now)
        × Vertices first_states.now second_states.now (vertices_at 0 count work.now) }
    ensures { result ≡ states_fit first_states.now second_states.now
        (vertices_at 0 count work.now) }
{
    for i in 0..count {
        let v = load_vertex(work, VERTEX_SIZE * i);
        let s = vertex_state(v, first_states, second_states);
        if !state_fits(s) {
            return false;
        }
    }
    true
}

// Whether the weights of the `count` moves from `base` on are in range.
fn moves_fit(
    work: &[u8],
    base: usize,
    count: usize,
    first_states: &[u8],
    first_arcs: &[u8],
    second_states: &[u8],
    second_arcs: &[u8],
) -> bool
    requires { (base + step_size * count ≤ length work.now)
        × Moves first_states.now first_arcs.now second_states.now second_arcs.now work.now
        (moves_at base count work.now) }
    ensures { result ≡ moves_fit first_states.now first_arcs.now
        second_states.now second_arcs.now work.now
        (moves_at base count work.now) }
{
    for i in 0..count {
        let m = load_move(work, base + STEP_SIZE * i);
        let weight = move_weight(
            m,
            work,
            first_states,
            first_arcs,
            second_states,
            second_arcs,
        );
        if 999999999 < weight {
            return false;
        }
    }
    true
}

// Whether all of them are.
pub fn sums_fit(
    work: &[u8],
    reached: usize,
    base: usize,
    arcs: usize,
    first_states: &[u8],
    first_arcs: &[u8],
    second_states: &[u8],
    second_arcs: &[u8],
) -> bool
    requires { (vertex_size * reached ≤ length work.now)
        × Vertices first_states.now second_states.now (vertices_at 0 reached work.now)
        × (base + step_size * arcs ≤ length work.now)
        × Moves first_states.now first_arcs.now second_states.now second_arcs.now work.now
        (moves_at base arcs work.now) }
    ensures { result ≡ and (states_fit first_states.now second_states.now
        (vertices_at 0 reached work.now))
        (moves_fit first_states.now first_arcs.now second_states.now
        second_arcs.now work.now (moves_at base arcs work.now)) }
{
    states_fit(work, reached, first_states, second_states)
        && moves_fit(
            work,
            base,
            arcs,
            first_states,
            first_arcs,
            second_states,
            second_arcs,
        )
}
