// The sums of a product: the weights of a state by its place on each side, the weight of a move by its arcs.
ghost use Rattle.std.specs.Prelude.{◌≡◌, ◌+◌, ◌*◌, ◌≤◌, ◌<◌, length};
ghost use Rattle.automata.specs.Table.{weight_fits};
ghost use Rattle.automata.specs.Product.{fits_at};
ghost use Rattle.automata.specs.Layout.{state_size};
ghost use Rattle.table.specs.Records.{option_of};
ghost use Rattle.product_search.specs.Vertices.{ended};
ghost use Rattle.product_records.specs.Sums.{place_state, plus, vertex_sum, state_fits, amount, side_sum, move_sum, VertexFits, SideFits, MoveFits};

use product_search::vertex::{ENDED, Move, NO_ARC, Vertex, load_vertex};
use table::arc::arc_weight_at;
use table::layout::{ARC_SIZE, STATE_SIZE, VERTEX_SIZE};
use table::record::{InputState, State, load_state};

// The state of a side at a place: no initial weight and the final weight 0 where its path has ended.
fn place_state(states: &[u8], place: InputState) -> State
    requires { (place.0 ≡ ended → ⊥) → state_size * place.0 + state_size ≤ length states.now }
    ensures { result ≡ place_state states.now place.0 }
{
    if place.0 == ENDED {
        State {
            initial: None,
            last: Some(0),
        }
    } else {
        load_state(states, STATE_SIZE * place.0 as usize)
    }
}

// Two weights added, absent where either is.
fn add_weights(a: Option<u32>, b: Option<u32>) -> Option<u32>
    requires { amount a + amount b < 4294967296 }
    ensures { result ≡ plus a b }
{
    match (a, b) {
        (Some(x), Some(y)) => Some(x + y),
        _ => None,
    }
}

// The state of the product at a place on each side.
pub fn vertex_state(v: Vertex, first_states: &[u8], second_states: &[u8]) -> State
    requires { VertexFits first_states.now second_states.now v }
    ensures { result ≡ vertex_sum first_states.now second_states.now v }
{
    let a = place_state(first_states, v.first);
    let b = place_state(second_states, v.second);
    State {
        initial: add_weights(a.initial, b.initial),
        last: add_weights(a.last, b.last),
    }
}

// Whether a weight is in range, if it is there.
fn weight_fits(w: Option<u32>) -> bool
    ensures { result ≡ fits_at weight_fits (option_of w) }
{
    w.is_none_or(|n| n <= 999999999)
}

// Whether both weights of a state are.
pub fn state_fits(s: State) -> bool
    ensures { result ≡ state_fits s }
{
    weight_fits(s.initial) && weight_fits(s.last)
}

// What a side adds to the weight of a move: that of its arc, or the final weight of its place where its path ends or
// has ended.
fn side_weight(states: &[u8], arcs: &[u8], arc: u16, place: InputState) -> u32
    requires { SideFits states.now arcs.now arc place.0 }
    ensures { (result ≡ side_sum states.now arcs.now arc place.0) × (result ≤ 999999999) }
{
    if arc == NO_ARC {
        place_state(states, place).last.unwrap_or(0)
    } else {
        arc_weight_at(arcs, ARC_SIZE * arc as usize)
    }
}

// The weight of a move, from the row of its first state in `work`.
pub fn move_weight(
    m: Move,
    work: &[u8],
    first_states: &[u8],
    first_arcs: &[u8],
    second_states: &[u8],
    second_arcs: &[u8],
) -> u32
    requires { MoveFits first_states.now first_arcs.now second_states.now second_arcs.now
        work.now m }
    ensures { result ≡ move_sum first_states.now first_arcs.now
        second_states.now second_arcs.now work.now m }
{
    let v = load_vertex(work, VERTEX_SIZE * m.from.0 as usize);
    let first = side_weight(first_states, first_arcs, m.first, v.first);
    let second = side_weight(second_states, second_arcs, m.second, v.second);
    first + second
}
