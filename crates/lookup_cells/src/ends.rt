// The cells of final states at the last combination of positions, and the least weight from the initial states at the
// first.
ghost use Rattle.std.specs.Prelude.{◌≡◌, ◌+◌, ◌*◌, ◌≤◌, ◌<◌, length, get_or};
ghost use Rattle.table.specs.Records.{option_of};
ghost use Rattle.lookup_moves.specs.Distances.{far, weight_of, cells_of};
ghost use Rattle.lookup_cells.specs.Ends.{Starts, StartsAll, Stated, from_state, least_up_to};
ghost use Rattle.automata.specs.Layout.{state_size};

use lookup_moves::cell::{FAR, cell_number, lower, weight_at};
use table::layout::STATE_SIZE;
use table::record::load_state;

// The final weight of a state, where it has one, in its cell at the last combination.
fn start_state(states: &[u8], q: usize, all: usize, work: &mut [u8])
    requires { (state_size * q + state_size ≤ length states.now) × (0 < all)
        × (8 * (q * all + all) ≤ length work.old) }
    ensures { Starts states.now all q work.new work.old }
{
    if let Some(w) = load_state(states, STATE_SIZE * q).last {
        lower(work, cell_number(q, all, all - 1), u64::from(w));
    }
}

// The final weights of so many states.
pub fn start_states(states: &[u8], count: usize, all: usize, work: &mut [u8])
    requires { Stated states.now count all work.old }
    ensures { StartsAll states.now all count work.new work.old }
{
    for q in 0..count {
        start_state(states, q, all, work);
    }
}

// The initial weight of a state and the weight in its cell at the first combination, or the number for "none".
pub fn from_state(states: &[u8], q: usize, all: usize, work: &[u8]) -> u64
    requires { (state_size * q + state_size ≤ length states.now) × (0 < all)
        × (8 * (q * all + all) ≤ length work.now) × (get_or (cells_of work.now) (q * all + 0) 0 ≤ far) }
    ensures { result ≡ from_state states.now all (cells_of work.now) q }
{
    match load_state(states, STATE_SIZE * q).initial {
        Some(w) => u64::from(w) + weight_at(work, cell_number(q, all, 0)),
        None => FAR,
    }
}

// The least over so many states, or none.
pub fn least_from(states: &[u8], count: usize, all: usize, work: &[u8]) -> Option<u64>
    requires { Stated states.now count all work.now × ((k : _) → get_or (cells_of work.now) k 0 ≤ far) }
    ensures { option_of result ≡ weight_of (least_up_to count states.now all (cells_of work.now)) }
{
    let mut least = FAR;
    for q in 0..count {
        least = least.min(from_state(states, q, all, work));
    }
    if least < FAR { Some(least) } else { None }
}
