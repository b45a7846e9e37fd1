// What entering a record answers, and a record kept where there is room for it.
#![tactic(auto)]

ghost use Rattle.std.specs.Prelude.{◌≡◌, ◌+◌, ◌*◌, ◌≤◌, ◌<◌, length};
ghost use Rattle.search_rows.specs.Kept.{stored_within};
ghost use Rattle.automata.specs.Layout.{step_size};

use table::bytes::copy_into;
use table::layout::STEP_SIZE;

// The number of a record among those that a search has reached, in the order reached.
#[derive(Clone, Copy)]
pub struct Reached(pub u16);

// What entering a record came to: it stood there already, it is new, or there is no room for it.
#[derive(Clone, Copy)]
pub enum Entered {
    At(Reached),
    New(Reached),
    Full,
}

// The record with this number and these bytes, written where there is room for it.
pub fn store_within(work: &mut [u8], base: usize, room: usize, number: usize, bytes: &[u8])
    requires { (base + step_size * room ≤ length work.old) × (length bytes.now ≤ step_size) }
    ensures { work.new ≡ stored_within base room number bytes.now work.old }
{
    if number < room {
        copy_into(work, base + STEP_SIZE * number, bytes);
    }
}
