// Numbers of states, weights, states and labels by value; states loaded from lent bytes and stored to them.
ghost use Rattle.std.specs.Prelude.{◌≡◌, ◌∷◌, ◌+◌, ◌≤◌, length};
ghost use Rattle.automata.specs.Layout.{state_size, weight_size};
ghost use Rattle.table.specs.Region.{splice};
ghost use Rattle.table.specs.Endian.{to_le};
ghost use Rattle.table.specs.Records.{weight_bytes, state_bytes, weight_at, state_at};

use crate::bytes::{get32, put32};
use crate::layout::{ABSENT, AMOUNT_PLACE, FINAL_PLACE, PRESENT};

// The number of a state of a table that is read.
#[derive(Clone, Copy)]
pub struct InputState(pub u16);

// The number of a state of a table that is made.
#[derive(Clone, Copy)]
pub struct ResultState(pub u16);

// A state: its initial and its final weight, where it has them.
#[derive(Clone, Copy)]
pub struct State {
    pub initial: Option<u32>,
    pub last: Option<u32>,
}

// A label on one tape: its length, and its symbols as text bytes, 0 past the length.
#[derive(Clone, Copy)]
pub struct Label {
    pub len: u8,
    pub symbols: [u8; 8],
}

// A flag and a number behind it.
fn put_flagged(bytes: &mut [u8], at: usize, flag: u8, v: u32)
    requires { at + weight_size ≤ length bytes.old }
    ensures { bytes.new ≡ splice at (flag ∷ to_le 4 v) bytes.old }
{
    bytes[at] = flag;
    put32(bytes, at + AMOUNT_PLACE, v);
}

// The record of a weight.
fn store_weight(bytes: &mut [u8], at: usize, w: Option<u32>)
    requires { at + weight_size ≤ length bytes.old }
    ensures { bytes.new ≡ splice at (weight_bytes w) bytes.old }
{
    match w {
        None => put_flagged(bytes, at, ABSENT, 0),
        Some(n) => put_flagged(bytes, at, PRESENT, n),
    }
}

// The record of a state, written at a place.
pub fn store_state(bytes: &mut [u8], at: usize, s: State)
    requires { at + state_size ≤ length bytes.old }
    ensures { bytes.new ≡ splice at (state_bytes s) bytes.old }
{
    store_weight(bytes, at, s.initial);
    store_weight(bytes, at + FINAL_PLACE, s.last);
}

// The weight at a place.
fn load_weight(bytes: &[u8], at: usize) -> Option<u32>
    requires { at + weight_size ≤ length bytes.now }
    ensures { result ≡ weight_at at bytes.now }
{
    if bytes[at] == ABSENT {
        None
    } else {
        Some(get32(bytes, at + AMOUNT_PLACE))
    }
}

// The state whose record stands at a place.
pub fn load_state(bytes: &[u8], at: usize) -> State
    requires { at + state_size ≤ length bytes.now }
    ensures { result ≡ state_at at bytes.now }
{
    State {
        initial: load_weight(bytes, at),
        last: load_weight(bytes, at + FINAL_PLACE),
    }
}
