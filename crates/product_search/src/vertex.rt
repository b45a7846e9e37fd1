// States of an aligned product and the moves between them, by value and as records in work space.
ghost use Rattle.std.specs.Prelude.{◌≡◌, ◌+◌, ◌*◌, ◌≤◌, ◌<◌, length};
ghost use Rattle.table.specs.Region.{splice};
ghost use Rattle.table.specs.Endian.{to_le};
ghost use Rattle.search_rows.specs.Kept.{stored_within};
ghost use Rattle.product_search.specs.Vertices.{vertex_bytes, vertex_at, FindsVertex, EntersVertex};
ghost use Rattle.product_search.specs.Moves.{move_bytes, move_at};
ghost use Rattle.automata.specs.Layout.{step_size, vertex_size};

use search_chains::{append, bucket_of, link_below};
use search_rows::{Entered, Reached, store_within};
use table::bytes::{get16, get32, put16};
use table::layout::VERTEX_SIZE;
use table::record::InputState;

// What stands for a side's state where its path has ended.
pub const ENDED: u16 = 65535;

// What stands for the number of a side's arc where its path has ended.
pub const NO_ARC: u16 = 65535;

// A state of the product: an input state on each side, `ENDED` where that side's path has ended.
#[derive(Clone, Copy)]
pub struct Vertex {
    pub first: InputState,
    pub second: InputState,
}

// A move between two of them: the number of the arc that each side follows, `NO_ARC` where that side's path has ended.
#[derive(Clone, Copy)]
pub struct Move {
    pub from: Reached,
    pub first: u16,
    pub second: u16,
    pub to: Reached,
}

// The state of the product whose row stands at a place.
pub fn load_vertex(work: &[u8], at: usize) -> Vertex
    requires { at + 4 ≤ length work.now }
    ensures { result ≡ vertex_at at work.now }
{
    Vertex {
        first: InputState(get16(work, at)),
        second: InputState(get16(work, at + 2)),
    }
}

// The number whose four bytes are those of a state of the product.
fn key_of(v: Vertex) -> u32
    ensures { to_le 4 result ≡ vertex_bytes v }
{
    u32::from(v.first.0) + 65536 * u32::from(v.second.0)
}

// Which of the `count` states has these four bytes as a number, by the chain of its bucket. `search_chains::find` would
// tell the same byte by byte; one comparison of numbers is quicker (docs/DECISIONS.md, F15).
fn find_vertex(work: &[u8], count: u16, bucket: usize, key: u32) -> Option<Reached>
    requires { (count * vertex_size ≤ length work.now) × (bucket * vertex_size + vertex_size ≤ length work.now) }
    ensures { FindsVertex count bucket key work.now result }
{
    let mut link = link_below(work, bucket * VERTEX_SIZE + 4, count);
    while link != 0 {
        let candidate = link - 1;
        let at = candidate as usize * VERTEX_SIZE;
        if get32(work, at) == key {
            return Some(Reached(candidate));
        }
        link = link_below(work, at + 6, candidate);
    }
    None
}

// The number of a state of the product among those reached, entered behind them if it is not there.
pub fn enter_vertex(work: &mut [u8], reached: usize, room: usize, v: Vertex) -> Entered
    requires { (vertex_size * room ≤ length work.old) × (reached ≤ room) × (room ≤ 1024) }
    ensures { EntersVertex reached room v work.old result work.new }
{
    if room == 0 {
        return Entered::Full;
    }
    let count = reached as u16;
    let key = key_of(v);
    let bucket = bucket_of(u64::from(key), room);
    match find_vertex(work, count, bucket, key) {
        Some(state) => Entered::At(state),
        None if room <= reached => Entered::Full,
        None => {
            append(work, VERTEX_SIZE, count, bucket, &key.to_le_bytes());
            Entered::New(Reached(count))
        }
    }
}

// The record of a move, written at a place.
pub fn store_move(work: &mut [u8], at: usize, m: Move)
    requires { at + 8 ≤ length work.old }
    ensures { work.new ≡ splice at (move_bytes m) work.old }
{
    put16(work, at, m.from.0);
    put16(work, at + 2, m.first);
    put16(work, at + 4, m.second);
    put16(work, at + 6, m.to.0);
}

// The move whose record stands at a place.
pub fn load_move(work: &[u8], at: usize) -> Move
    requires { at + 8 ≤ length work.now }
    ensures { result ≡ move_at at work.now }
{
    Move {
        from: Reached(get16(work, at)),
        first: get16(work, at + 2),
        second: get16(work, at + 4),
        to: Reached(get16(work, at + 6)),
    }
}

// The record of the move with this number, written where there is room for it.
pub fn store_move_within(work: &mut [u8], base: usize, room: usize, number: usize, m: Move)
    requires { base + step_size * room ≤ length work.old }
    ensures { work.new ≡ stored_within base room number (move_bytes m) work.old }
{
    let mut record = [0u8; 8];
    store_move(&mut record, 0, m);
    store_within(work, base, room, number, &record);
}
