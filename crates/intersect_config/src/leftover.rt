// What one tape of a pair has in advance of the other, by value: its bytes, and what an arc leaves of it.
ghost use Rattle.std.specs.Prelude.{◌≡◌, ◌++◌, ◌+◌, ◌≤◌, length, take};
ghost use Rattle.automata.specs.Leftover as automata;
ghost use Rattle.automata.specs.Limits.{max_delay};
ghost use Rattle.table.specs.Region.{splice};
ghost use Rattle.intersect_config.specs.Leftovers.{blank, leftover_as, label_of, leftover_bytes, leftover_at, packed, advanced_of, turned, agrees, Advances, leftover_room, leftover_size};

use table::bytes::copy_into;
use table::record::Label;

// The symbols that there is room for: a leftover of the greatest limit and a label behind it.
const LEFTOVER_ROOM: usize = 72;

// The bytes of a leftover: which tape is ahead, its length, its symbols.
pub const LEFTOVER_SIZE: usize = 74;

// What one tape has in advance of the other: `len` symbols of the second tape or of the first, 0 past them.
#[derive(Clone, Copy)]
pub struct Leftover {
    pub second: bool,
    pub len: u8,
    pub symbols: [u8; LEFTOVER_ROOM],
}

// The leftover of two tapes that are matched.
pub fn blank_leftover() -> Leftover
    ensures { result ≡ blank }
{
    Leftover {
        second: false,
        len: 0,
        symbols: [0u8; LEFTOVER_ROOM],
    }
}

// Whether one of the two strings starts with the other.
fn agree(u: &[u8], v: &[u8]) -> bool
    ensures { result ≡ agrees u.now v.now }
{
    for i in 0..u.len().min(v.len()) {
        if u[i] != v[i] {
            return false;
        }
    }
    true
}

// A string as the leftover of one tape.
fn pack(second: bool, r: &[u8]) -> Leftover
    requires { length r.now ≤ leftover_room }
    ensures { result ≡ packed second r.now }
{
    if r.is_empty() {
        return blank_leftover();
    }
    let mut symbols = [0u8; LEFTOVER_ROOM];
    copy_into(&mut symbols, 0, r);
    Leftover {
        second,
        len: r.len() as u8,
        symbols,
    }
}

// What is left of u on one tape and v on the other, where they are compatible; u is on the second one where `turn`.
fn strip_to(turn: bool, u: &[u8], v: &[u8]) -> Option<Leftover>
    requires { (length u.now ≤ leftover_room) × (length v.now ≤ leftover_room) }
    ensures { result ≡ advanced_of (turned turn (automata.strip u.now v.now)) }
{
    if !agree(u, v) {
        return None;
    }
    Some(if v.len() < u.len() {
        pack(turn, &u[v.len()..])
    } else {
        pack(!turn, &v[u.len()..])
    })
}

// The first n of a leftover's symbols with a label's bytes behind them.
fn join(symbols: [u8; LEFTOVER_ROOM], n: usize, label: [u8; 8], k: usize) -> [u8; LEFTOVER_ROOM]
    requires { (n ≤ max_delay) × (k ≤ 8) }
    ensures { take (n + k) result ≡ take n symbols ++ take k label }
{
    let mut joined = symbols;
    copy_into(&mut joined, n, &label);
    joined
}

// The leftover after an arc with the label x on the first tape and y on the second, where they are compatible.
pub fn advance(l: Leftover, x: Label, y: Label) -> Option<Leftover>
    requires { (l.len ≤ max_delay) × ((x.len ≤ 8) × (y.len ≤ 8)) }
    ensures { Advances (automata.advance (leftover_as l) (label_of x) (label_of y)) result }
{
    let n = l.len as usize;
    let kx = x.len as usize;
    let ky = y.len as usize;
    if l.second {
        let joined = join(l.symbols, n, y.symbols, ky);
        strip_to(true, &joined[..n + ky], &x.symbols[..kx])
    } else {
        let joined = join(l.symbols, n, x.symbols, kx);
        strip_to(false, &joined[..n + kx], &y.symbols[..ky])
    }
}

// The leftover whose bytes stand at `at`.
pub fn load_leftover(work: &[u8], at: usize) -> Leftover
    requires { at + leftover_size ≤ length work.now }
    ensures { result ≡ leftover_at at work.now }
{
    let mut symbols = [0u8; LEFTOVER_ROOM];
    copy_into(&mut symbols, 0, &work[at + 2..at + LEFTOVER_SIZE]);
    Leftover {
        second: work[at] == 1,
        len: work[at + 1],
        symbols,
    }
}

// The bytes of a leftover written at `at`.
pub fn store_leftover(work: &mut [u8], at: usize, l: Leftover)
    requires { at + leftover_size ≤ length work.old }
    ensures { (work.new ≡ splice at (leftover_bytes l) work.old)
        × (length (leftover_bytes l) ≡ leftover_size) }
{
    work[at] = u8::from(l.second);
    work[at + 1] = l.len;
    copy_into(work, at + 2, &l.symbols);
}
