// Records found by hash chains. Each record stands at the front of a row, and behind it two links of two bytes: the
// head of the chain with the row's number, and the record's successor in its own chain. A link is the number of a
// record and one, or 0 where the chain ends. Document 01: "the same configuration is one state, however often it is
// reached".
#![tactic(auto)]

ghost use Rattle.std.specs.Prelude.{◌≡◌, ◌+◌, ◌*◌, ◌/◌, ◌≤◌, ◌<◌, length};
ghost use Rattle.table.specs.Region.{part};
ghost use Rattle.table.specs.Endian.{le};
ghost use Rattle.search_chains.specs.Chain.{link_below, appended, Finds, Enters, Clears};
ghost use Rattle.search_chains.specs.Parts.{part_start, part_size, Shaped};
ghost use Rattle.search_chains.specs.Hash.{mixed, hash_from, bucket_of};

use search_rows::{Entered, Reached};
use table::bytes::{copy_into, get16, get64, put16};

// How records are compared, part by part: the first `head` bytes are the first part; the others stand `pitch` bytes
// apart behind it, and the second byte of each tells how many bytes of it count behind these two.
#[derive(Clone, Copy)]
pub struct Shape {
    pub head: usize,
    pub pitch: usize,
    pub parts: usize,
}

// A link of which nothing from `bound` on is followed: so every chain falls and ends, whatever stands in the bytes.
pub fn link_below(work: &[u8], at: usize, bound: u16) -> u16
    requires { at + 2 ≤ length work.now }
    ensures { (result ≡ link_below bound (le (part at 2 work.now))) × (result ≤ bound) }
{
    let link = get16(work, at);
    if bound < link { 0 } else { link }
}

// Where part p of a record begins.
fn part_start(shape: Shape, p: usize) -> usize
    requires { part_start shape p < 18446744073709551616 }
    ensures { result ≡ part_start shape p }
{
    if p == 0 {
        0
    } else {
        shape.head + shape.pitch * (p - 1)
    }
}

// Where what counts of part p ends.
fn part_end(shape: Shape, wanted: &[u8], p: usize) -> usize
    requires { Shaped shape wanted.now × (p < shape.parts) }
    ensures { result ≡ part_start shape p + part_size shape p wanted.now }
{
    if p == 0 {
        return shape.head;
    }
    let from = part_start(shape, p);
    from + 2 + usize::from(wanted[from + 1])
}

// Which of the `count` records equals `wanted`, by the chain of its bucket. Records and `wanted` are compared in what
// counts of their parts.
pub fn find(
    work: &[u8],
    stride: usize,
    count: u16,
    bucket: usize,
    shape: Shape,
    wanted: &[u8],
) -> Option<Reached>
    requires { (count * stride ≤ length work.now) × (bucket * stride + stride ≤ length work.now)
        × (length wanted.now + 4 ≤ stride) × Shaped shape wanted.now }
    ensures { Finds stride count bucket shape wanted.now work.now result }
{
    let size = wanted.len();
    let mut link = link_below(work, bucket * stride + size, count);
    'records: loop {
        if link == 0 {
            break None;
        }
        let candidate = link - 1;
        let at = candidate as usize * stride;
        link = link_below(work, at + size + 2, candidate);
        for p in 0..shape.parts {
            for i in part_start(shape, p)..part_end(shape, wanted, p) {
                if work[at + i] != wanted[i] {
                    continue 'records;
                }
            }
        }
        break Some(Reached(candidate));
    }
}

// The record in the row behind the last, and at the head of its chain.
pub fn append(work: &mut [u8], stride: usize, count: u16, bucket: usize, wanted: &[u8])
    requires { (count * stride + stride ≤ length work.old) × (bucket * stride + stride ≤ length work.old)
        × (length wanted.now + 4 ≤ stride) × (count < 65535) }
    ensures { work.new ≡ appended stride count bucket wanted.now work.old }
{
    let size = wanted.len();
    let at = count as usize * stride;
    let head = bucket * stride + size;
    let link = get16(work, head);
    copy_into(work, at, wanted);
    put16(work, at + size + 2, link);
    put16(work, head, count + 1);
}

// The number of the record `wanted` among the `count` records, entered behind them if it is not there.
pub fn enter(
    work: &mut [u8],
    stride: usize,
    count: u16,
    room: u16,
    bucket: usize,
    shape: Shape,
    wanted: &[u8],
) -> Entered
    requires { (room * stride ≤ length work.old) × (count ≤ room) × (bucket < room)
        × (length wanted.now + 4 ≤ stride) × Shaped shape wanted.now }
    ensures { Enters stride count room bucket shape wanted.now work.old result
        work.new }
{
    match find(work, stride, count, bucket, shape, wanted) {
        Some(state) => Entered::At(state),
        None if room <= count => Entered::Full,
        None => {
            append(work, stride, count, bucket, wanted);
            Entered::New(Reached(count))
        }
    }
}

// Every chain empty.
pub fn clear(work: &mut [u8], stride: usize, size: usize, room: usize)
    requires { (room * stride ≤ length work.old) × (size + 4 ≤ stride) }
    ensures { Clears stride size room work.old work.new }
{
    for b in 0..room {
        put16(work, b * stride + size, 0);
    }
}

// The hash h with n words of eight bytes from place `at` on folded in.
pub fn hash_words(bytes: &[u8], at: usize, n: usize, h: u64) -> u64
    requires { (at + 8 * n ≤ length bytes.now) × (h < 8589934592) }
    ensures { (result ≡ hash_from n at h bytes.now) × (result < 8589934592) }
{
    let mut hash = h;
    for i in 0..n {
        hash = mix(hash, get64(bytes, at + 8 * i));
    }
    hash
}

// One word more: the product's two halves added.
pub fn mix(h: u64, word: u64) -> u64
    requires { h < 8589934592 }
    ensures { (result ≡ mixed h word) × (result < 8589934592) }
{
    let sum = h * 461845907 + word % 4294967296 + word / 4294967296 * 433494437;
    sum % 4294967296 + sum / 4294967296
}

// The bucket of a hash among `room`, by bits from its middle once it is multiplied.
pub fn bucket_of(hash: u64, room: usize) -> usize
    requires { (hash < 8589934592) × (0 < room) }
    ensures { (result ≡ bucket_of room hash) × (result < room) }
{
    (mix(hash, 0) / 1024) as usize % room
}
