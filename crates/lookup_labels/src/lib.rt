// Numbers for the labels of arcs: arcs with the same number have the same labels, so that what is found out of one
// holds of the other. An arc whose labels got no number has 65,535.
#![tactic(auto)]

ghost use Rattle.std.specs.Prelude.{◌≡◌, true, ◌+◌, ◌*◌, ◌≤◌, ◌<◌, length};
ghost use Rattle.table.specs.Region.{part};
ghost use Rattle.lookup_labels.specs.Numbers.{words_at, Numbers, Numbered};
ghost use Rattle.automata.specs.Layout.{arc_size, label_size};

use search_chains::{bucket_of, hash_words};
use table::answer::Counts;
use table::arc::labels_start;
use table::bytes::get64;
use table::layout::{ARC_SIZE, LABEL_SIZE};

// Labels without a number: 65,535 is none.
pub fn no_numbers() -> [u16; 8192]
    ensures { length result ≡ 8192 }
{
    [65535; 8192]
}

// Numbers without an owner.
fn no_owners() -> [u16; 1024]
    ensures { length result ≡ 1024 }
{
    [65535; 1024]
}

// How many words of eight bytes hold the labels of so many tapes.
fn words_of(tapes: usize) -> usize
    requires { tapes ≤ 8 }
    ensures { (label_size * tapes ≤ 8 * result) × (result ≤ 9) }
{
    (LABEL_SIZE * tapes).div_ceil(8)
}

// Whether n words of eight bytes at two places of the arcs are equal.
fn same_words(arcs: &[u8], i: usize, j: usize, n: usize) -> bool
    requires { (i + 8 * n ≤ length arcs.now) × (j + 8 * n ≤ length arcs.now) }
    ensures { result ≡ true → part i (8 * n) arcs.now ≡ part j (8 * n) arcs.now }
{
    for k in 0..n {
        if get64(arcs, i + 8 * k) != get64(arcs, j + 8 * k) {
            return false;
        }
    }
    true
}

// The number of arc e's labels: k, where no arc before it has that number or the arc d, which has it, has the same
// labels; 65,535 else, and no Option, as a fixed array keeps two bytes for each number.
fn number_of(arcs: &[u8], d: usize, e: usize, k: usize, words: usize) -> u16
    requires { (arc_size * e + arc_size ≤ length arcs.now) × (k < 1024) × (words ≤ 9) }
    ensures { result < 1024 → (result ≡ k) × (d < e → words_at words arcs.now d
        ≡ words_at words arcs.now e) }
{
    if e <= d
        || same_words(
            arcs,
            labels_start(ARC_SIZE * d),
            labels_start(ARC_SIZE * e),
            words,
        )
    {
        k as u16
    } else {
        65535
    }
}

// Arc e, by the bucket of its labels; `owners` has for each number the first arc that has it.
fn number_arc(arcs: &[u8], e: usize, words: usize, owners: &mut [u16], numbers: &mut [u16])
    requires { (arc_size * e + arc_size ≤ length arcs.now) × (e < 8192) × (words ≤ 9) × (length owners.old ≡ 1024)
        × (length numbers.old ≡ 8192) }
    ensures { Numbers arcs.now e words owners.new owners.old
        numbers.new numbers.old }
{
    let k = bucket_of(hash_words(arcs, labels_start(ARC_SIZE * e), words, 0), 1024);
    let d = usize::from(owners[k]);
    numbers[e] = number_of(arcs, d, e, k, words);
    owners[k] = d.min(e) as u16;
}

// All arcs of a table, the first to the last.
pub fn number_labels(counts: Counts, arcs: &[u8], numbers: &mut [u16])
    requires { (arc_size * counts.arcs ≤ length arcs.now) × (counts.arcs ≤ 8192) × (counts.tapes ≤ 8)
        × (length numbers.old ≡ 8192) }
    ensures { Numbered counts.tapes counts.arcs arcs.now numbers.new }
{
    let words = words_of(counts.tapes);
    let mut owners = no_owners();
    for e in 0..counts.arcs {
        number_arc(arcs, e, words, &mut owners, numbers);
    }
}
