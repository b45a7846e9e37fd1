// The step of a configuration by an arc, whose record stands in a table's bytes.
ghost use Rattle.std.specs.Prelude.{◌≡◌, ◌+◌, ◌-◌, ◌≤◌, length, get_or};
ghost use Rattle.table.specs.Arcs.{label_place};
ghost use Rattle.table.specs.Pairs.{Within};
ghost use Rattle.intersect_config.specs.Leftovers.{Advances, leftover_at};
ghost use Rattle.intersect_config.specs.Configs.{config_at, slot, Row, row_size};
ghost use Rattle.intersect_config.specs.Steps.{label_at, read_label, pair_after, Advanceable, AdvancesAt, Followable, FollowsIn};
ghost use Rattle.automata.specs.Layout.{arc_size};
ghost use Rattle.automata.specs.Limits.{max_delay};

use crate::leftover::{LEFTOVER_SIZE, Leftover, advance, load_leftover, store_leftover};
use table::arc::{label_length_at, label_place, target_at};
use table::bytes::{copy_into, put16};
use table::layout::SYMBOLS_PLACE;
use table::pair::{Pair, PairList};
use table::record::Label;
use table::symbol::read_symbol;

// The label on a tape, counted from 1, of the arc whose record stands at `at`.
pub fn label_at(arcs: &[u8], at: usize, tape: u8) -> Label
    requires { (at + arc_size ≤ length arcs.now) × ((1 ≤ tape) × (tape ≤ 8)) }
    ensures { result ≡ label_at at tape arcs.now }
{
    let index = tape as usize - 1;
    let from = label_place(at, index) + SYMBOLS_PLACE;
    let mut symbols = [0u8; 8];
    copy_into(&mut symbols, 0, &arcs[from..from + 8]);
    Label {
        len: label_length_at(arcs, at, index),
        symbols,
    }
}

// A label as it is compared: each of its symbols read. Only what is read otherwise is stored: most labels stay as they
// are, and one that no byte is stored in is copied faster.
fn read_label(x: Label) -> Label
    requires { x.len ≤ 8 }
    ensures { result ≡ read_label x }
{
    let mut symbols = x.symbols;
    for i in 0..x.len as usize {
        let written = symbols[i];
        let read = read_symbol(written);
        if read != written {
            symbols[i] = read;
        }
    }
    Label {
        len: x.len,
        symbols,
    }
}

// What is left of one pair after the arc, where its tapes are compatible.
fn advance_pair(l: Leftover, arcs: &[u8], at: usize, p: Pair) -> Option<Leftover>
    requires { (at + arc_size ≤ length arcs.now)
        × ((Within 8 p) × ((l.len ≤ max_delay)
        × ((get_or arcs.now (label_place at (p.first - 1)) 0 ≤ 8)
        × (get_or arcs.now (label_place at (p.second - 1)) 0 ≤ 8)))) }
    ensures { Advances (pair_after at arcs.now p l) result }
{
    let x = read_label(label_at(arcs, at, p.first));
    let y = read_label(label_at(arcs, at, p.second));
    advance(l, x, y)
}

// What is left of pair i of the configuration in `own` after the arc, written in its place of the row. Tells whether
// its tapes are compatible.
fn advance_slot(own: &[u8], arcs: &[u8], at: usize, p: Pair, i: usize, row: &mut [u8]) -> bool
    requires { Advanceable own.now arcs.now at p i row.old }
    ensures { AdvancesAt (pair_after at arcs.now p (leftover_at (slot i) own.now)) (slot i)
        row.old result row.new }
{
    let l = load_leftover(own, 2 + LEFTOVER_SIZE * i);
    let Some(left) = advance_pair(l, arcs, at, p) else {
        return false;
    };
    store_leftover(row, 2 + LEFTOVER_SIZE * i, left);
    true
}

// The configuration after the arc whose record stands at `at`, written over the row. Tells whether the tapes of every
// pair are compatible.
pub fn follow(own: &[u8], arcs: &[u8], at: usize, pairs: PairList, row: &mut [u8]) -> bool
    requires { Followable (config_at 0 own.now) arcs.now at pairs × (length own.now ≡ row_size)
        × Row pairs.used row.old }
    ensures { FollowsIn own.now arcs.now at pairs result row.new }
{
    put16(row, 0, target_at(arcs, at).0);
    for i in 0..pairs.used {
        if !advance_slot(own, arcs, at, pairs.pairs[i], i, row) {
            return false;
        }
    }
    true
}
