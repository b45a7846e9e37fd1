// The least weight of a tuple: combinations of positions are worked off from the last to the first, so that an arc with
// a symbol that leads to one comes from one that is not done; the least over the initial states at the first is the
// answer.
ghost use Rattle.std.specs.Prelude.{◌≡◌, length};
ghost use Rattle.automata.specs.Automaton.{Tuple};
ghost use Rattle.automata.specs.OrderedSum.{ℕ_sum};
ghost use Rattle.automata.specs.Lookup.{lookup};
ghost use Rattle.automata.specs.Memory.{table_of};
ghost use Rattle.table.specs.Answers.{memory};
ghost use Rattle.table.specs.Records.{option_of};
ghost use Rattle.lookup_tuple.specs.Strings.{Stands};
ghost use Rattle.lookup_cells.specs.Pushes.{Marking};
ghost use Rattle.lookup_cells.specs.Fillable.{Fillable, CellsFilled};
ghost use Rattle.lookup_cells.specs.Recall.{Fresh};
ghost use Rattle.lookup_labels.specs.Numbers.{Numbered};

use crate::chain::{chain_arcs, no_chains};
use crate::ends::{least_from, start_states};
use crate::push::settle;
use crate::queue::no_states;
use crate::recall::no_memo;
use lookup_labels::{no_numbers, number_labels};
use lookup_moves::cell::clear_cells;
use lookup_moves::spot::{spans_of, spot_at};
use lookup_tuple::Strings;
use table::lent::Table;

// Every cell, by the chains of the arcs and the numbers of their labels.
fn fill(
    table: &Table,
    text: &[u8],
    strings: Strings,
    numbers: &[u16],
    memo: &mut [usize],
    index: &[u16],
    queue: &mut [u16],
    work: &mut [u8],
)
    requires { Fillable (memory table.now) text.now strings (length work.old)
        × Marking table.now.counts table.now.arcs.now index.now queue.old
        × Numbered table.now.counts.tapes table.now.counts.arcs table.now.arcs.now numbers.now
        × Fresh 18446744073709551615 memo.old }
    ensures { CellsFilled (memory table.now) text.now strings work.new }
{
    let Table {
        counts,
        states,
        arcs,
    } = *table;
    let spans = spans_of(strings);
    clear_cells(work);
    start_states(states, counts.states, spans.all, work);
    for number in (0..spans.all).rev() {
        let spot = spot_at(strings, spans, number);
        settle(counts, arcs, text, spot, numbers, memo, index, queue, work);
    }
}

// Every cell.
pub fn fill_cells(table: &Table, text: &[u8], strings: Strings, work: &mut [u8])
    requires { Fillable (memory table.now) text.now strings (length work.old) }
    ensures { CellsFilled (memory table.now) text.now strings work.new }
{
    let mut index = no_chains();
    chain_arcs(table.counts, table.arcs, &mut index);
    let mut numbers = no_numbers();
    number_labels(table.counts, table.arcs, &mut numbers);
    let mut memo = no_memo();
    let mut queue = no_states();
    fill(
        table, text, strings, &numbers, &mut memo, &index, &mut queue, work,
    );
}

// The least weight of the strings in the table, or none.
pub fn least_weight(table: &Table, text: &[u8], strings: Strings, work: &mut [u8]) -> Option<u64>
    requires { Fillable (memory table.now) text.now strings (length work.old) }
    ensures { (t : Tuple) → Stands text.now t strings → length t ≡ table.now.counts.tapes → option_of result
        ≡ lookup ℕ_sum (table_of (memory table.now)) t }
{
    fill_cells(table, text, strings, work);
    let spans = spans_of(strings);
    least_from(table.states, table.counts.states, spans.all, work)
}
