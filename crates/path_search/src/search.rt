// The search: the cells at which the least paths start are found first; then cells are taken up in the order found,
// until one is an end.
ghost use Rattle.std.specs.Prelude.{◌≡◌, ◌+◌, ◌*◌, ◌/◌, ◌≤◌, ◌<◌, length};
ghost use Rattle.table_adjacency.specs.Chains.{Chained};
ghost use Rattle.lookup_moves.specs.Distances.{cells_of};
ghost use Rattle.path_search.specs.Search.{no_arc, search_of, entered, enter_starts, search_from};
ghost use Rattle.path_search.specs.FirstPath.{Kept};
ghost use Rattle.path_search.specs.Tight.{next_cell, start_cell, end_cell};
ghost use Rattle.table.specs.Records.{option_of};
ghost use Rattle.path_search.specs.Searchable.{Searchable, Weights};
ghost use Rattle.automata.specs.Layout.{state_size};

use crate::answer::Searched;
use crate::enter::{NO_ARC, enter_cell};
use crate::follow::follow_arcs;
use lookup_cells::ends::from_state;
use lookup_moves::cell::{cell_number, weight_at};
use lookup_moves::spot::Spans;
use lookup_tuple::Strings;
use table::layout::STATE_SIZE;
use table::lent::Table;
use table::record::load_state;

// The cell of state q at the first combination, where a least path starts there. Tells how many cells are found.
fn enter_start(
    states: &[u8],
    count: usize,
    q: usize,
    all: usize,
    least: u64,
    found: usize,
    work: &mut [u8],
) -> usize
    requires { (state_size * count ≤ length states.now) × (q < count) × (0 < all) × Weights (count * all) work.old
        × Kept (count * all) (search_of (cells_of work.old) found) }
    ensures { (search_of (cells_of work.new) result
        ≡ entered (count * all) no_arc (start_cell count states.now all (cells_of work.old) least q)
        (search_of (cells_of work.old) found)) × (length work.new ≡ length work.old) }
{
    if from_state(states, q, all, work) == least {
        enter_cell(work, count * all, cell_number(q, all, 0), NO_ARC, found)
    } else {
        found
    }
}

// Those of so many states.
pub fn enter_starts(states: &[u8], count: usize, all: usize, least: u64, work: &mut [u8]) -> usize
    requires { (state_size * count ≤ length states.now) × (0 < all) × Weights (count * all) work.old
        × Kept (count * all) (search_of (cells_of work.old) 0) }
    ensures { (search_of (cells_of work.new) result
        ≡ enter_starts (count * all) (start_cell count states.now all (cells_of work.old) least)
        count 0 (search_of (cells_of work.old) 0))
        × (length work.new ≡ length work.old) }
{
    let mut found: usize = 0;
    for q in 0..count {
        found = enter_start(states, count, q, all, least, found, work);
    }
    found
}

// Whether a least path ends at a cell.
fn is_end(states: &[u8], all: usize, here: usize, work: &[u8]) -> bool
    requires { (0 < all) × (state_size * (here / all) + state_size ≤ length states.now)
        × (8 * here + 8 ≤ length work.now) }
    ensures { result ≡ end_cell states.now all (cells_of work.now) here }
{
    match load_state(states, STATE_SIZE * (here / all)).last {
        Some(w) => here % all + 1 == all && w as u64 == weight_at(work, here),
        None => false,
    }
}

// The first end in the order found, from the `found` cells at which paths start.
pub fn search(
    table: &Table,
    text: &[u8],
    strings: Strings,
    spans: Spans,
    first: &[u16],
    next: &[u16],
    found: usize,
    work: &mut [u8],
) -> Searched
    requires { (state_size * table.now.counts.states ≤ length table.now.states.now)
        × Searchable table.now.counts table.now.arcs.now text.now strings spans
        × Weights (table.now.counts.states * spans.all) work.old
        × Kept (table.now.counts.states * spans.all) (search_of (cells_of work.old) found)
        × Chained table.now.counts.states table.now.counts.arcs table.now.arcs.now first.now next.now }
    ensures { ((option_of result.end, search_of (cells_of work.new) result.found)
        ≡ search_from (table.now.counts.states * spans.all)
        (next_cell table.now.counts table.now.arcs.now text.now strings spans (cells_of work.old))
        table.now.counts.arcs (end_cell table.now.states.now spans.all (cells_of work.old))
        (table.now.counts.states * spans.all) 0 (search_of (cells_of work.old) found))
        × (length work.new ≡ length work.old) }
{
    let Table {
        counts,
        states,
        arcs,
    } = *table;
    let cells = counts.states * spans.all;
    let mut count = found;
    let mut head: usize = 0;
    while head < count {
        let here = weight_at(work, 2 * cells + head) as usize;
        if is_end(states, spans.all, here, work) {
            return Searched {
                end: Some(here),
                found: count,
            };
        }
        count = follow_arcs(
            counts, arcs, text, strings, spans, first, next, here, count, work,
        );
        head += 1;
    }
    Searched {
        end: None,
        found: count,
    }
}
