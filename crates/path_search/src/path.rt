// The path behind the weight of a tuple: the cells filled, the least weight, the search over tight arcs, and the arcs
// of the path it finds in a lent list.
ghost use Rattle.std.specs.Prelude.{◌≡◌, ◌*◌, ◌≤◌, ◌<◌, length};
ghost use Rattle.std.proofs.Math.Option.{some};
ghost use Rattle.automata.specs.Automaton.{Tuple};
ghost use Rattle.automata.specs.OrderedSum.{ℕ_sum};
ghost use Rattle.automata.specs.LeastPath.{least_path};
ghost use Rattle.automata.specs.LeastPathCall.{listed};
ghost use Rattle.automata.specs.Memory.{table_of};
ghost use Rattle.automata.specs.Calls.LeastPath.{places_in, told_answer, path_in};
ghost use Rattle.automata.specs.Layout.{state_size};
ghost use Rattle.table_adjacency.specs.Chains.{Chainable};
ghost use Rattle.table.specs.Answers.{memory};
ghost use Rattle.lookup_tuple.specs.Strings.{Stands};
ghost use Rattle.lookup_moves.specs.Distances.{cells_of};
ghost use Rattle.path_search.specs.Search.{search_of, enter_starts, search_from};
ghost use Rattle.path_search.specs.FirstPath.{Kept};
ghost use Rattle.path_search.specs.Tight.{next_cell, start_cell, end_cell};
ghost use Rattle.path_search.specs.Answers.{path_as};
ghost use Rattle.table.specs.Records.{option_of};
ghost use Rattle.path_search.specs.Searchable.{Searchable, Weights};
ghost use Rattle.path_search.specs.Trail.{Retraceable, count_back, CanCount, CanWalk};
ghost use Rattle.path_search.specs.Traced.{Traceable, traced};

use crate::answer::{PathTold, Searched};
use crate::search::{enter_starts, search};
use crate::trail::{count_arcs, write_arcs};
use lookup_cells::ends::least_from;
use lookup_cells::fill::fill_cells;
use lookup_moves::spot::{Spans, spans_of};
use lookup_tuple::Strings;
use table::answer::{Counts, Refusal};
use table::lent::Table;
use table_adjacency::chain_arcs;

// The first cell at which a path of the least weight ends.
fn search_cells(
    table: &Table,
    text: &[u8],
    strings: Strings,
    spans: Spans,
    least: u64,
    work: &mut [u8],
) -> Searched
    requires { (state_size * table.now.counts.states ≤ length table.now.states.now)
        × Searchable table.now.counts table.now.arcs.now text.now strings spans
        × Chainable table.now.counts.states table.now.counts.arcs table.now.arcs.now 1024 8192
        × Weights (table.now.counts.states * spans.all) work.old
        × Kept (table.now.counts.states * spans.all) (search_of (cells_of work.old) 0) }
    ensures { ((option_of result.end, search_of (cells_of work.new) result.found)
        ≡ search_from (table.now.counts.states * spans.all)
        (next_cell table.now.counts table.now.arcs.now text.now strings spans (cells_of work.old))
        table.now.counts.arcs (end_cell table.now.states.now spans.all (cells_of work.old))
        (table.now.counts.states * spans.all) 0 (enter_starts (table.now.counts.states * spans.all)
        (start_cell table.now.counts.states table.now.states.now spans.all (cells_of work.old) least)
        table.now.counts.states 0 (search_of (cells_of work.old) 0)))
        × (length work.new ≡ length work.old) }
{
    let mut first = [0u16; 1024];
    let mut next = [0u16; 8192];
    chain_arcs(table.counts, table.arcs, &mut first, &mut next);
    let found = enter_starts(table.states, table.counts.states, spans.all, least, work);
    search(table, text, strings, spans, &first, &next, found, work)
}

// The path of this weight that ends at a cell, one of the `found` ones, told, with its arcs in the list; or that the
// list is too short for it.
fn list_path(
    counts: Counts,
    arcs: &[u8],
    spans: Spans,
    weight: u64,
    end: usize,
    found: usize,
    list: &mut [u8],
    work: &[u8],
) -> Result<Option<PathTold>, Refusal>
    requires { Retraceable counts arcs.now spans × (24 * (counts.states * spans.all) ≤ length work.now)
        × CanCount counts arcs.now spans (cells_of work.now) found end
        × CanWalk counts arcs.now spans (cells_of work.now)
        (count_back counts arcs.now spans (cells_of work.now) found end) end }
    ensures { (path_as result ≡ told_answer (listed (places_in list.old)
        (some (traced counts arcs.now spans (cells_of work.now) weight found end))))
        × (list.new ≡ path_in (listed (places_in list.old)
        (some (traced counts arcs.now spans (cells_of work.now) weight found end)))
        list.old) }
{
    let count = count_arcs(counts, arcs, spans, end, found, work);
    if list.len() / 2 < count {
        return Err(Refusal::Path);
    }
    let first = write_arcs(counts, arcs, spans, end, count, list, work);
    Ok(Some(PathTold {
        weight,
        start: first / spans.all,
        arcs: count,
    }))
}

// The path behind the weight of the strings in the table, told, with its arcs in the list; none where there is no
// weight.
pub fn find_path(
    table: &Table,
    text: &[u8],
    strings: Strings,
    list: &mut [u8],
    work: &mut [u8],
) -> Result<Option<PathTold>, Refusal>
    requires { Traceable (memory table.now) text.now strings (length work.old) }
    ensures { (t : Tuple) → Stands text.now t strings → length t ≡ table.now.counts.tapes
        → (path_as result ≡ told_answer (listed (places_in list.old)
        (least_path ℕ_sum (table_of (memory table.now)) t)))
        × (list.new ≡ path_in (listed (places_in list.old)
        (least_path ℕ_sum (table_of (memory table.now)) t)) list.old) }
{
    fill_cells(table, text, strings, work);
    let spans = spans_of(strings);
    let Some(least) = least_from(table.states, table.counts.states, spans.all, work) else {
        return Ok(None);
    };
    let searched = search_cells(table, text, strings, spans, least, work);
    let Some(cell) = searched.end else {
        return Ok(None);
    };
    list_path(
        table.counts,
        table.arcs,
        spans,
        least,
        cell,
        searched.found,
        list,
        work,
    )
}
