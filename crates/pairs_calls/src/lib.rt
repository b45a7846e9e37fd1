// The calls that take pairs of tapes, over pairs lent as records.
#![tactic(auto)]

ghost use Rattle.std.specs.Prelude.{◌≡◌, map};
ghost use Rattle.automata.specs.Calls.Outcome.{built_of, joined_of, slices_of};
ghost use Rattle.automata.specs.Calls.Intersect.{intersect_outcome};
ghost use Rattle.automata.specs.Calls.Join.{join_outcome};
ghost use Rattle.table.specs.Answers.{memory, table_as};
ghost use Rattle.table.specs.Pairs.{pair_as};

use intersect::call::intersect_judged;
use join::call::join_judged;
use pairs_records::{judge_join_records, judge_records};
use table::answer::{Counts, Refusal};
use table::lent::Table;
use table::pair::Pair;

// Keeping the accounts that agree: the auto-intersection of a table on pairs of its tapes, each held to its own limit,
// into `out_states` and `out_arcs`. Work space is zero afterwards.
pub fn intersect(
    table: &Table,
    pairs: &[Pair],
    out_states: &mut [u8],
    out_arcs: &mut [u8],
    work: &mut [u8],
) -> Result<Counts, Refusal>
    ensures { built_of (table_as result)
        out_states.new out_arcs.new work.new ≡ intersect_outcome
        (memory table.now) (map pair_as pairs.now)
        (slices_of out_states.old out_arcs.old) work.old }
{
    let listed = judge_records(pairs, table.counts.tapes);
    intersect_judged(table, listed, out_states, out_arcs, work)
}

// The join of the first table with the second, on pairs of a tape of the first and one of the second, each held to its
// own limit: the product in its own space, what agrees on the pairs into `out_states` and `out_arcs`, and the second
// tapes dropped there. The product's space and the work space are zero afterwards.
pub fn join(
    first: &Table,
    second: &Table,
    pairs: &[Pair],
    product_states: &mut [u8],
    product_arcs: &mut [u8],
    out_states: &mut [u8],
    out_arcs: &mut [u8],
    work: &mut [u8],
) -> Result<Counts, Refusal>
    ensures { joined_of (table_as result) out_states.new out_arcs.new
        product_states.new product_arcs.new work.new
        ≡ join_outcome (memory first.now) (memory second.now) (map pair_as pairs.now)
        (slices_of product_states.old product_arcs.old) (slices_of out_states.old out_arcs.old) work.old }
{
    let listed = judge_join_records(pairs, first.counts.tapes, second.counts.tapes);
    join_judged(
        first,
        second,
        listed,
        product_states,
        product_arcs,
        out_states,
        out_arcs,
        work,
    )
}
