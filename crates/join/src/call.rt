// The call: a refusal before any step, the steps, and the product's space and the work space cleared.
ghost use Rattle.std.specs.Prelude.{◌≡◌, List};
ghost use Rattle.automata.specs.TapePair.{TapePair};
ghost use Rattle.automata.specs.Calls.Outcome.{space_of, put, made_of, joined_of, slices_of};
ghost use Rattle.automata.specs.Calls.Join.{join_answer, join_outcome};
ghost use Rattle.table.specs.Answers.{memory, table_as};
ghost use Rattle.pairs.specs.PairBytes.{pairs_of};
ghost use Rattle.pairs.specs.Judgement.{JoinJudged};
ghost use Rattle.join.specs.Judged.{Listed};

use crate::judge::judge_join;
use join_steps::steps::join_steps;
use pairs::judge_join_pairs;
use table::answer::{Counts, Refusal};
use table::bytes::zero;
use table::layout::{ARC_SIZE, STATE_SIZE};
use table::lent::Table;
use table::pair::PairList;

// The answer of the call on pairs that were judged, with whatever is left in the product's space and in work space.
fn build(
    first: &Table,
    second: &Table,
    listed: Result<PairList, Refusal>,
    product_states: &mut [u8],
    product_arcs: &mut [u8],
    out_states: &mut [u8],
    out_arcs: &mut [u8],
    work: &mut [u8],
) -> Result<Counts, Refusal>
    requires { Listed first.now.counts.tapes second.now.counts.tapes listed }
    ensures { (ps : List TapePair) → JoinJudged ps first.now.counts.tapes second.now.counts.tapes listed
        → made_of (table_as result) out_states.new out_arcs.new
        ≡ put (join_answer (memory first.now) (memory second.now) ps
        (space_of (slices_of product_states.old product_arcs.old))
        (space_of (slices_of out_states.old out_arcs.old)) work.old)
        (slices_of out_states.old out_arcs.old) }
{
    let prepared = judge_join(
        first,
        second,
        listed,
        product_states.len() / STATE_SIZE,
        product_arcs.len() / ARC_SIZE,
        out_states.len() / STATE_SIZE,
        out_arcs.len() / ARC_SIZE,
        work.len(),
    )?;
    join_steps(
        first,
        second,
        prepared.pairs,
        prepared.room,
        product_states,
        product_arcs,
        out_states,
        out_arcs,
        work,
    )
}

// The join on pairs that were judged for these tables. The product's space and the work space are zero afterwards.
pub fn join_judged(
    first: &Table,
    second: &Table,
    listed: Result<PairList, Refusal>,
    product_states: &mut [u8],
    product_arcs: &mut [u8],
    out_states: &mut [u8],
    out_arcs: &mut [u8],
    work: &mut [u8],
) -> Result<Counts, Refusal>
    requires { Listed first.now.counts.tapes second.now.counts.tapes listed }
    ensures { (ps : List TapePair) → JoinJudged ps first.now.counts.tapes second.now.counts.tapes listed
        → joined_of (table_as result) out_states.new out_arcs.new product_states.new
        product_arcs.new work.new
        ≡ join_outcome (memory first.now) (memory second.now) ps
        (slices_of product_states.old product_arcs.old)
        (slices_of out_states.old out_arcs.old) work.old }
{
    let answer = build(
        first,
        second,
        listed,
        product_states,
        product_arcs,
        out_states,
        out_arcs,
        work,
    );
    zero(product_states);
    zero(product_arcs);
    zero(work);
    answer
}

// The join of the first table with the second, on pairs of a tape of the first and one of the second, three bytes a
// pair, each with its own limit: the product in its own space, what agrees on the pairs into `out_states` and
// `out_arcs`, and the second tapes dropped there. The product's space and the work space are zero afterwards.
pub fn join(
    first: &Table,
    second: &Table,
    pairs: &[u8],
    product_states: &mut [u8],
    product_arcs: &mut [u8],
    out_states: &mut [u8],
    out_arcs: &mut [u8],
    work: &mut [u8],
) -> Result<Counts, Refusal>
    ensures { joined_of (table_as result) out_states.new out_arcs.new
        product_states.new product_arcs.new work.new
        ≡ join_outcome (memory first.now) (memory second.now) (pairs_of pairs.now)
        (slices_of product_states.old product_arcs.old)
        (slices_of out_states.old out_arcs.old) work.old }
{
    let listed = judge_join_pairs(pairs, first.counts.tapes, second.counts.tapes);
    join_judged(
        first,
        second,
        listed,
        product_states,
        product_arcs,
        out_states,
        out_arcs,
        work,
    )
}
