// The call: a refusal before any configuration is reached, the search, the answer by it, and work space cleared.
ghost use Rattle.std.specs.Prelude.{◌≡◌, List};
ghost use Rattle.automata.specs.TapePair.{TapePair};
ghost use Rattle.automata.specs.Calls.Outcome.{space_of, put, made_of, built_of, slices_of};
ghost use Rattle.automata.specs.Calls.Intersect.{intersect_answer, intersect_outcome};
ghost use Rattle.table.specs.Answers.{memory, table_as};
ghost use Rattle.pairs.specs.PairBytes.{pairs_of};
ghost use Rattle.pairs.specs.Judgement.{KeepJudged, Listed};

use crate::prepare::prepare;
use crate::step::reach;
use pairs::judge_pairs;
use table::answer::{Counts, Refusal};
use table::bytes::zero;
use table::layout::{ARC_SIZE, STATE_SIZE};
use table::lent::Table;
use table::pair::PairList;

// The answer of the call on pairs that were judged, with whatever is left in work space.
fn build(
    table: &Table,
    listed: Result<PairList, Refusal>,
    out_states: &mut [u8],
    out_arcs: &mut [u8],
    work: &mut [u8],
) -> Result<Counts, Refusal>
    requires { Listed table.now.counts.tapes listed }
    ensures { (ps : List TapePair) → KeepJudged ps table.now.counts.tapes listed
        → made_of (table_as result) out_states.new out_arcs.new
        ≡ put (intersect_answer (memory table.now) ps
        (space_of (slices_of out_states.old out_arcs.old)) work.old)
        (slices_of out_states.old out_arcs.old) }
{
    let plan = prepare(
        table,
        listed,
        out_states.len() / STATE_SIZE,
        out_arcs.len() / ARC_SIZE,
        work.len(),
    )?;
    reach(plan, table.states, table.arcs, out_states, out_arcs, work)
}

// Keeping the accounts that agree on pairs that were judged for this table. Work space is zero afterwards.
pub fn intersect_judged(
    table: &Table,
    listed: Result<PairList, Refusal>,
    out_states: &mut [u8],
    out_arcs: &mut [u8],
    work: &mut [u8],
) -> Result<Counts, Refusal>
    requires { Listed table.now.counts.tapes listed }
    ensures { (ps : List TapePair) → KeepJudged ps table.now.counts.tapes listed
        → built_of (table_as result) out_states.new out_arcs.new work.new
        ≡ intersect_outcome (memory table.now) ps
        (slices_of out_states.old out_arcs.old) work.old }
{
    let answer = build(table, listed, out_states, out_arcs, work);
    zero(work);
    answer
}

// Keeping the accounts that agree: the auto-intersection of a table on pairs of its tapes, three bytes a pair, each
// with its own limit, into `out_states` and `out_arcs`. Work space is zero afterwards.
pub fn intersect(
    table: &Table,
    pairs: &[u8],
    out_states: &mut [u8],
    out_arcs: &mut [u8],
    work: &mut [u8],
) -> Result<Counts, Refusal>
    ensures { built_of (table_as result) out_states.new out_arcs.new work.new
        ≡ intersect_outcome (memory table.now) (pairs_of pairs.now)
        (slices_of out_states.old out_arcs.old) work.old }
{
    let listed = judge_pairs(pairs, table.counts.tapes);
    intersect_judged(table, listed, out_states, out_arcs, work)
}
