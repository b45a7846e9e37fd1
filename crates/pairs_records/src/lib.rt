// Lists of pairs of tapes lent as records: each pair looked at, the first four read by value, and the list judged.
#![tactic(auto)]

ghost use Rattle.std.specs.Prelude.{◌≡◌, map, get_or};
ghost use Rattle.automata.specs.TapePair.{tapes_of};
ghost use Rattle.automata.specs.Join.{within};
ghost use Rattle.table.specs.Pairs.{pair_as, no_pair};
ghost use Rattle.pairs.specs.Judgement.{KeepJudged, JoinJudged, TapesJudged};
ghost use Rattle.pairs_records.specs.Records.{read_of};

use pairs::{decide_join, decide_keep, decide_tapes, is_tape};
use table::answer::Refusal;
use table::pair::{Pair, PairList};

// The pair at a place, or a pair of zeros past the end.
fn pair_or(pairs: &[Pair], i: usize) -> Pair
    ensures { result ≡ get_or pairs.now i no_pair }
{
    if i < pairs.len() {
        pairs[i]
    } else {
        Pair {
            first: 0,
            second: 0,
            limit: 0,
        }
    }
}

// How many pairs there are, and the first four of them.
fn read_records(pairs: &[Pair]) -> PairList
    ensures { result ≡ read_of pairs.now }
{
    PairList {
        pairs: [
            pair_or(pairs, 0),
            pair_or(pairs, 1),
            pair_or(pairs, 2),
            pair_or(pairs, 3),
        ],
        used: pairs.len(),
    }
}

// Whether every pair of the list has its first tape among n and its second among m.
fn all_records_within(pairs: &[Pair], n: usize, m: usize) -> bool
    ensures { result ≡ within n m (tapes_of (map pair_as pairs.now)) }
{
    for p in pairs {
        if !is_tape(n, p.first) || !is_tape(m, p.second) {
            return false;
        }
    }
    true
}

// The pairs of an auto-intersection of a table: 5 over the whole list, then 6, then 7.
pub fn judge_records(pairs: &[Pair], tapes: usize) -> Result<PairList, Refusal>
    ensures { KeepJudged (map pair_as pairs.now) tapes result }
{
    decide_keep(read_records(pairs), all_records_within(pairs, tapes, tapes))
}

// The pairs of a join of tables with n and m tapes: 5 over the whole list, then 6, then 7.
pub fn judge_join_records(pairs: &[Pair], n: usize, m: usize) -> Result<PairList, Refusal>
    ensures { JoinJudged (map pair_as pairs.now) n m result }
{
    decide_join(read_records(pairs), all_records_within(pairs, n, m))
}

// The pairs of a forecast of a table: 5 over the whole list, then 6. No limit is read.
pub fn judge_record_tapes(pairs: &[Pair], tapes: usize) -> Result<PairList, Refusal>
    ensures { TapesJudged (tapes_of (map pair_as pairs.now)) tapes result }
{
    decide_tapes(read_records(pairs), all_records_within(pairs, tapes, tapes))
}
