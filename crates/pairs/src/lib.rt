// Lists of pairs of tapes as they are lent, three bytes a pair: judged over the whole list, and read into an array of
// four by value. The tests on pairs by value serve lists lent as records, too.
#![tactic(auto)]

ghost use Rattle.std.specs.Prelude.{◌≡◌, true, map, ◌≤◌, ◌<◌, leb, get_or, take};
ghost use Rattle.automata.specs.Limits.{max_pairs};
ghost use Rattle.automata.specs.Lists.{and};
ghost use Rattle.automata.specs.TapePair.{tapes_of, limits_fit};
ghost use Rattle.automata.specs.IntersectCall.{distinct, named};
ghost use Rattle.automata.specs.Projection.{is_tape};
ghost use Rattle.automata.specs.Join.{within};
ghost use Rattle.table.specs.Pairs.{pairs_as};
ghost use Rattle.pairs.specs.PairTests.{sides_once};
ghost use Rattle.pairs.specs.PairBytes.{pairs_of, pair_at};
ghost use Rattle.pairs.specs.Judgement.{FirstFour, Decided, KeepJudged, JoinJudged, TapesJudged, DecidesKeep, DecidesJoin, DecidesTapes, Movable, Moved, moved_at};

use table::answer::Refusal;
use table::bytes::copy_into;
use table::pair::{MAX_LIMIT, PAIR, Pair, PairList};

// Whether no number stands twice in a list.
pub fn all_distinct(numbers: &[u8]) -> bool
    ensures { result ≡ distinct numbers.now }
{
    for (i, k) in numbers.iter().enumerate() {
        if numbers[i + 1..].contains(k) {
            return false;
        }
    }
    true
}

// Whether j is one of n tapes, counted from 1.
pub fn is_tape(n: usize, j: u8) -> bool
    ensures { result ≡ is_tape n j }
{
    (1..=n).contains(&usize::from(j))
}

// Whether every pair of the list has its first tape among n and its second among m.
fn all_within(bytes: &[u8], n: usize, m: usize) -> bool
    ensures { result ≡ within n m (tapes_of (pairs_of bytes.now)) }
{
    for pair in bytes.chunks_exact(PAIR) {
        if !is_tape(n, pair[0]) || !is_tape(m, pair[1]) {
            return false;
        }
    }
    true
}

// The byte at a place, 0 where the list has ended.
fn byte_at(bytes: &[u8], at: usize) -> u8
    ensures { result ≡ get_or bytes.now at 0 }
{
    if at < bytes.len() { bytes[at] } else { 0 }
}

// The pair in the three bytes at a place.
fn pair_at(bytes: &[u8], at: usize) -> Pair
    requires { at < 12 }
    ensures { result ≡ pair_at bytes.now at }
{
    Pair {
        first: byte_at(bytes, at),
        second: byte_at(bytes, at + 1),
        limit: byte_at(bytes, at + 2),
    }
}

// The first four pairs of the list by value, and how many it has.
fn read_pairs(bytes: &[u8]) -> PairList
    ensures { FirstFour (pairs_of bytes.now) result }
{
    PairList {
        pairs: [
            pair_at(bytes, 0),
            pair_at(bytes, PAIR),
            pair_at(bytes, 2 * PAIR),
            pair_at(bytes, 3 * PAIR),
        ],
        used: bytes.len() / PAIR,
    }
}

// The first tapes.
fn firsts_of(pairs: PairList) -> [u8; 4]
    ensures { take pairs.used result ≡ map (λ p. p.first) (tapes_of (pairs_as pairs)) }
{
    pairs.pairs.map(|p| p.first)
}

// The second tapes.
fn seconds_of(pairs: PairList) -> [u8; 4]
    ensures { take pairs.used result ≡ map (λ p. p.second) (tapes_of (pairs_as pairs)) }
{
    pairs.pairs.map(|p| p.second)
}

// Whether all tapes that the pairs name differ.
fn named_once(pairs: PairList) -> bool
    requires { pairs.used ≤ 4 }
    ensures { result ≡ distinct (named (tapes_of (pairs_as pairs))) }
{
    let used = pairs.used;
    let mut tapes = [0; 8];
    copy_into(&mut tapes, 0, &firsts_of(pairs));
    copy_into(&mut tapes, used, &seconds_of(pairs));
    all_distinct(&tapes[..2 * used])
}

// Whether the first tapes differ and the second tapes differ.
fn sides_once(pairs: PairList) -> bool
    requires { pairs.used ≤ 4 }
    ensures { result ≡ sides_once (tapes_of (pairs_as pairs)) }
{
    let used = pairs.used;
    all_distinct(&firsts_of(pairs)[..used]) && all_distinct(&seconds_of(pairs)[..used])
}

// Test 6 of an auto-intersection: at most four pairs, and no tape named twice.
fn keep_once(list: PairList) -> bool
    ensures { result ≡ and (leb list.used max_pairs) (distinct (named (tapes_of (pairs_as list)))) }
{
    list.used <= 4 && named_once(list)
}

// Test 6 of a join: at most four pairs, and no tape twice on one side.
fn join_once(pairs: PairList) -> bool
    ensures { result ≡ and (leb pairs.used max_pairs) (sides_once (tapes_of (pairs_as pairs))) }
{
    pairs.used <= 4 && sides_once(pairs)
}

// Test 7 on the first four pairs: none that is used has a limit above 64.
fn limits_fit(list: PairList) -> bool
    ensures { result ≡ limits_fit (pairs_as list) }
{
    for h in 0..list.used.min(4) {
        if MAX_LIMIT < list.pairs[h].limit {
            return false;
        }
    }
    true
}

// The tests in their order: 5 where a tape is not there, 6 where a tape stands twice or there are too many pairs, 7 by
// the limits.
fn decide(list: PairList, inside: bool, once: bool, fit: bool) -> Result<PairList, Refusal>
    requires { once ≡ true → list.used ≤ 4 }
    ensures { Decided (pairs_as list) inside once fit result }
{
    if !inside {
        Err(Refusal::Tape)
    } else if !once {
        Err(Refusal::Pairs)
    } else if !fit {
        Err(Refusal::Limit)
    } else {
        Ok(list)
    }
}

// The tests of an auto-intersection, on the first four pairs of a list.
pub fn decide_keep(list: PairList, inside: bool) -> Result<PairList, Refusal>
    ensures { DecidesKeep list inside result }
{
    decide(list, inside, keep_once(list), limits_fit(list))
}

// The tests of a join, on the first four pairs of a list.
pub fn decide_join(list: PairList, inside: bool) -> Result<PairList, Refusal>
    ensures { DecidesJoin list inside result }
{
    decide(list, inside, join_once(list), limits_fit(list))
}

// The tests of a forecast, on the first four pairs of a list. No limit is read.
pub fn decide_tapes(list: PairList, inside: bool) -> Result<PairList, Refusal>
    ensures { DecidesTapes list inside result }
{
    decide(list, inside, keep_once(list), true)
}

// The pairs of an auto-intersection of a table: 5 over the whole list, then 6, then 7.
pub fn judge_pairs(bytes: &[u8], tapes: usize) -> Result<PairList, Refusal>
    ensures { KeepJudged (pairs_of bytes.now) tapes result }
{
    decide_keep(read_pairs(bytes), all_within(bytes, tapes, tapes))
}

// The pairs of a join of tables with n and m tapes: 5 over the whole list, then 6, then 7.
pub fn judge_join_pairs(bytes: &[u8], n: usize, m: usize) -> Result<PairList, Refusal>
    ensures { JoinJudged (pairs_of bytes.now) n m result }
{
    decide_join(read_pairs(bytes), all_within(bytes, n, m))
}

// The pairs of a forecast of a table: 5 over the whole list, then 6. No limit is read.
pub fn judge_tapes(bytes: &[u8], tapes: usize) -> Result<PairList, Refusal>
    ensures { TapesJudged (tapes_of (pairs_of bytes.now)) tapes result }
{
    decide_tapes(read_pairs(bytes), all_within(bytes, tapes, tapes))
}

// One of four pairs with its second tape moved, if it is used.
fn moved_pair(pairs: PairList, at: usize, by: usize) -> Pair
    requires { (at < 4) × Movable by pairs }
    ensures { result ≡ moved_at by pairs at }
{
    let p = pairs.pairs[at];
    if at < pairs.used {
        let second = (by + usize::from(p.second)) as u8;
        Pair { second, ..p }
    } else {
        p
    }
}

// The pairs of a join as pairs of the product: the second tapes moved behind the tapes of the first table.
pub fn moved_pairs(pairs: PairList, by: usize) -> PairList
    requires { Movable by pairs }
    ensures { Moved by pairs result }
{
    PairList {
        pairs: [
            moved_pair(pairs, 0, by),
            moved_pair(pairs, 1, by),
            moved_pair(pairs, 2, by),
            moved_pair(pairs, 3, by),
        ],
        used: pairs.used,
    }
}
