// Lists of pairs, judged for an auto-intersection, for a forecast and for a join: each line is an answer with the pairs
// by value, each with its limit, for a join also as they are named in the product. The lists stand in the file `stdin`,
// in the form that the crate `cases` reads.
#![tactic(auto)]

ghost use Rattle.std.specs.Prelude.{◌+◌, ◌≤◌};

use cases::input::{bytes, number, run_all};
use pairs::{judge_join_pairs, judge_pairs, judge_tapes, moved_pairs};
use table::answer::Refusal;
use table::pair::{Pair, PairList};

// The digit of a number, '?' above 9.
fn digit_of(n: u8) -> u8 {
    if n < 10 { b'0' + n } else { b'?' }
}

// A number as one digit.
fn digit(n: u8) {
    io::write_all(1, &[digit_of(n)]);
}

// A pair and its limit.
fn show_pair(p: &Pair) {
    io::write_all(1, b" ");
    digit(p.first);
    io::write_all(1, b"-");
    digit(p.second);
    io::write_all(1, b":");
    io::print_decimal(1, u64::from(p.limit));
}

// The pairs that are used.
fn show_pairs(pairs: PairList) {
    for p in pairs.pairs.iter().take(pairs.used) {
        show_pair(p);
    }
}

// The number of a refusal.
fn show_refusal(why: Refusal) {
    io::write_all(1, b"refused ");
    digit(u8::from(why));
}

// A list that was judged for an auto-intersection or for a forecast.
fn show(judged: Result<PairList, Refusal>) {
    match judged {
        Ok(pairs) => {
            io::write_all(1, b"fine");
            show_pairs(pairs);
        }
        Err(why) => show_refusal(why),
    }
    io::write_all(1, b"\n");
}

// A list for a join of tables with n and m tapes.
fn join(bytes: &[u8], n: usize, m: usize)
    requires { n + m ≤ 255 }
{
    match judge_join_pairs(bytes, n, m) {
        Ok(pairs) => {
            io::write_all(1, b"fine");
            show_pairs(pairs);
            io::write_all(1, b" as");
            show_pairs(moved_pairs(pairs, n));
        }
        Err(why) => show_refusal(why),
    }
    io::write_all(1, b"\n");
}

// The case whose line begins at a place: its kind, the numbers of tapes, and the pairs with their limits.
fn case(input: &[u8], at: usize) {
    let mut list = [0; 18];
    let used = bytes(input, at, 3, &mut list);
    let n = number(input, at, 1);
    let m = number(input, at, 2);
    if 100 < n || 100 < m {
        return;
    }
    match u8::try_from(number(input, at, 0)) {
        Ok(b'K') => show(judge_pairs(&list[..used], n)),
        Ok(b'F') => show(judge_tapes(&list[..used], n)),
        _ => join(&list[..used], n, m),
    }
}

fn main() {
    run_all(case);
}
