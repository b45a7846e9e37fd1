// How many moves lead out of a state of the product.
ghost use Rattle.std.specs.Prelude.{◌≡◌, ◌≤◌};
ghost use Rattle.automata.specs.Lists.{if};
ghost use Rattle.product_search.specs.Reading.{Walkable};
ghost use Rattle.product_search.specs.Searching.{Leaves, Countable, CountsMoves};

use crate::head::may_end;
use crate::plan::Plan;
use crate::vertex::Vertex;
use table::answer::Counts;
use table::record::InputState;
use table_adjacency::first_arc;

// How many arcs stand in the chain of the place with number `x`.
fn degree(counts: Counts, heads: &[u16], links: &[u16], x: InputState) -> usize
    requires { Walkable counts heads.now links.now }
    ensures { Leaves counts heads.now links.now x.0 result }
{
    let mut count: usize = 0;
    let mut j = first_arc(counts, heads, x.0);
    while j < counts.arcs {
        count += 1;
        j = links[j] as usize;
    }
    count
}

// A number where something holds, and 0 where it does not.
fn only_if(holds: bool, n: usize) -> usize
    ensures { (result ≡ if holds n 0) × (result ≤ n) }
{
    if holds { n } else { 0 }
}

// How many moves lead out of the state `c` by the arcs in chains: of both sides, and of each after the other's end.
pub fn moves_out(
    plan: Plan,
    c: Vertex,
    first_states: &[u8],
    first_heads: &[u16],
    first_links: &[u16],
    second_states: &[u8],
    second_heads: &[u16],
    second_links: &[u16],
) -> usize
    requires { Countable plan first_states.now first_heads.now first_links.now second_states.now
        second_heads.now second_links.now }
    ensures { CountsMoves plan c first_states.now first_heads.now
        first_links.now second_states.now second_heads.now
        second_links.now result }
{
    let first = degree(plan.first, first_heads, first_links, c.first);
    let second = degree(plan.second, second_heads, second_links, c.second);
    let after_first = only_if(may_end(plan.first, first_states, c.first), second);
    let after_second = only_if(may_end(plan.second, second_states, c.second), first);
    first * second + after_first + after_second
}
