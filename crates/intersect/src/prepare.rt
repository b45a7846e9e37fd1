// What is judged before any configuration is reached: the table, the pairs with their limits, the work space.
ghost use Rattle.intersect.specs.Prepared.{PreparesFor};

use intersect_offers::plan::Plan;
use intersect_room::room::room_for;
use table::answer::Refusal;
use table::judge::judge;
use table::lent::Table;
use table::pair::PairList;

// The table, the pairs that were judged and the work space of so many bytes for a result of so many states and arcs, in
// this order: the first refusal, and where there is none what the search reads.
pub fn prepare(
    table: &Table,
    listed: Result<PairList, Refusal>,
    lent_states: usize,
    lent_arcs: usize,
    work: usize,
) -> Result<Plan, Refusal>
    ensures { PreparesFor table.now.counts table.now.states.now table.now.arcs.now listed lent_states
        lent_arcs work result }
{
    judge(table)?;
    let pairs = listed?;
    let room = room_for(lent_states, lent_arcs, table.counts.states, work).ok_or(Refusal::Space)?;
    Ok(Plan {
        counts: table.counts,
        pairs,
        room,
    })
}
