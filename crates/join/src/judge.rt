// What is judged before any step of a join: the first table, the second, their width, the pairs with their limits, the
// work space.
ghost use Rattle.std.specs.Prelude.{◌≡◌, ◌+◌, leb};
ghost use Rattle.automata.specs.Limits.{max_tapes};
ghost use Rattle.table.specs.Answers.{memory};
ghost use Rattle.intersect_room.specs.Room.{lent_space};
ghost use Rattle.join.specs.Judged.{PreparesFor};

use crate::room::join_room;
use intersect_room::room::Room;
use table::answer::Refusal;
use table::judge::judge;
use table::lent::Table;
use table::pair::PairList;

// Whether tables with n and m tapes have at most eight together.
fn width_fits(n: usize, m: usize) -> bool
    ensures { result ≡ leb (n + m) max_tapes }
{
    n <= 8 && m <= 8 - n
}

// What a join needs to know for its steps: the pairs by value, and the room of the build.
#[derive(Clone, Copy)]
pub struct Prepared {
    pub pairs: PairList,
    pub room: Room,
}

// The tables, the pairs that were judged, and the work space of so many bytes for a product and a result of so many
// states and arcs.
pub fn judge_join(
    first: &Table,
    second: &Table,
    listed: Result<PairList, Refusal>,
    product_states: usize,
    product_arcs: usize,
    states: usize,
    arcs: usize,
    work: usize,
) -> Result<Prepared, Refusal>
    ensures { PreparesFor (memory first.now) (memory second.now) listed
        (lent_space product_states product_arcs) (lent_space states arcs) work result }
{
    judge(first)?;
    judge(second)?;
    if !width_fits(first.counts.tapes, second.counts.tapes) {
        return Err(Refusal::Width);
    }
    let pairs = listed?;
    let room = join_room(product_states, product_arcs, states, arcs, work).ok_or(Refusal::Space)?;
    Ok(Prepared { pairs, room })
}
