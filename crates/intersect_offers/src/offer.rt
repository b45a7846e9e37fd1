// What an arc of the table read offers a configuration.
ghost use Rattle.std.specs.Prelude.{◌≡◌, ◌+◌, ◌*◌, ◌≤◌, length};
ghost use Rattle.intersect_config.specs.Configs.{GoodConfig, config_at, Row, row_size};
ghost use Rattle.intersect_offers.specs.Offers.{TellsViable, Offerable, OffersIn};
ghost use Rattle.automata.specs.Layout.{delays_size};

use crate::plan::Plan;
use delays::viable;
use intersect_config::config::{lengths_on, too_long};
use intersect_config::step::follow;
use table::arc::source_at;
use table::bytes::get16;
use table::layout::ARC_SIZE;
use table::record::InputState;

// No step, a compatible and viable step that is too long, or a step to a successor.
#[derive(Clone, Copy)]
pub enum Kind {
    Nothing,
    Late,
    To,
}

// Whether the configuration in the row is viable, by the closing delays in the work space.
pub fn viable_config(plan: Plan, row: &[u8], work: &[u8]) -> bool
    requires { (plan.pairs.used ≤ 4) × (GoodConfig plan.pairs.used (config_at 0 row.now))
        × (length row.now ≡ row_size) × (plan.room.delays + delays_size * (config_at 0 row.now).state.0 + delays_size
        ≤ length work.now) }
    ensures { TellsViable plan.room.delays plan.pairs.used (config_at 0 row.now)
        work.now result }
{
    let firsts = lengths_on(false, row);
    let seconds = lengths_on(true, row);
    let state = InputState(get16(row, 0));
    viable(
        work,
        plan.room.delays,
        state,
        plan.pairs.used,
        firsts,
        seconds,
    )
}

// What the arc with number `j` offers the configuration in `own`; the successor, where it is one, is written over the
// row.
pub fn offer(plan: Plan, own: &[u8], arcs: &[u8], j: usize, work: &[u8], row: &mut [u8]) -> Kind
    requires { Offerable plan (config_at 0 own.now) arcs.now j work.now × (length own.now ≡ row_size)
        × Row plan.pairs.used row.old }
    ensures { OffersIn plan own.now arcs.now j work.now result row.new }
{
    let at = ARC_SIZE * j;
    if source_at(arcs, at).0 != get16(own, 0) {
        return Kind::Nothing;
    }
    if !follow(own, arcs, at, plan.pairs, row) {
        return Kind::Nothing;
    }
    if !viable_config(plan, row, work) {
        return Kind::Nothing;
    }
    if too_long(row, plan.pairs) {
        Kind::Late
    } else {
        Kind::To
    }
}
