// Configurations in their records: the state, and what is left of each of four pairs of tapes; and what is asked of
// them.
ghost use Rattle.std.specs.Prelude.{◌≡◌, ◌+◌, ◌≤◌, length};
ghost use Rattle.automata.specs.Lists.{All};
ghost use Rattle.automata.specs.Config.{too_long};
ghost use Rattle.table.specs.Region.{part};
ghost use Rattle.table.specs.Pairs.{pairs_as};
ghost use Rattle.intersect_config.specs.Leftovers.{Good, on_tape, leftover_as, leftover_at, leftover_size};
ghost use Rattle.intersect_config.specs.Configs.{GoodConfig, Starts, config_as, lengths_on, config_bytes, config_at, row_size};

use crate::leftover::LEFTOVER_SIZE;
use table::bytes::{copy_into, put16};
use table::pair::PairList;
use table::record::InputState;

// The bytes of a configuration: its state 2, each of four leftovers 74.
pub const ROW_SIZE: usize = 298;

// Where the leftovers stand.
const FIRST_SLOT: usize = 2;

const SECOND_SLOT: usize = FIRST_SLOT + LEFTOVER_SIZE;

const THIRD_SLOT: usize = SECOND_SLOT + LEFTOVER_SIZE;

const FOURTH_SLOT: usize = THIRD_SLOT + LEFTOVER_SIZE;

// The record of the configuration in which a path starts.
pub fn start_row(state: InputState) -> [u8; ROW_SIZE]
    ensures { Starts state.0 (config_at 0 result) × (config_bytes (config_at 0 result) ≡ result) }
{
    let mut row = [0u8; ROW_SIZE];
    put16(&mut row, 0, state.0);
    row
}

// The bytes of the record at `at`.
pub fn load_row(work: &[u8], at: usize) -> [u8; ROW_SIZE]
    requires { at + row_size ≤ length work.now }
    ensures { result ≡ part at row_size work.now }
{
    let mut row = [0u8; ROW_SIZE];
    copy_into(&mut row, 0, &work[at..at + ROW_SIZE]);
    row
}

// Whether some leftover is longer than the limit of its pair.
pub fn too_long(row: &[u8], pairs: PairList) -> bool
    requires { (GoodConfig pairs.used (config_at 0 row.now)) × (pairs.used ≤ 4) × (length pairs.pairs ≡ 4)
        × (length row.now ≡ row_size) }
    ensures { result ≡ too_long (pairs_as pairs) (config_as pairs.used (config_at 0 row.now)).leftovers }
{
    for i in 0..pairs.used {
        if pairs.pairs[i].limit < row[3 + LEFTOVER_SIZE * i] {
            return true;
        }
    }
    false
}

// How many symbols of the leftover at `at` are on the second tape, or on the first.
fn length_on(second: bool, row: &[u8], at: usize) -> u8
    requires { (at + leftover_size ≤ length row.now) × Good (leftover_at at row.now) }
    ensures { result ≡ length (on_tape second (leftover_as (leftover_at at row.now))) }
{
    let ahead = row[at] == 1;
    if ahead == second { row[at + 1] } else { 0 }
}

// The lengths of the four leftovers on the second tape of each pair, or on the first.
pub fn lengths_on(second: bool, row: &[u8]) -> [u8; 4]
    requires { (length row.now ≡ row_size) × All Good (config_at 0 row.now).leftovers }
    ensures { result ≡ lengths_on second (config_at 0 row.now) }
{
    [
        length_on(second, row, FIRST_SLOT),
        length_on(second, row, SECOND_SLOT),
        length_on(second, row, THIRD_SLOT),
        length_on(second, row, FOURTH_SLOT),
    ]
}
