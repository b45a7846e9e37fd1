// The marks of the configurations in which a path may end, by their rows.
ghost use Rattle.std.specs.Prelude.{◌≡◌, ◌++◌, map, ◌+◌, ◌*◌, ◌≤◌, length, drop};
ghost use Rattle.table.specs.Region.{part, rows};
ghost use Rattle.intersect_trim.specs.Rows.{row_state, row_plain, final_byte, Within};
ghost use Rattle.automata.specs.Layout.{config_size, state_size};

use table::bytes::get16;
use table::layout::{CONFIG_SIZE, FINAL_PLACE, PRESENT, STATE_SIZE};

// Whether the row at `at` has no leftover: the four length bytes are 0.
pub fn row_plain(work: &[u8], at: usize) -> bool
    requires { at + config_size ≤ length work.now }
    ensures { result ≡ row_plain (part at config_size work.now) }
{
    work[at + 3] == 0 && work[at + 77] == 0 && work[at + 151] == 0 && work[at + 225] == 0
}

// Where the record of the input state of the row at `at` stands.
pub fn record_place(work: &[u8], at: usize) -> usize
    requires { at + config_size ≤ length work.now }
    ensures { result ≡ state_size * row_state (part at config_size work.now) }
{
    STATE_SIZE * get16(work, at) as usize
}

// The mark of the row at `at`: no leftover, and its input state has a final weight.
fn final_mark(work: &[u8], at: usize, states: &[u8]) -> u8
    requires { (at + config_size ≤ length work.now)
        × (state_size * row_state (part at config_size work.now) + state_size ≤ length states.now) }
    ensures { result ≡ final_byte states.now (part at config_size work.now) }
{
    u8::from(row_plain(work, at) && states[record_place(work, at) + FINAL_PLACE] == PRESENT)
}

// The marks of the first `count` rows.
pub fn mark_final(work: &[u8], count: usize, states: &[u8], marks: &mut [u8])
    requires { (config_size * count ≤ length work.now) × (count ≤ length marks.old)
        × Within (length states.now) (rows 0 config_size count work.now) }
    ensures { marks.new ≡ map (final_byte states.now)
        (rows 0 config_size count work.now) ++ drop count marks.old }
{
    for k in 0..count {
        marks[k] = final_mark(work, CONFIG_SIZE * k, states);
    }
}
