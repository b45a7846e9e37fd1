// Keeping the paths of a table that agree, from its text to the text that is written.
ghost use Rattle.std.specs.Prelude.{◌≤◌, length};
ghost use Rattle.automata.specs.Memory.{decode_table};
ghost use Rattle.automata.specs.AgreeText.{write_output};
ghost use Rattle.table.specs.Answers.{memory};
ghost use Rattle.pairs.specs.PairBytes.{pairs_of};
ghost use Rattle.agree_text.specs.Kept.{arcs_lent, kept_of, kept_text, output_lent, states_lent};
ghost use Rattle.agree_text.specs.Wrote.{Wrote};

use crate::write_refusal;
use intersect::call::intersect;
use table::layout::{
    ARC_SIZE, ARC_WIDTH, CONFIG_SIZE, DELAYS_SIZE, HEADER_WIDTH, LABEL_WIDTH, STATE_SIZE,
    STATE_WIDTH, STEP_SIZE,
};
use table::lent::Table;
use text::{read, write};

// How many states and arcs are lent to the table read and again to the result, and their bytes.
const STATES: usize = 64;

const ARCS: usize = 512;

const STATES_LENT: usize = STATES * STATE_SIZE;

const ARCS_LENT: usize = ARCS * ARC_SIZE;

// The bytes lent to the work of a build, and to the longest text of such a table.
const WORK_LENT: usize = STATES * CONFIG_SIZE + ARCS * STEP_SIZE + STATES * DELAYS_SIZE;

pub const OUTPUT_LENT: usize = HEADER_WIDTH
    + STATES * STATE_WIDTH
    + ARCS * (ARC_WIDTH + 8 * LABEL_WIDTH);

// The text of a table in the space that the program lends, or the line of its refusal.
pub fn print_table(table: &Table, output: &mut [u8]) -> usize
    requires { ((length table.now.states.now ≤ states_lent) × (length table.now.arcs.now ≤ arcs_lent))
        × (output_lent ≤ length output.old) }
    ensures { Wrote (write_output (decode_table (memory table.now))) output.old output.new result }
{
    match write(table, output) {
        Ok(n) => n,
        Err(k) => write_refusal(output, k),
    }
}

// The text of what is kept of a table in the space that the program lends.
fn keep_table(table: &Table, pairs: &[u8], output: &mut [u8]) -> usize
    requires { (length table.now.states.now ≤ states_lent) × (output_lent ≤ length output.old) }
    ensures { Wrote (write_output (kept_of (memory table.now) (pairs_of pairs.now)))
        output.old output.new result }
{
    let mut kept_states = [0u8; STATES_LENT];
    let mut kept_arcs = [0u8; ARCS_LENT];
    let mut work = [0u8; WORK_LENT];
    let kept = intersect(table, pairs, &mut kept_states, &mut kept_arcs, &mut work);
    match kept {
        Ok(counts) => {
            let made = Table {
                counts,
                states: &kept_states,
                arcs: &kept_arcs,
            };
            print_table(&made, output)
        }
        Err(k) => write_refusal(output, k),
    }
}

// The text of what is kept of the table that a text describes.
pub fn keep_text(text: &[u8], pairs: &[u8], output: &mut [u8]) -> usize
    requires { output_lent ≤ length output.old }
    ensures { Wrote (write_output (kept_text text.now (pairs_of pairs.now)))
        output.old output.new result }
{
    let mut states = [0u8; STATES_LENT];
    let mut arcs = [0u8; ARCS_LENT];
    match read(text, &mut states, &mut arcs) {
        Ok(counts) => {
            let table = Table {
                counts,
                states: &states,
                arcs: &arcs,
            };
            keep_table(&table, pairs, output)
        }
        Err(k) => write_refusal(output, k),
    }
}
