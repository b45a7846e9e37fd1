// The text of a table: read into the records of a table in memory, and written from them.
#![tactic(auto)]

ghost use Rattle.std.specs.Prelude.{◌≡◌, ◌+◌, ◌*◌, ◌≤◌};
ghost use Rattle.automata.specs.Calls.Outcome.{slices_of, made_of};
ghost use Rattle.automata.specs.Calls.Read.{read_outcome};
ghost use Rattle.automata.specs.Calls.Write.{write_outcome};
ghost use Rattle.automata.specs.Layout.{arc_width, header_width, label_width, state_width};
ghost use Rattle.table.specs.Answers.{table_as, memory};
ghost use Rattle.text.specs.Answers.{written_as, written_of};

use table::answer::{Counts, Refusal};
use table::judge::judge;
use table::layout::{ARC_SIZE, ARC_WIDTH, HEADER_WIDTH, LABEL_WIDTH, STATE_SIZE, STATE_WIDTH};
use table::lent::Table;
use text_lines::judge::judge_text;
use text_print::print::write_table;
use text_store::store::{store_arcs, store_states};

// The call `read`: the table that a text describes, as records in the slices lent. The whole text is judged before a
// record is stored.
pub fn read(text: &[u8], states: &mut [u8], arcs: &mut [u8]) -> Result<Counts, Refusal>
    ensures { made_of (table_as result) states.new arcs.new
        ≡ read_outcome text.now (slices_of states.old arcs.old) }
{
    let counts = judge_text(text, states.len() / STATE_SIZE, arcs.len() / ARC_SIZE)?;
    store_states(text, HEADER_WIDTH, counts.states, states);
    store_arcs(
        text,
        HEADER_WIDTH + counts.states * STATE_WIDTH,
        counts.arcs,
        counts.tapes,
        arcs,
    );
    Ok(counts)
}

// How many bytes the text of a table has.
fn text_length(counts: Counts) -> usize
    requires { (counts.tapes ≤ 8) × ((counts.states ≤ 1024) × (counts.arcs ≤ 8192)) }
    ensures { result ≡ header_width + counts.states * state_width + counts.arcs
        * (arc_width + counts.tapes * label_width) }
{
    HEADER_WIDTH
        + counts.states * STATE_WIDTH
        + counts.arcs * (ARC_WIDTH + counts.tapes * LABEL_WIDTH)
}

// The call `write`: the text of a table in memory, in the output lent, and how many bytes it has. The table is judged
// first, then the room in the output.
pub fn write(table: &Table, output: &mut [u8]) -> Result<usize, Refusal>
    ensures { written_of (written_as result) output.new
        ≡ write_outcome (memory table.now) output.old }
{
    judge(table)?;
    let need = text_length(table.counts);
    if output.len() < need {
        return Err(Refusal::Space);
    }
    write_table(table, output);
    Ok(need)
}
