// The records of a table, written as the lines of its text.
ghost use Rattle.std.specs.Prelude.{◌≡◌, ◌+◌, ◌*◌, ◌≤◌, min, length};
ghost use Rattle.automata.specs.Memory.{Sound, table_of};
ghost use Rattle.automata.specs.TableText.{write_table};
ghost use Rattle.automata.specs.Calls.Outcome.{overwrite};
ghost use Rattle.automata.specs.Layout.{arc_size, state_size, amount_width, arc_width, header_width, label_size, label_width, labels_column, state_width, weight_size};
ghost use Rattle.table.specs.Answers.{memory};
ghost use Rattle.table.specs.Region.{splice};
ghost use Rattle.text_store.specs.Recode.{recoded};
ghost use Rattle.text_print.specs.Printed.{weight_of_record, line_of_state, columns_of_label, numbers_of_record, line_of_arc, header_of};

use table::answer::Counts;
use table::arc::{arc_weight_at, source_at, target_at};
use table::bytes::{copy_into, get32};
use table::layout::{
    ABSENT, AMOUNT_PLACE, AMOUNT_WIDTH, ARC_SIZE, ARC_WIDTH, ARCS_COLUMN, FINAL_PLACE, HEADER_END,
    HEADER_WIDTH, LABEL_SIZE, LABEL_WIDTH, LABELS_COLUMN, LABELS_END, LABELS_PLACE, NEWLINE,
    NUMBER_WIDTH, STATE_END, STATE_SIZE, STATE_WIDTH, SYMBOLS_PLACE, TAPES_WIDTH, WEIGHT_COLUMN,
};
use table::lent::Table;
use text_columns::decimal::write_decimal;
use text_store::recode::write_parts;

// The columns of the weight in a record.
fn print_weight(weight: &[u8], out: &mut [u8], at: usize)
    requires { (length weight.now ≡ weight_size) × (at + amount_width ≤ length out.old) }
    ensures { out.new ≡ splice at (weight_of_record weight.now) out.old }
{
    if weight[0] == ABSENT {
        let absent = [32u8, 32, 32, 32, 32, 32, 32, 32, 32, 45];
        copy_into(out, at, &absent);
    } else {
        write_decimal(out, at, AMOUNT_WIDTH, get32(weight, AMOUNT_PLACE) as usize);
    }
}

// The line of the state in a record.
fn print_state(bytes: &[u8], out: &mut [u8], at: usize)
    requires { (length bytes.now ≡ state_size) × (at + state_width ≤ length out.old) }
    ensures { out.new ≡ splice at (line_of_state bytes.now) out.old }
{
    print_weight(&bytes[0..FINAL_PLACE], out, at);
    print_weight(&bytes[FINAL_PLACE..STATE_SIZE], out, at + AMOUNT_WIDTH);
    out[at + STATE_END] = NEWLINE;
}

// The lines of so many states.
pub fn print_states(states: &[u8], count: usize, out: &mut [u8], start: usize)
    requires { (count * state_size ≤ length states.now) × (start + count * state_width ≤ length out.old) }
    ensures { out.new ≡ splice start (recoded line_of_state state_size count states.now)
        out.old }
{
    write_parts(
        states,
        STATE_SIZE,
        count,
        out,
        start,
        STATE_WIDTH,
        print_state,
    );
}

// The length of a label, at most 8.
fn label_length(length: u8) -> usize
    ensures { (result ≡ min length 8) × (result ≤ 8) }
{
    usize::from(length.min(8))
}

// The columns of the label in a record: all eight bytes are copied, and those past its length fall behind the nine
// columns.
fn print_label(bytes: &[u8], out: &mut [u8], at: usize)
    requires { (length bytes.now ≡ label_size) × (at + label_width ≤ length out.old) }
    ensures { out.new ≡ splice at (columns_of_label bytes.now) out.old }
{
    let n = label_length(bytes[0]);
    let mut columns = [32u8; 17];
    copy_into(
        &mut columns,
        LABEL_WIDTH - n,
        &bytes[SYMBOLS_PLACE..LABEL_SIZE],
    );
    copy_into(out, at, &columns[0..LABEL_WIDTH]);
}

// The columns of the labels on so many tapes.
fn print_labels(records: &[u8], tapes: usize, out: &mut [u8], start: usize)
    requires { (tapes * label_size ≤ length records.now) × (start + tapes * label_width ≤ length out.old) }
    ensures { out.new ≡ splice start (recoded columns_of_label label_size tapes records.now)
        out.old }
{
    write_parts(
        records,
        LABEL_SIZE,
        tapes,
        out,
        start,
        LABEL_WIDTH,
        print_label,
    );
}

// Source, target and weight of the arc in a record.
fn print_numbers(bytes: &[u8], out: &mut [u8], at: usize)
    requires { (length bytes.now ≡ arc_size) × (at + labels_column ≤ length out.old) }
    ensures { out.new ≡ splice at (numbers_of_record bytes.now) out.old }
{
    write_decimal(out, at, NUMBER_WIDTH, source_at(bytes, 0).0 as usize);
    write_decimal(
        out,
        at + NUMBER_WIDTH,
        NUMBER_WIDTH,
        target_at(bytes, 0).0 as usize,
    );
    write_decimal(
        out,
        at + WEIGHT_COLUMN,
        AMOUNT_WIDTH,
        arc_weight_at(bytes, 0) as usize,
    );
}

// The line of the arc in a record, of a table with so many tapes.
fn print_arc(bytes: &[u8], tapes: usize, out: &mut [u8], at: usize)
    requires { ((length bytes.now ≡ arc_size) × (tapes ≤ 8))
        × (at + (arc_width + tapes * label_width) ≤ length out.old) }
    ensures { out.new ≡ splice at (line_of_arc tapes bytes.now) out.old }
{
    print_numbers(bytes, out, at);
    print_labels(
        &bytes[LABELS_PLACE..LABELS_END],
        tapes,
        out,
        at + LABELS_COLUMN,
    );
    out[at + (LABELS_COLUMN + tapes * LABEL_WIDTH)] = NEWLINE;
}

// The lines of so many arcs.
pub fn print_arcs(arcs: &[u8], count: usize, tapes: usize, out: &mut [u8], start: usize)
    requires { ((count * arc_size ≤ length arcs.now) × (tapes ≤ 8))
        × (start + count * (arc_width + tapes * label_width) ≤ length out.old) }
    ensures { out.new ≡ splice start (recoded (line_of_arc tapes) arc_size count arcs.now)
        out.old }
{
    let width = ARC_WIDTH + tapes * LABEL_WIDTH;
    let print = |record: &[u8], out: &mut [u8], at: usize|
        requires { ((length record.now ≡ arc_size) × (tapes ≤ 8))
            × (at + (arc_width + tapes * label_width) ≤ length out.old) }
        ensures { out.new ≡ splice at (line_of_arc tapes record.now) out.old }
    { print_arc(record, tapes, out, at) };
    write_parts(arcs, ARC_SIZE, count, out, start, width, print);
}

// The header of a table.
pub fn print_header(counts: Counts, out: &mut [u8])
    requires { header_width ≤ length out.old }
    ensures { out.new ≡ splice 0 (header_of counts) out.old }
{
    write_decimal(out, 0, TAPES_WIDTH, counts.tapes);
    write_decimal(out, TAPES_WIDTH, NUMBER_WIDTH, counts.states);
    write_decimal(out, ARCS_COLUMN, NUMBER_WIDTH, counts.arcs);
    out[HEADER_END] = NEWLINE;
}

// The text of a table that was judged, over the front of the output.
pub fn write_table(table: &Table, output: &mut [u8])
    requires { Sound (memory table.now)
        × (header_width + table.now.counts.states * state_width
        + table.now.counts.arcs * (arc_width + table.now.counts.tapes * label_width) ≤ length output.old) }
    ensures { output.new ≡ overwrite
        (write_table (table_of (memory table.now))) output.old }
{
    let counts = table.counts;
    print_header(counts, output);
    print_states(table.states, counts.states, output, HEADER_WIDTH);
    print_arcs(
        table.arcs,
        counts.arcs,
        counts.tapes,
        output,
        HEADER_WIDTH + counts.states * STATE_WIDTH,
    );
}
