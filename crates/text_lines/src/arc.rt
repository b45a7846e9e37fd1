// Lines of arcs: source, target, weight, and a label on each tape.
ghost use Rattle.std.specs.Prelude.{◌≡◌, ◌+◌, ◌*◌, ◌≤◌, length, drop};
ghost use Rattle.automata.specs.Answer.{forget};
ghost use Rattle.automata.specs.Layout.{arc_width, label_width};
ghost use Rattle.table.specs.Answers.{judged_as};
ghost use Rattle.text_columns.specs.Columns.{number_as};
ghost use Rattle.text_lines.specs.Lines.{arc_parts, read_arc_line, first_arc, arcs_judged};

use table::answer::{Refusal, both};
use table::layout::{ARC_WIDTH, LABEL_WIDTH, LABELS_COLUMN, NUMBER_WIDTH, WEIGHT_COLUMN};
use text_columns::decimal::read_state_number;
use text_columns::label::{judge_label_columns, line_end};
use text_columns::weight::read_present;

// The parts of an arc line side by side.
fn judge_arc(
    source: Result<usize, Refusal>,
    target: Result<usize, Refusal>,
    weight: Result<usize, Refusal>,
    labels: Result<(), Refusal>,
    end: Result<(), Refusal>,
) -> Result<(), Refusal>
    ensures { judged_as result ≡ forget (arc_parts (number_as source) (number_as target) (number_as weight)
        (judged_as labels) (judged_as end)) }
{
    let from_weight = both(weight.and(Ok(())), labels);
    let from_target = both(target.and(Ok(())), from_weight);
    let from_source = both(source.and(Ok(())), from_target);
    both(from_source, end)
}

// A line of an arc, judged: source, target, weight, and a label on each tape.
fn judge_arc_line(line: &[u8], tapes: usize, states: usize) -> Result<(), Refusal>
    requires { length line.now ≡ arc_width + tapes * label_width }
    ensures { judged_as result ≡ forget (read_arc_line tapes states line.now) }
{
    let source = read_state_number(&line[0..NUMBER_WIDTH], states);
    let target = read_state_number(&line[NUMBER_WIDTH..12], states);
    let weight = read_present(&line[WEIGHT_COLUMN..LABELS_COLUMN]);
    let end = line.len() - 1;
    let labels = judge_label_columns(&line[LABELS_COLUMN..end], tapes);
    judge_arc(source, target, weight, labels, line_end(line[end]))
}

// The arc line at a place of a text.
fn judge_arc_at(text: &[u8], at: usize, tapes: usize, states: usize) -> Result<(), Refusal>
    requires { (at ≤ length text.now) × (tapes ≤ 8) }
    ensures { judged_as result ≡ first_arc tapes states (drop at text.now) }
{
    let width = ARC_WIDTH + tapes * LABEL_WIDTH;
    if text.len() - at < width {
        return Err(Refusal::Short);
    }
    judge_arc_line(&text[at..at + width], tapes, states)
}

// So many arc lines from a place of a text. The first refusal counts.
pub fn judge_arcs(
    text: &[u8],
    start: usize,
    count: usize,
    tapes: usize,
    states: usize,
) -> Result<(), Refusal>
    requires { (start ≤ length text.now) × (tapes ≤ 8) }
    ensures { judged_as result ≡ arcs_judged tapes states count (drop start text.now) }
{
    let width = ARC_WIDTH + tapes * LABEL_WIDTH;
    for i in 0..count {
        judge_arc_at(text, start + width * i, tapes, states)?;
    }
    Ok(())
}
