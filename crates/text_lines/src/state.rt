// Lines of states: the initial and the final weight.
ghost use Rattle.std.specs.Prelude.{◌≡◌, ◌≤◌, length, drop};
ghost use Rattle.automata.specs.Answer.{forget};
ghost use Rattle.automata.specs.Layout.{state_width};
ghost use Rattle.table.specs.Answers.{judged_as};
ghost use Rattle.text_lines.specs.Lines.{read_state_line, first_state, states_judged};

use table::answer::{Refusal, both};
use table::layout::{AMOUNT_WIDTH, STATE_END, STATE_WIDTH};
use text_columns::label::line_end;
use text_columns::weight::judge_weight;

// A line of a state, judged: its initial and its final weight.
fn judge_state_line(line: &[u8]) -> Result<(), Refusal>
    requires { length line.now ≡ state_width }
    ensures { judged_as result ≡ forget (read_state_line line.now) }
{
    let initial = judge_weight(&line[0..AMOUNT_WIDTH]);
    let last = judge_weight(&line[AMOUNT_WIDTH..STATE_END]);
    let weights = both(initial, last);
    both(weights, line_end(line[STATE_END]))
}

// The state line at a place of a text.
fn judge_state(text: &[u8], at: usize) -> Result<(), Refusal>
    requires { at ≤ length text.now }
    ensures { judged_as result ≡ first_state (drop at text.now) }
{
    if text.len() - at < STATE_WIDTH {
        return Err(Refusal::Short);
    }
    judge_state_line(&text[at..at + STATE_WIDTH])
}

// So many state lines from a place of a text. The first refusal counts.
pub fn judge_states(text: &[u8], start: usize, count: usize) -> Result<(), Refusal>
    requires { start ≤ length text.now }
    ensures { judged_as result ≡ states_judged count (drop start text.now) }
{
    for i in 0..count {
        judge_state(text, start + STATE_WIDTH * i)?;
    }
    Ok(())
}
