// What follows the header of a table.
ghost use Rattle.std.specs.Prelude.{◌≡◌, ◌≤◌, length, drop};
ghost use Rattle.table.specs.Answers.{judged_as};
ghost use Rattle.text_lines.specs.Lines.{body_judged};
ghost use Rattle.automata.specs.Layout.{header_width};

use crate::arc::judge_arcs;
use crate::state::judge_states;
use table::answer::Refusal;
use table::layout::{ARC_WIDTH, HEADER_WIDTH, LABEL_WIDTH, STATE_WIDTH};

// The lines of the states, those of the arcs, and nothing more.
pub fn judge_body(text: &[u8], tapes: usize, states: usize, arcs: usize) -> Result<(), Refusal>
    requires { (header_width ≤ length text.now) × ((tapes ≤ 8) × (states ≤ 1024)) }
    ensures { judged_as result ≡ body_judged tapes states arcs (drop header_width text.now) }
{
    judge_states(text, HEADER_WIDTH, states)?;
    let at = HEADER_WIDTH + states * STATE_WIDTH;
    judge_arcs(text, at, arcs, tapes, states)?;
    if text.len() - at <= arcs * (ARC_WIDTH + tapes * LABEL_WIDTH) {
        Ok(())
    } else {
        Err(Refusal::Form)
    }
}
