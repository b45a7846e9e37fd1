// The judgement of a tuple's text, and its strings by their places.
ghost use Rattle.std.specs.Prelude.{◌≡◌};
ghost use Rattle.table.specs.Answers.{judged_as};
ghost use Rattle.lookup_tuple.specs.Judgement.{tuple_answer, Placeable, Placed, JudgedTuple};

use crate::Strings;
use crate::line::{count_lines, line_end, sizes_fit, symbols_fit};
use table::answer::Refusal;

// The first refusal: text after the last byte 10 (1), another number of strings than of tapes (5), a string that is too
// long (3), a byte that is no symbol (2).
fn judge_text(text: &[u8], tapes: usize) -> Result<(), Refusal>
    ensures { judged_as result ≡ tuple_answer text.now tapes }
{
    let count = count_lines(text).ok_or(Refusal::Short)?;
    if count != tapes {
        Err(Refusal::Tape)
    } else if !sizes_fit(text) {
        Err(Refusal::Size)
    } else if !symbols_fit(text) {
        Err(Refusal::Form)
    } else {
        Ok(())
    }
}

// The places of the strings of a text that has so many.
fn place(text: &[u8], count: usize) -> Strings
    requires { Placeable text.now count }
    ensures { Placed text.now result }
{
    let mut starts = [0usize; 8];
    let mut lengths = [0usize; 8];
    let mut at = 0;
    for i in 0..count {
        let end = line_end(text, at);
        starts[i] = at;
        lengths[i] = end - at;
        at = end + 1;
    }
    Strings {
        count,
        starts,
        lengths,
    }
}

// The text of a tuple for a table with so many tapes, judged and taken apart: the first refusal, or the strings by
// their places, none where there are more than eight tapes.
pub fn judge_tuple(text: &[u8], tapes: usize) -> Result<Strings, Refusal>
    ensures { JudgedTuple text.now tapes result }
{
    judge_text(text, tapes)?;
    if 8 < tapes {
        return Ok(Strings {
            count: 0,
            starts: [0; 8],
            lengths: [0; 8],
        });
    }
    Ok(place(text, tapes))
}
