// A text judged as a whole.
ghost use Rattle.std.specs.Prelude.{◌≡◌};
ghost use Rattle.text_lines.specs.Lines.{header_as, read_counts};

use crate::body::judge_body;
use crate::header::read_header;
use table::answer::{Counts, Refusal};
use table::layout::HEADER_WIDTH;

// The counts of a table that a text describes, where so many states and arcs are lent, or its first refusal.
pub fn judge_text(text: &[u8], states: usize, arcs: usize) -> Result<Counts, Refusal>
    ensures { header_as result ≡ read_counts states arcs text.now }
{
    if text.len() < HEADER_WIDTH {
        return Err(Refusal::Short);
    }
    let counts = read_header(&text[0..HEADER_WIDTH])?;
    if states < counts.states {
        return Err(Refusal::StatesFull);
    }
    if arcs < counts.arcs {
        return Err(Refusal::ArcsFull);
    }
    judge_body(text, counts.tapes, counts.states, counts.arcs)?;
    Ok(counts)
}
