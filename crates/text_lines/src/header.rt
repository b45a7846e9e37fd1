// The header of a table: how many tapes, states and arcs it has.
ghost use Rattle.std.specs.Prelude.{◌≡◌, length};
ghost use Rattle.table.specs.Answers.{judged_as};
ghost use Rattle.text_lines.specs.Lines.{header_as, read_header, counts_judged};
ghost use Rattle.automata.specs.Layout.{header_width};

use table::answer::{Counts, Refusal, both};
use table::layout::{ARCS_COLUMN, HEADER_END, TAPES_WIDTH};
use text_columns::decimal::read_decimal;
use text_columns::label::line_end;

// The counts of a header are in range, where its columns are fine.
fn judge_counts(
    columns: Result<(), Refusal>,
    tapes: usize,
    states: usize,
    arcs: usize,
) -> Result<(), Refusal>
    ensures { judged_as result ≡ counts_judged (judged_as columns) tapes states arcs }
{
    columns?;
    if (1..=8).contains(&tapes) && states <= 1024 && arcs <= 8192 {
        Ok(())
    } else {
        Err(Refusal::Size)
    }
}

// The counts read from a header, or its refusal.
pub fn read_header(line: &[u8]) -> Result<Counts, Refusal>
    requires { length line.now ≡ header_width }
    ensures { header_as result ≡ read_header line.now }
{
    let tapes = read_decimal(&line[0..TAPES_WIDTH]);
    let states = read_decimal(&line[TAPES_WIDTH..ARCS_COLUMN]);
    let arcs = read_decimal(&line[ARCS_COLUMN..HEADER_END]);
    let columns = both(
        tapes.and(Ok(())),
        both(states.and(Ok(())), arcs.and(Ok(()))),
    );
    let counts = Counts {
        tapes: tapes.unwrap_or(0),
        states: states.unwrap_or(0),
        arcs: arcs.unwrap_or(0),
    };
    let fits = judge_counts(columns, counts.tapes, counts.states, counts.arcs);
    both(fits, line_end(line[HEADER_END])).and(Ok(counts))
}
