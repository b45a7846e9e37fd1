// Whether the labels of an arc end at a combination of positions of the strings, and from which one they lead there.
ghost use Rattle.std.specs.Prelude.{◌≡◌, ◌+◌, ◌≤◌, length, get_or};
ghost use Rattle.automata.specs.Lists.{same_list};
ghost use Rattle.automata.specs.Layout.{label_size};
ghost use Rattle.table.specs.Arcs.{labels_start};
ghost use Rattle.table.specs.Records.{option_of};
ghost use Rattle.table.specs.Region.{part};
ghost use Rattle.lookup_moves.specs.Moves.{tape_move, moves_from, Laid, Labelled, spot_with};

use table::arc::labels_start;
use table::layout::{LABEL_SIZE, SYMBOLS_PLACE};

// Whether n bytes of two slices are equal.
fn same_bytes(x: &[u8], i: usize, y: &[u8], j: usize, n: usize) -> bool
    requires { (i + n ≤ length x.now) × (j + n ≤ length y.now) }
    ensures { result ≡ same_list (part i n x.now) (part j n y.now) }
{
    for k in 0..n {
        if x[i + k] != y[j + k] {
            return false;
        }
    }
    true
}

// How far the number of a combination moves by the label at a place of the arcs, against the symbols of one string
// before a position, with so many combinations behind it; none where the label does not end there.
fn move_tape(
    arcs: &[u8],
    at: usize,
    text: &[u8],
    start: usize,
    size: usize,
    span: usize,
) -> Option<usize>
    requires { (at + label_size ≤ length arcs.now) × (get_or arcs.now at 0 ≤ 8) × (size ≤ start)
        × (start ≤ length text.now) × (span ≤ 318644812890625) }
    ensures { option_of result ≡ tape_move arcs.now at text.now start size span }
{
    let n = arcs[at] as usize;
    if n <= size && same_bytes(arcs, at + SYMBOLS_PLACE, text, start - n, n) {
        Some(n * span)
    } else {
        None
    }
}

// How far it moves by the labels of the arc at a place on so many tapes, against the strings before the positions.
pub fn moved_back(
    arcs: &[u8],
    at: usize,
    tapes: usize,
    text: &[u8],
    starts: &[usize],
    positions: &[usize],
    spans: &[usize],
) -> Option<usize>
    requires { Labelled arcs.now (labels_start at) × Laid tapes (length text.now)
        (spot_with starts.now positions.now spans.now 0 0) }
    ensures { option_of result ≡ moves_from tapes 0 (labels_start at) 0 arcs.now text.now
        (spot_with starts.now positions.now spans.now 0 0) }
{
    let mut total = 0;
    let mut from = labels_start(at);
    for h in 0..tapes {
        total += move_tape(arcs, from, text, starts[h], positions[h], spans[h])?;
        from += LABEL_SIZE;
    }
    Some(total)
}
