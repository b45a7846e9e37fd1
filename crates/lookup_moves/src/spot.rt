// A combination of positions, one in each string of a tuple.
ghost use Rattle.std.specs.Prelude.{◌≡◌};
ghost use Rattle.lookup_moves.specs.Spots.{Spanned, spot_of, Placed, Positive};

use lookup_tuple::Strings;

// The position in each string, and its place in the text; the number of combinations in the strings behind each; the
// number of this combination, and of all.
#[derive(Clone, Copy)]
pub struct Spot {
    pub starts: [usize; 8],
    pub positions: [usize; 8],
    pub spans: [usize; 8],
    pub number: usize,
    pub all: usize,
}

// How many combinations of positions there are in the strings behind each, and in all.
#[derive(Clone, Copy)]
pub struct Spans {
    pub spans: [usize; 8],
    pub all: usize,
}

// The combinations in the strings behind each, and in all.
pub fn spans_of(strings: Strings) -> Spans
    requires { Placed strings }
    ensures { Spanned strings.lengths result }
{
    let mut spans = [0; 8];
    let mut all = 1;
    for h in (0..8).rev() {
        spans[h] = all;
        all *= strings.lengths[h] + 1;
    }
    Spans { spans, all }
}

// The combination of a number.
pub fn spot_at(strings: Strings, spans: Spans, number: usize) -> Spot
    requires { Placed strings × Positive spans }
    ensures { result ≡ spot_of strings spans number }
{
    let mut starts = strings.starts;
    let mut positions = [0; 8];
    for h in 0..8 {
        let position = number / spans.spans[h] % (strings.lengths[h] + 1);
        starts[h] += position;
        positions[h] = position;
    }
    Spot {
        starts,
        positions,
        spans: spans.spans,
        number,
        all: spans.all,
    }
}
