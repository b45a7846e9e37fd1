// How many combinations of positions the strings of a tuple have.
ghost use Rattle.std.specs.Prelude.{◌≡◌, ◌≤◌};
ghost use Rattle.lookup_tuple.specs.Positions.{positions, ShortStrings};

use crate::Strings;

// The combinations of positions in the strings of a tuple.
pub fn combinations(strings: Strings) -> usize
    requires { ShortStrings strings }
    ensures { (result ≡ positions strings.lengths) × (result ≤ 318644812890625) }
{
    let mut all = 1;
    for n in &strings.lengths {
        all *= *n + 1;
    }
    all
}
