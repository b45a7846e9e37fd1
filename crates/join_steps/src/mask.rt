// The second tapes of a list of pairs as a mask: bit k marks tape k + 1.
ghost use Rattle.std.specs.Prelude.{◌≡◌, ◌+◌, ◌≤◌, ◌<◌};
ghost use Rattle.automata.specs.TapePair.{tapes_of};
ghost use Rattle.automata.specs.Tapes.{seconds};
ghost use Rattle.automata.specs.Calls.Drop.{mask_of};
ghost use Rattle.table.specs.Pairs.{pairs_as};

use table::pair::PairList;

// Whether the tape at a place is the second one of a pair.
fn is_second(pairs: PairList, place: u8) -> bool
    requires { (pairs.used ≤ 4) × (place < 8) }
    ensures { result ≡ seconds (tapes_of (pairs_as pairs)) place }
{
    for p in &pairs.pairs[..pairs.used] {
        if p.second == place + 1 {
            return true;
        }
    }
    false
}

// The mask of the second tapes.
pub fn second_tapes(pairs: PairList) -> u8
    requires { pairs.used ≤ 4 }
    ensures { result ≡ mask_of (seconds (tapes_of (pairs_as pairs))) }
{
    let mut mask = 0;
    for place in 0..8 {
        mask += u8::from(is_second(pairs, place)) << place;
    }
    mask
}
