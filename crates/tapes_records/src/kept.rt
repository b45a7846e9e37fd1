// The tapes that a mask leaves, as a list.
ghost use Rattle.std.specs.Prelude.{◌≡◌, ◌+◌, ◌≤◌, ◌<◌, length};
ghost use Rattle.automata.specs.Calls.Drop.{in_mask};
ghost use Rattle.table.specs.Region.{splice};
ghost use Rattle.tapes_records.specs.Choice.{tape_left, tapes_left};

// The tape at a place behind the tapes kept so far, unless the mask marks it. Answers how many are kept then.
fn keep_place(mask: u8, place: usize, kept: &mut [u8], used: usize) -> usize
    requires { (place < 8) × (used < length kept.old) }
    ensures { (kept.new ≡ splice used (tape_left (in_mask mask place) place) kept.old)
        × (result ≡ used + length (tape_left (in_mask mask place) place)) × (result ≤ used + 1) }
{
    if (mask >> place) % 2 == 1 {
        used
    } else {
        kept[used] = place as u8 + 1;
        used + 1
    }
}

// The tapes of so many that the mask does not mark, over the front of `kept`. Answers how many they are.
pub fn tapes_left(mask: u8, tapes: usize, kept: &mut [u8]) -> usize
    requires { (tapes ≤ 8) × (length kept.old ≡ 8) }
    ensures { (kept.new ≡ splice 0 (tapes_left (in_mask mask) 0 tapes) kept.old)
        × (result ≡ length (tapes_left (in_mask mask) 0 tapes)) }
{
    let mut used = 0;
    for place in 0..tapes {
        used = keep_place(mask, place, kept, used);
    }
    used
}
