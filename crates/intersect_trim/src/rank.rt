// The numbers of the configurations that are kept.
ghost use Rattle.std.specs.Prelude.{◌≤◌, length, take};
ghost use Rattle.intersect_edges.specs.Marked.{bools};
ghost use Rattle.intersect_trim.specs.Ranks.{Numbered};

// The number of marked places before each of the first `count`, and before their end.
pub fn number_marked(marks: &[u8], count: usize, ranks: &mut [u16]) -> usize
    requires { (count ≤ 1024) × (count ≤ length marks.now) × (count ≤ length ranks.old) }
    ensures { Numbered (bools (take count marks.now)) count ranks.new result }
{
    let mut kept: u16 = 0;
    for i in 0..count {
        ranks[i] = kept;
        kept += u16::from(marks[i] == 1);
    }
    usize::from(kept)
}
