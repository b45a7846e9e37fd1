// Parts of one width that stand one after the other, each written in another form.
ghost use Rattle.std.specs.Prelude.{◌+◌, ◌*◌, ◌≤◌, length};
ghost use Rattle.text_store.specs.Recode.{TakesParts, Recodes};

// The first `count` parts, each written in its other form of `size` bytes behind the one before it, from a place on.
pub fn write_parts<F: Fn(&[u8], &mut [u8], usize)>(
    parts: &[u8],
    width: usize,
    count: usize,
    out: &mut [u8],
    start: usize,
    size: usize,
    write: F,
)
    requires room { (count * width ≤ length parts.now) × (start + count * size ≤ length out.old) }
    requires takes { TakesParts F.Fn write width size }
    ensures { Recodes F.Fn write width size count start parts.now out.old out.new }
{
    let mut at = 0;
    let mut to = start;
    for _part in 0..count {
        write(&parts[at..at + width], out, to);
        at += width;
        to += size;
    }
}
