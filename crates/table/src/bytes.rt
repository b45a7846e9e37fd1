// Numbers in lent byte slices, least byte first, and regions of a lent slice.
ghost use Rattle.std.specs.Prelude.{◌≡◌, ◌+◌, ◌≤◌, length, replicate};
ghost use Rattle.table.specs.Region.{part, splice};
ghost use Rattle.table.specs.Endian.{le, to_le};

// The u16 in the two bytes at `at`. Here and below the bytes are named one by one: a copy of so many from the slice into
// an array was tried, and reads and writes by it are slower.
pub fn get16(bytes: &[u8], at: usize) -> u16
    requires { at + 2 ≤ length bytes.now }
    ensures { result ≡ le (part at 2 bytes.now) }
{
    u16::from_le_bytes([bytes[at], bytes[at + 1]])
}

// The u32 in the four bytes at `at`.
pub fn get32(bytes: &[u8], at: usize) -> u32
    requires { at + 4 ≤ length bytes.now }
    ensures { result ≡ le (part at 4 bytes.now) }
{
    u32::from_le_bytes([bytes[at], bytes[at + 1], bytes[at + 2], bytes[at + 3]])
}

// The u64 in the eight bytes at `at`.
pub fn get64(bytes: &[u8], at: usize) -> u64
    requires { at + 8 ≤ length bytes.now }
    ensures { result ≡ le (part at 8 bytes.now) }
{
    let low = get32(bytes, at);
    let high = get32(bytes, at + 4);
    u64::from(low) + 0x1_0000_0000 * u64::from(high)
}

// The two bytes of `v` written at `at`.
pub fn put16(bytes: &mut [u8], at: usize, v: u16)
    requires { at + 2 ≤ length bytes.old }
    ensures { bytes.new ≡ splice at (to_le 2 v) bytes.old }
{
    let [low, high] = v.to_le_bytes();
    bytes[at] = low;
    bytes[at + 1] = high;
}

// The four bytes of `v` written at `at`.
pub fn put32(bytes: &mut [u8], at: usize, v: u32)
    requires { at + 4 ≤ length bytes.old }
    ensures { bytes.new ≡ splice at (to_le 4 v) bytes.old }
{
    let [first, second, third, fourth] = v.to_le_bytes();
    bytes[at] = first;
    bytes[at + 1] = second;
    bytes[at + 2] = third;
    bytes[at + 3] = fourth;
}

// The eight bytes of `v` written at `at`.
pub fn put64(bytes: &mut [u8], at: usize, v: u64)
    requires { at + 8 ≤ length bytes.old }
    ensures { bytes.new ≡ splice at (to_le 8 v) bytes.old }
{
    put32(bytes, at, (v % 0x1_0000_0000) as u32);
    put32(bytes, at + 4, (v / 0x1_0000_0000) as u32);
}

// Every byte of `work` set to zero.
pub fn zero(work: &mut [u8])
    ensures { work.new ≡ replicate (length work.old) 0 }
{
    work.fill(0);
}

// The bytes of `src` written over `dst` from `at`.
pub fn copy_into(dst: &mut [u8], at: usize, src: &[u8])
    requires { at + length src.now ≤ length dst.old }
    ensures { dst.new ≡ splice at src.now dst.old }
{
    // no `copy_from_slice`: it compiles to a call of memmove, which the archive for C would need from outside
    for i in 0..src.len() {
        dst[at + i] = src[i];
    }
}
