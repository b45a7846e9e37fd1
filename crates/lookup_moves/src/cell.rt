// The cells of a lookup in work space: a weight of eight bytes for each state and combination of positions.
ghost use Rattle.std.specs.Prelude.{◌≡◌, ◌+◌, ◌*◌, ◌≤◌, ◌<◌, length, get_or, set, replicate};
ghost use Rattle.lookup_moves.specs.Distances.{cells_of, Lowers, far_byte};

use table::bytes::{get64, put64};

// The number for "none" in a cell: eight bytes of 16, and no Option, as cells stay lent bytes. It is above every weight.
pub const FAR: u64 = 1157442765409226768;

const FAR_BYTE: u8 = 16;

// The number of the cell of a state and a combination, there being so many combinations in all.
pub fn cell_number(state: usize, all: usize, number: usize) -> usize
    requires { 8 * (state * all + number) < 18446744073709551616 }
    ensures { result ≡ state * all + number }
{
    state * all + number
}

// The weight in a cell.
pub fn weight_at(work: &[u8], k: usize) -> u64
    requires { 8 * k + 8 ≤ length work.now }
    ensures { result ≡ get_or (cells_of work.now) k 0 }
{
    get64(work, 8 * k)
}

// The number `v` in a cell.
pub fn set_number(work: &mut [u8], k: usize, v: u64)
    requires { 8 * k + 8 ≤ length work.old }
    ensures { (cells_of work.new ≡ set (cells_of work.old) k v)
        × (length work.new ≡ length work.old) }
{
    put64(work, 8 * k, v);
}

// The weight `v` in a cell, if it is less than the one there. Tells whether it is.
pub fn lower(work: &mut [u8], k: usize, v: u64) -> bool
    requires { 8 * k + 8 ≤ length work.old }
    ensures { Lowers k v result work.new work.old }
{
    if v < weight_at(work, k) {
        put64(work, 8 * k, v);
        true
    } else {
        false
    }
}

// Every cell set to the number for "none": each byte is 16.
pub fn clear_cells(work: &mut [u8])
    ensures { work.new ≡ replicate (length work.old) far_byte }
{
    work.fill(FAR_BYTE);
}
