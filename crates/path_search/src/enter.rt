// Cells found, in the order found: behind the weights of all cells stand as many marks, each the arc by which its cell
// was found, and behind these the cells in order.
ghost use Rattle.std.specs.Prelude.{◌≡◌, ◌<◌, length};
ghost use Rattle.lookup_moves.specs.Distances.{cells_of};
ghost use Rattle.path_search.specs.Search.{search_of, enter};
ghost use Rattle.path_search.specs.FirstPath.{Kept};

use lookup_moves::cell::{FAR, set_number, weight_at};

// The mark of a cell at which paths start: the number of no arc.
pub const NO_ARC: usize = 65535;

// A cell, found by arc e, behind the `found` ones, unless it is one of them. Tells how many are found.
pub fn enter_cell(work: &mut [u8], cells: usize, cell: usize, e: usize, found: usize) -> usize
    requires { Kept cells (search_of (cells_of work.old) found) × (cell < cells) }
    ensures { (search_of (cells_of work.new) result
        ≡ enter cells e cell (search_of (cells_of work.old) found))
        × (length work.new ≡ length work.old) }
{
    if weight_at(work, cells + cell) < FAR {
        return found;
    }
    set_number(work, cells + cell, e as u64);
    set_number(work, 2 * cells + found, cell as u64);
    found + 1
}
