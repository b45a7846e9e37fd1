// The call: the table, the tuple, the space and last the list judged, the path behind the weight, and work space
// cleared.
ghost use Rattle.std.specs.Prelude.{◌≡◌, ◌*◌, leb};
ghost use Rattle.automata.specs.Lists.{and};
ghost use Rattle.automata.specs.Calls.LeastPath.{path_answer, told_answer, path_in, path_found_of, list_path, path_outcome};
ghost use Rattle.table.specs.Answers.{memory};
ghost use Rattle.path_search.specs.Answers.{path_as};

use lookup::judge::{cell_count, judge_call};
use path_search::answer::PathTold;
use path_search::path::find_path;
use table::answer::Refusal;
use table::bytes::zero;
use table::lent::Table;

// The bytes of work space for each work cell: a weight, a mark and a place in the order found.
const CELL: usize = 24;

// Whether there is room for what is told, and work space of so many bytes is enough for so many work cells.
fn has_space(room: bool, cells: usize, work: usize) -> bool
    ensures { result ≡ and room (leb (24 * cells) work) }
{
    room && cells <= work / CELL
}

// The answer of the call, the arcs of a path in the list, with whatever is left in work space.
fn find(
    table: &Table,
    tuple: &[u8],
    room: bool,
    list: &mut [u8],
    work: &mut [u8],
) -> Result<Option<PathTold>, Refusal>
    ensures { (path_as result ≡ told_answer (path_answer (memory table.now) tuple.now room list.old work.old))
        × (list.new ≡ path_in (path_answer (memory table.now) tuple.now room list.old work.old) list.old) }
{
    let strings = judge_call(table, tuple)?;
    if !has_space(room, cell_count(table.counts.states, strings), work.len()) {
        return Err(Refusal::Space);
    }
    find_path(table, tuple, strings, list, work)
}

// The path behind the weight of a tuple; `room` tells whether the caller has room for what is told. Work space is zero
// afterwards.
pub fn find_cleared(
    table: &Table,
    tuple: &[u8],
    room: bool,
    list: &mut [u8],
    work: &mut [u8],
) -> Result<Option<PathTold>, Refusal>
    ensures { path_found_of (path_as result) list.new work.new
        ≡ list_path (path_answer (memory table.now) tuple.now room list.old work.old)
        list.old work.old }
{
    let answer = find(table, tuple, room, list, work);
    zero(work);
    answer
}

// The call `path`: the weight of a tuple with the path behind it, or none; the arc numbers of the path over the front
// of the list, two bytes each.
pub fn path(
    table: &Table,
    tuple: &[u8],
    list: &mut [u8],
    work: &mut [u8],
) -> Result<Option<PathTold>, Refusal>
    ensures { path_found_of (path_as result) list.new work.new ≡ path_outcome
        (memory table.now) tuple.now list.old work.old }
{
    find_cleared(table, tuple, true, list, work)
}
