// The call for callers who cannot take a path by value: weight, starting state and number of arcs in lent bytes.
ghost use Rattle.std.specs.Prelude.{◌≡◌, ◌≤◌, length};
ghost use Rattle.automata.specs.Calls.LeastPath.{told_size, told_bytes, record_told, path_recorded_of, path_recorded};
ghost use Rattle.automata.specs.Calls.Outcome.{overwrite};
ghost use Rattle.table.specs.Answers.{memory};
ghost use Rattle.path_search.specs.Answers.{told_as, path_as};
ghost use Rattle.path.specs.Answers.{Fitting, Recordable};

use crate::call::find_cleared;
use path_search::answer::PathTold;
use table::answer::Refusal;
use table::bytes::{put32, put64};
use table::lent::Table;

// The bytes of what is told.
pub const TOLD: usize = 24;

// What is told of a path, over the front of the result space: weight, 0 for a second part of it, starting state, number
// of arcs.
fn put_told(told: PathTold, res: &mut [u8])
    requires { Fitting (told_as told) × (told_size ≤ length res.old) }
    ensures { res.new ≡ overwrite (told_bytes (told_as told)) res.old }
{
    put64(res, 0, told.weight);
    put64(res, 8, 0);
    put32(res, 16, told.start as u32);
    put32(res, 20, told.arcs as u32);
}

// The same of an answer, where a path is told.
fn record_told(answer: Result<Option<PathTold>, Refusal>, res: &mut [u8])
    requires { Recordable (path_as answer) (length res.old) }
    ensures { res.new ≡ record_told (path_as answer) res.old }
{
    if let Ok(Some(told)) = answer {
        put_told(told, res);
    }
}

// The call `path`, what is told over the front of `result`.
pub fn path_into(
    table: &Table,
    tuple: &[u8],
    res: &mut [u8],
    list: &mut [u8],
    work: &mut [u8],
) -> Result<Option<PathTold>, Refusal>
    ensures { path_recorded_of (path_as result) res.new list.new work.new
        ≡ path_recorded (memory table.now) tuple.now res.old list.old work.old }
{
    let answer = find_cleared(table, tuple, TOLD <= res.len(), list, work);
    record_told(answer, res);
    answer
}
