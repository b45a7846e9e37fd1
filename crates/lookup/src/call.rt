// The call: the table, the tuple and the work space judged in this order, the least weight, and work space cleared.
ghost use Rattle.std.specs.Prelude.{◌≡◌};
ghost use Rattle.automata.specs.Calls.Outcome.{found_of};
ghost use Rattle.automata.specs.Calls.Lookup.{lookup_answer, lookup_outcome};
ghost use Rattle.table.specs.Answers.{memory};
ghost use Rattle.lookup.specs.Answers.{weight_as};

use crate::judge::{cell_count, judge_call};
use lookup_cells::fill::least_weight;
use table::answer::Refusal;
use table::bytes::zero;
use table::lent::Table;

// The bytes of work space for each work cell.
const CELL: usize = 8;

// The answer of the call, the weight or none, with whatever is left in work space.
fn find(table: &Table, tuple: &[u8], work: &mut [u8]) -> Result<Option<u64>, Refusal>
    ensures { weight_as result ≡ lookup_answer (memory table.now) tuple.now work.old }
{
    let strings = judge_call(table, tuple)?;
    if work.len() < CELL * cell_count(table.counts.states, strings) {
        return Err(Refusal::Space);
    }
    Ok(least_weight(table, tuple, strings, work))
}

// The call `lookup`: the least weight of the successful paths of a table that spell a tuple, or none.
pub fn lookup(table: &Table, tuple: &[u8], work: &mut [u8]) -> Result<Option<u64>, Refusal>
    ensures { found_of (weight_as result) work.new ≡ lookup_outcome (memory table.now) tuple.now work.old }
{
    let answer = find(table, tuple, work);
    zero(work);
    answer
}
