// The judgement of a call that reads a table and the text of a tuple, and how many work cells such a call has.
ghost use Rattle.std.specs.Prelude.{◌≡◌, ◌*◌, ◌≤◌};
ghost use Rattle.table.specs.Answers.{memory};
ghost use Rattle.lookup_tuple.specs.Positions.{positions, ShortStrings};
ghost use Rattle.lookup.specs.Judgement.{JudgedCall};

use lookup_tuple::Strings;
use lookup_tuple::judge::judge_tuple;
use lookup_tuple::size::combinations;
use table::answer::Refusal;
use table::judge::judge;
use table::lent::Table;

// The table, then the tuple: the first refusal, or the strings of the tuple by their places.
pub fn judge_call(table: &Table, tuple: &[u8]) -> Result<Strings, Refusal>
    ensures { JudgedCall (memory table.now) tuple.now result }
{
    judge(table)?;
    judge_tuple(tuple, table.counts.tapes)
}

// One work cell for each state and combination of positions.
pub fn cell_count(states: usize, strings: Strings) -> usize
    requires { (states ≤ 1024) × ShortStrings strings }
    ensures { (result ≡ states * positions strings.lengths) × (result ≤ 326292288400000000) }
{
    states * combinations(strings)
}
