// The forecast over pairs of tapes that are lent as records.
#![tactic(auto)]

ghost use Rattle.std.specs.Prelude.{◌≡◌, map};
ghost use Rattle.automata.specs.TapePair.{tapes_of};
ghost use Rattle.automata.specs.Calls.Forecast.{foretold_of, forecast_outcome};
ghost use Rattle.table.specs.Answers.{memory};
ghost use Rattle.table.specs.Pairs.{pair_as};
ghost use Rattle.forecast_records.specs.Values.{answer_as};

use forecast::call::forecast_judged;
use forecast_records::ForecastList;
use pairs_records::judge_record_tapes;
use table::answer::Refusal;
use table::lent::Table;
use table::pair::Pair;

// Space known beforehand: for each pair of tapes what a build of the table on it can need, in list order. No build is
// run, and no limit is read. Work space is zero afterwards.
pub fn forecast(table: &Table, pairs: &[Pair], work: &mut [u8]) -> Result<ForecastList, Refusal>
    ensures { foretold_of (answer_as result) work.new
        ≡ forecast_outcome (memory table.now) (tapes_of (map pair_as pairs.now)) work.old }
{
    let listed = judge_record_tapes(pairs, table.counts.tapes);
    forecast_judged(table, listed, true, work)
}
