// The call: the table, the pairs and the space judged in turn, a forecast for each pair, and work space cleared.
ghost use Rattle.std.specs.Prelude.{◌≡◌, List, IfOk, ◌/◌, ◌≤◌, leb, length};
ghost use Rattle.automata.specs.Lists.{and};
ghost use Rattle.automata.specs.TapePair.{Pair, tapes_of};
ghost use Rattle.automata.specs.Calls.Outcome.{cleared};
ghost use Rattle.automata.specs.Calls.Work.{forecast_work};
ghost use Rattle.automata.specs.Calls.Forecast.{forecast_answer, forecast_recorded, foretold_of, record_bytes, recorded_of};
ghost use Rattle.table.specs.Answers.{memory};
ghost use Rattle.pairs.specs.PairBytes.{pairs_of};
ghost use Rattle.pairs.specs.Judgement.{TapesJudged, TapesListed};
ghost use Rattle.forecast_records.specs.Values.{answer_as};
ghost use Rattle.forecast.specs.Outcome.{Recordable, recorded};

use crate::pair::forecasts_of;
use forecast_records::{ForecastList, RECORD, put_forecasts};
use pairs::judge_tapes;
use table::answer::Refusal;
use table::bytes::zero;
use table::judge::judge;
use table::layout::DELAYS_SIZE;
use table::lent::Table;
use table::pair::{PAIR, PairList};

// The bytes of work space that a forecast needs for each state.
const STATE_WORK: usize = DELAYS_SIZE;

// Whether there is room for what is told, and work space of so many bytes is enough for so many states.
fn has_space(room: bool, states: usize, work: usize) -> bool
    ensures { result ≡ and room (leb (forecast_work states) work) }
{
    room && states <= work / STATE_WORK
}

// The answer of the call on pairs that were judged, with whatever is left in work space.
fn tell(
    table: &Table,
    listed: Result<PairList, Refusal>,
    room: bool,
    work: &mut [u8],
) -> Result<ForecastList, Refusal>
    requires { TapesListed table.now.counts.tapes listed }
    ensures { IfOk result (λ l. l.used ≤ 4) × ((ps : List Pair) → TapesJudged ps table.now.counts.tapes listed
        → answer_as result ≡ forecast_answer (memory table.now) ps room work.old) }
{
    judge(table)?;
    let pairs = listed?;
    if !has_space(room, table.counts.states, work.len()) {
        return Err(Refusal::Space);
    }
    Ok(forecasts_of(table, pairs, work))
}

// The forecasts of pairs that were judged for this table; `room` tells whether the caller has room for them. Work space
// is zero afterwards.
pub fn forecast_judged(
    table: &Table,
    listed: Result<PairList, Refusal>,
    room: bool,
    work: &mut [u8],
) -> Result<ForecastList, Refusal>
    requires { TapesListed table.now.counts.tapes listed }
    ensures { IfOk result (λ l. l.used ≤ 4) × ((ps : List Pair) → TapesJudged ps table.now.counts.tapes listed
        → foretold_of (answer_as result) work.new
        ≡ foretold_of (forecast_answer (memory table.now) ps room
        work.old) (cleared work.old)) }
{
    let answer = tell(table, listed, room, work);
    zero(work);
    answer
}

// What an answer leaves in the result space: the records of the forecasts over its front, or nothing where it is a
// refusal.
fn record_answer(answer: Result<ForecastList, Refusal>, res: &mut [u8])
    requires { IfOk answer (λ l. l.used ≤ 4) × Recordable (answer_as answer) (length res.old) }
    ensures { res.new ≡ recorded (answer_as answer) res.old }
{
    if let Ok(list) = answer {
        put_forecasts(list, res);
    }
}

// The forecasts of pairs of tapes, three bytes a pair, as records over the front of `result`. No limit is read. Work
// space is zero afterwards.
pub fn forecast_into(
    table: &Table,
    pairs: &[u8],
    res: &mut [u8],
    work: &mut [u8],
) -> Result<ForecastList, Refusal>
    ensures { IfOk result (λ l. l.used ≤ 4) × (recorded_of (record_bytes (answer_as result)) res.new
        work.new ≡ forecast_recorded (memory table.now)
        (tapes_of (pairs_of pairs.now)) res.old work.old) }
{
    let listed = judge_tapes(pairs, table.counts.tapes);
    let room = pairs.len() / PAIR <= res.len() / RECORD;
    let answer = forecast_judged(table, listed, room, work);
    record_answer(answer, res);
    answer
}
