// An answer as one number, for callers in C: in the low byte 0 or the number of the refusal, above it what is told.
ghost use Rattle.std.specs.Prelude.{◌≡◌, ◌+◌, ◌*◌, ◌≤◌, ◌<◌, IfOk};
ghost use Rattle.table.specs.Answers.{refusal_number, table_as};
ghost use Rattle.text.specs.Answers.{written_as};
ghost use Rattle.lookup.specs.Answers.{weight_as};
ghost use Rattle.path_search.specs.Answers.{path_as};
ghost use Rattle.automata.specs.Calls.Forecast.{record_bytes};
ghost use Rattle.forecast_records.specs.Values.{answer_as};
ghost use Rattle.c_answers.specs.Words.{table_word, bytes_word, weight_word, path_word, CountsFit, BytesFit, WeightFits};

use forecast_records::{ForecastList, RECORD};
use path_search::answer::PathTold;
use table::answer::{Counts, Refusal};

// Neither a weight nor a path, and no refusal.
const NO_WEIGHT: u64 = 255;

const NO_PATH: u64 = 255;

// The number of a refusal.
fn refusal_word(why: Refusal) -> u64
    ensures { result ≡ refusal_number why }
{
    u64::from(u8::from(why))
}

// The counts of a table: tapes from bit 8 on, states from bit 16 on, arcs from bit 32 on.
fn counts_word(c: Counts) -> u64
    requires { (c.tapes ≤ 8) × (c.states ≤ 1024) × (c.arcs ≤ 8192) }
    ensures { result ≡ 256 * c.tapes + 65536 * c.states + 4294967296 * c.arcs }
{
    256 * c.tapes as u64 + 65536 * c.states as u64 + 4294967296 * c.arcs as u64
}

// The counts of a table that was made, or the refusal's number.
pub fn table_word(answer: Result<Counts, Refusal>) -> u64
    requires { CountsFit (table_as answer) }
    ensures { result ≡ table_word (table_as answer) }
{
    match answer {
        Ok(c) => counts_word(c),
        Err(why) => refusal_word(why),
    }
}

// A number from bit 8 on.
fn shifted(n: u64) -> u64
    requires { n < 72057594037927936 }
    ensures { result ≡ 256 * n }
{
    256 * n
}

// The number of bytes written, from bit 8 on, or the refusal's number.
pub fn bytes_word(answer: Result<usize, Refusal>) -> u64
    requires { BytesFit (written_as answer) }
    ensures { result ≡ bytes_word (written_as answer) }
{
    match answer {
        Ok(n) => shifted(n as u64),
        Err(why) => refusal_word(why),
    }
}

// The weight of a tuple, from bit 8 on, 255 for none, or the refusal's number.
pub fn weight_word(answer: Result<Option<u64>, Refusal>) -> u64
    requires { WeightFits (weight_as answer) }
    ensures { result ≡ weight_word (weight_as answer) }
{
    match answer {
        Ok(Some(w)) => shifted(w),
        Ok(None) => NO_WEIGHT,
        Err(why) => refusal_word(why),
    }
}

// 0 for a path, which stands in lent bytes, 255 for none, or the refusal's number.
pub fn path_word(answer: Result<Option<PathTold>, Refusal>) -> u64
    ensures { result ≡ path_word (path_as answer) }
{
    match answer {
        Ok(Some(_)) => 0,
        Ok(None) => NO_PATH,
        Err(why) => refusal_word(why),
    }
}

// The number of bytes of the records of forecasts, from bit 8 on, or the refusal's number.
pub fn forecast_word(answer: Result<ForecastList, Refusal>) -> u64
    requires { IfOk answer (λ list. list.used ≤ 4) }
    ensures { result ≡ bytes_word (record_bytes (answer_as answer)) }
{
    match answer {
        Ok(list) => shifted((RECORD * list.used) as u64),
        Err(why) => refusal_word(why),
    }
}
