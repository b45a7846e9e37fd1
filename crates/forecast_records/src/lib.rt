// Forecasts by value, and in lent bytes for callers in C.
#![tactic(auto)]

ghost use Rattle.std.specs.Prelude.{◌≡◌, ◌+◌, ◌*◌, ◌≤◌, length};
ghost use Rattle.automata.specs.Calls.Forecast.{forecast_size, forecast_parts, forecast_record, forecast_records};
ghost use Rattle.automata.specs.Calls.Outcome.{overwrite};
ghost use Rattle.table.specs.Region.{splice};
ghost use Rattle.forecast_records.specs.Values.{no_forecasts, forecast_as, forecasts_as};

use table::bytes::put16;

// The bytes of a record, and what it tells: a delay and a number, a delay and "over", or mixed.
pub const RECORD: usize = 6;

const NUMBER: u16 = 1;

const OVER: u16 = 2;

const MIXED: u16 = 3;

// What a build on a pair of tapes can need: a delay and a number, a delay and a number that is over, or, of a mixed pair,
// neither.
#[derive(Clone, Copy)]
pub enum Forecast {
    Mixed,
    Over { delay: u16 },
    Told { delay: u16, number: u16 },
}

// The forecasts of a call: the first `used` of four (no heap: a list of at most four is passed by value).
#[derive(Clone, Copy)]
pub struct ForecastList {
    pub forecasts: [Forecast; 4],
    pub used: usize,
}

// No forecasts: four that tell nothing, none of them used.
pub fn no_forecasts() -> ForecastList
    ensures { result ≡ no_forecasts }
{
    let none = Forecast::Told {
        delay: 0,
        number: 0,
    };
    ForecastList {
        forecasts: [none; 4],
        used: 0,
    }
}

// A record at a place: which it is, the delay, the number.
fn put_parts(res: &mut [u8], at: usize, which: u16, delay: u16, number: u16)
    requires { at + forecast_size ≤ length res.old }
    ensures { res.new ≡ splice at (forecast_parts which delay number) res.old }
{
    put16(res, at, which);
    put16(res, at + 2, delay);
    put16(res, at + 4, number);
}

// The record of a forecast at a place.
fn put_forecast(res: &mut [u8], at: usize, f: Forecast)
    requires { at + forecast_size ≤ length res.old }
    ensures { res.new ≡ splice at (forecast_record (forecast_as f)) res.old }
{
    match f {
        Forecast::Mixed => put_parts(res, at, MIXED, 0, 0),
        Forecast::Over { delay } => put_parts(res, at, OVER, delay, 0),
        Forecast::Told { delay, number } => put_parts(res, at, NUMBER, delay, number),
    }
}

// The records of the forecasts over the front of the result space.
pub fn put_forecasts(list: ForecastList, res: &mut [u8])
    requires { (list.used ≤ 4) × (forecast_size * list.used ≤ length res.old) }
    ensures { res.new ≡ overwrite (forecast_records (forecasts_as list)) res.old }
{
    for h in 0..list.used {
        put_forecast(res, RECORD * h, list.forecasts[h]);
    }
}
