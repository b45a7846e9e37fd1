// The forecasts of a list of pairs, of a table that is known to be one.
ghost use Rattle.std.specs.Prelude.{◌≡◌, false, map, ◌-◌, ◌*◌, ◌≤◌, ◌<◌, length};
ghost use Rattle.automata.specs.TapePair.{tapes_of};
ghost use Rattle.automata.specs.Memory.{Sound, table_of};
ghost use Rattle.automata.specs.Forecast.{needs, path_states, told_capped};
ghost use Rattle.automata.specs.ForecastCall.{forecast_of};
ghost use Rattle.automata.specs.Calls.Work.{forecast_work};
ghost use Rattle.automata.specs.Layout.{delays_size};
ghost use Rattle.table.specs.Answers.{memory};
ghost use Rattle.table.specs.Pairs.{Within, Named, tapes_as, pairs_as};
ghost use Rattle.delays_relaxation.specs.Edges.{ReadableArcs};
ghost use Rattle.forecast_counts.specs.Symbols.{ShortLabels};
ghost use Rattle.forecast_records.specs.Values.{forecast_as, forecasts_as};
ghost use Rattle.forecast.specs.Pairs.{Marked, delay_by, needed_by};

use delays::{close_pair, mark_reaching};
use delays_relaxation::listing::list_arcs;
use forecast_counts::{
    FROM_INITIAL, LEAST_BEFORE, TO_FINAL, capped_sum, greatest_delay, meets_both, path_states,
    symbols_used,
};
use forecast_records::{Forecast, ForecastList, no_forecasts};
use table::lent::Table;
use table::pair::{Pair, PairList};

// The delay that a pair can need: the states on successful paths less one, or 0, times the greatest delay of an arc.
fn delay_by(found: usize, greatest: u8) -> usize
    requires { found ≤ 1024 }
    ensures { result ≡ (found - 1) * greatest }
{
    found.saturating_sub(1) * usize::from(greatest)
}

// A delay, and the number of states times the bound on leftovers with it and so many symbols, or that this is over.
fn told_by(states: usize, symbols: usize, delay: u16) -> Forecast
    requires { (states ≤ 1024) × (symbols ≤ 256) }
    ensures { forecast_as result ≡ needs delay (told_capped states symbols delay) }
{
    let sum = capped_sum(symbols, usize::from(delay));
    let number = states * (1 + 2 * sum);
    match u16::try_from(number) {
        Ok(number) => Forecast::Told { delay, number },
        Err(_) => Forecast::Over { delay },
    }
}

// What a pair that is not mixed can need, on two tapes counted from 0.
fn needed(
    arcs: &[u8],
    count: usize,
    first: usize,
    second: usize,
    work: &[u8],
    states: usize,
    found: usize,
) -> Forecast
    requires { ReadableArcs states arcs.now count false first second × ShortLabels arcs.now count first second
        × (delays_size * states ≤ length work.now) × (states ≤ 1024) × (found ≤ 1024)
        × (delay_by first second count arcs.now states work.now found < 65536) }
    ensures { forecast_as result ≡ needed_by first second count arcs.now states work.now found }
{
    let greatest = greatest_delay(arcs, count, first, second, work, states);
    let delay = delay_by(found, greatest);
    let symbols = symbols_used(arcs, count, first, second);
    told_by(states, symbols, delay as u16)
}

// The forecast of a pair, with the states on successful paths marked and counted.
fn forecast_pair(table: &Table, order: &[u16], p: Pair, found: usize, work: &mut [u8]) -> Forecast
    requires { Sound (memory table.now) × Within table.now.counts.tapes p
        × (forecast_work table.now.counts.states ≤ length work.old) × Marked (memory table.now) work.old
        × (found ≡ path_states (table_of (memory table.now))) }
    ensures { (forecast_as result ≡ forecast_of (table_of (memory table.now))
        (tapes_as p)) × Marked (memory table.now) work.new }
{
    let Table {
        counts,
        states,
        arcs,
    } = *table;
    let n = counts.states;
    let count = counts.arcs;
    close_pair(states, n, arcs, count, false, order, p, work, 0);
    close_pair(states, n, arcs, count, true, order, p, work, LEAST_BEFORE);
    if meets_both(work, n) {
        Forecast::Mixed
    } else {
        let first = p.first as usize - 1;
        let second = p.second as usize - 1;
        needed(arcs, count, first, second, work, n, found)
    }
}

// Those of all pairs, in list order.
fn forecast_pairs(
    table: &Table,
    order: &[u16],
    pairs: PairList,
    found: usize,
    work: &mut [u8],
) -> ForecastList
    requires { Sound (memory table.now) × Named table.now.counts.tapes pairs
        × (forecast_work table.now.counts.states ≤ length work.old) × Marked (memory table.now) work.old
        × (found ≡ path_states (table_of (memory table.now))) }
    ensures { (result.used ≤ 4) × (forecasts_as result
        ≡ map (forecast_of (table_of (memory table.now)))
        (tapes_of (pairs_as pairs))) }
{
    let mut forecasts = no_forecasts().forecasts;
    for h in 0..pairs.used {
        forecasts[h] = forecast_pair(table, order, pairs.pairs[h], found, work);
    }
    ForecastList {
        forecasts,
        used: pairs.used,
    }
}

// A forecast for each pair, in list order.
pub fn forecasts_of(table: &Table, pairs: PairList, work: &mut [u8]) -> ForecastList
    requires { Sound (memory table.now) × Named table.now.counts.tapes pairs
        × (forecast_work table.now.counts.states ≤ length work.old) }
    ensures { (result.used ≤ 4) × (forecasts_as result
        ≡ map (forecast_of (table_of (memory table.now)))
        (tapes_of (pairs_as pairs))) }
{
    let Table {
        counts,
        states,
        arcs,
    } = *table;
    let n = counts.states;
    let count = counts.arcs;
    let mut order = [65535u16; 8192];
    list_arcs(states, n, arcs, count, true, &mut order);
    mark_reaching(states, n, arcs, count, false, &order, work, TO_FINAL);
    mark_reaching(states, n, arcs, count, true, &order, work, FROM_INITIAL);
    let found = path_states(work, n);
    forecast_pairs(table, &order, pairs, found, work)
}
