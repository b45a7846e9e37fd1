// One case: a table read from its text, pairs of its tapes forecast, each with a limit, and what is printed of the
// answer.
ghost use Rattle.std.specs.Prelude.{◌+◌, ◌≤◌, length};

use cases::input::{bytes, lent, number, table};
use cases::print::{front_clear, kept_from, print_clear_line, print_kept, print_number};
use forecast::call::forecast_into;
use forecast_records::{ForecastList, RECORD};
use table::answer::Refusal;
use table::bytes::get16;
use table::layout::{ARC_SIZE, STATE_SIZE};
use table::lent::Table;

// The records of a table of at most 12 states and 12 arcs.
const STATE_SPACE: usize = 12 * STATE_SIZE;

const ARC_SPACE: usize = 12 * ARC_SIZE;

// The most bytes of result space and of work space that a case is lent.
const MOST_RESULT: usize = 60;

const MOST_WORK: usize = 2000;

// The answer of a forecast, and the space that was lent to it.
#[derive(Drop)]
struct Told {
    answer: Result<ForecastList, Refusal>,
    result: [u8; 60],
    work: [u8; 2000],
}

// The record at a place of the result space: its delay and its number, or what stands in their place.
fn print_record(res: &[u8], at: usize)
    requires { at + 6 ≤ length res.now }
{
    match get16(res, at) {
        3 => {
            io::write_all(1, b" mixed");
        }
        which => {
            io::write_all(1, b" delay");
            print_number(usize::from(get16(res, at + 2)));
            if which == 2 {
                io::write_all(1, b" over");
            } else {
                io::write_all(1, b" number");
                print_number(usize::from(get16(res, at + 4)));
            }
        }
    }
}

// The first records, of at most ten.
fn print_records(res: &[u8; 60], used: usize) {
    for h in 0..used.min(10) {
        print_record(res, RECORD * h);
    }
}

// What is told, or the refusal, and whether the bytes of the result space behind it are as they were lent.
fn print_answer(answer: Result<ForecastList, Refusal>, res: &[u8; 60]) {
    match answer {
        Err(why) => {
            io::write_all(1, b" refused");
            print_number(usize::from(u8::from(why)));
            print_kept(kept_from(res, 0));
        }
        Ok(list) => {
            print_records(res, list.used);
            if list.used <= 10 {
                print_kept(kept_from(res, RECORD * list.used));
            }
        }
    }
}

// Forecasts the pairs at the end of the line, with as many bytes of result and of work lent as the line says.
fn tell(input: &[u8], at: usize, table: &Table) -> Told {
    let mut result = [170u8; 60];
    let mut work = [170u8; 2000];
    let mut pairs = [0u8; 18];
    let n = bytes(input, at, 4, &mut pairs);
    let result_end = lent(input, at, 2, 1, MOST_RESULT);
    let work_end = lent(input, at, 3, 1, MOST_WORK);
    let answer = forecast_into(
        table,
        &pairs[0..n],
        &mut result[0..result_end],
        &mut work[0..work_end],
    );
    Told {
        answer,
        result,
        work,
    }
}

// What is told of the table of at most 12 states and 12 arcs that the line names.
fn foretell(input: &[u8], at: usize) -> Told {
    let mut states = [0u8; STATE_SPACE];
    let mut arcs = [0u8; ARC_SPACE];
    let counts = table(input, at, 1, &mut states, &mut arcs);
    let table = Table {
        counts,
        states: &states,
        arcs: &arcs,
    };
    tell(input, at, &table)
}

// The case whose line begins at a place: its number comes first.
pub fn case(input: &[u8], at: usize) {
    let made = foretell(input, at);
    io::print_decimal(1, number(input, at, 0) as u64);
    print_answer(made.answer, &made.result);
    print_clear_line(front_clear(&made.work, number(input, at, 3)));
}
