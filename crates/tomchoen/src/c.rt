// The calls for C. A slice is a pointer and a length; slices of a call must not overlap, but two only read may.
ghost use Rattle.std.specs.Prelude.{◌≡◌};
ghost use Rattle.automata.specs.TapePair.{tapes_of};
ghost use Rattle.automata.specs.Memory.{memory_of};
ghost use Rattle.automata.specs.Calls.Outcome.{slices_of};
ghost use Rattle.automata.specs.Calls.Read.{read_outcome};
ghost use Rattle.automata.specs.Calls.Write.{write_outcome};
ghost use Rattle.automata.specs.Calls.Intersect.{intersect_outcome};
ghost use Rattle.automata.specs.Calls.Product.{product_outcome};
ghost use Rattle.automata.specs.Calls.Join.{join_outcome};
ghost use Rattle.automata.specs.Calls.Union.{union_outcome};
ghost use Rattle.automata.specs.Calls.Project.{project_outcome};
ghost use Rattle.automata.specs.Calls.Drop.{drop_outcome};
ghost use Rattle.automata.specs.Calls.Lookup.{lookup_outcome};
ghost use Rattle.automata.specs.Calls.LeastPath.{path_recorded};
ghost use Rattle.automata.specs.Calls.Forecast.{forecast_recorded};
ghost use Rattle.table.specs.Answers.{memory};
ghost use Rattle.pairs.specs.PairBytes.{pairs_of};
ghost use Rattle.c_answers.specs.Words.{tells_made, told_made, tells_built, told_built, tells_joined, told_joined, tells_written, told_written, tells_found, told_found, tells_recorded, told_recorded, tells_path, told_path};

use c_answers::word::{bytes_word, forecast_word, path_word, table_word, weight_word};
use path::record::path_into;
use table::answer::Counts;
use table::lent::Table;

// A table as a caller in C lends it: its counts and the bytes of its records.
fn lent<'a>(
    tapes: usize,
    states: usize,
    arcs: usize,
    state_bytes: &'a [u8],
    arc_bytes: &'a [u8],
) -> Table<'a>
    ensures { memory result ≡ memory_of tapes states arcs state_bytes.now arc_bytes.now }
{
    let counts = Counts {
        tapes,
        states,
        arcs,
    };
    Table {
        counts,
        states: state_bytes,
        arcs: arc_bytes,
    }
}

// Reads the text of a table.
pub fn tomchoen_read(text: &[u8], out_states: &mut [u8], out_arcs: &mut [u8]) -> u64
    ensures { tells_made result out_states.new out_arcs.new
        ≡ told_made (read_outcome text.now
        (slices_of out_states.old out_arcs.old)) }
{
    let answer = text::read(text, out_states, out_arcs);
    table_word(answer)
}

// Writes the text of a table.
pub fn tomchoen_write(
    tapes: usize,
    states: usize,
    arcs: usize,
    state_bytes: &[u8],
    arc_bytes: &[u8],
    output: &mut [u8],
) -> u64
    ensures { tells_written result output.new
        ≡ told_written (write_outcome (memory_of tapes states arcs state_bytes.now arc_bytes.now)
        output.old) }
{
    let table = lent(tapes, states, arcs, state_bytes, arc_bytes);
    let answer = text::write(&table, output);
    bytes_word(answer)
}

// Keeps the accounts that agree on pairs of tapes, three bytes a pair: its tapes and its limit.
pub fn tomchoen_build(
    tapes: usize,
    states: usize,
    arcs: usize,
    state_bytes: &[u8],
    arc_bytes: &[u8],
    pairs: &[u8],
    out_states: &mut [u8],
    out_arcs: &mut [u8],
    work: &mut [u8],
) -> u64
    ensures { tells_built result out_states.new out_arcs.new work.new
        ≡ told_built (intersect_outcome (memory_of tapes states arcs state_bytes.now
        arc_bytes.now) (pairs_of pairs.now)
        (slices_of out_states.old out_arcs.old) work.old) }
{
    let table = lent(tapes, states, arcs, state_bytes, arc_bytes);
    let answer = intersect::call::intersect(&table, pairs, out_states, out_arcs, work);
    table_word(answer)
}

// The aligned product of two tables.
pub fn tomchoen_product(
    first_tapes: usize,
    first_states: usize,
    first_arcs: usize,
    first_state_bytes: &[u8],
    first_arc_bytes: &[u8],
    second_tapes: usize,
    second_states: usize,
    second_arcs: usize,
    second_state_bytes: &[u8],
    second_arc_bytes: &[u8],
    out_states: &mut [u8],
    out_arcs: &mut [u8],
    work: &mut [u8],
) -> u64
    ensures { tells_built result out_states.new out_arcs.new work.new
        ≡ told_built (product_outcome (memory_of first_tapes first_states first_arcs
        first_state_bytes.now first_arc_bytes.now)
        (memory_of second_tapes second_states second_arcs second_state_bytes.now
        second_arc_bytes.now) (slices_of out_states.old out_arcs.old)
        work.old) }
{
    let first = lent(
        first_tapes,
        first_states,
        first_arcs,
        first_state_bytes,
        first_arc_bytes,
    );
    let second = lent(
        second_tapes,
        second_states,
        second_arcs,
        second_state_bytes,
        second_arc_bytes,
    );
    let answer = product::call::product(&first, &second, out_states, out_arcs, work);
    table_word(answer)
}

// Joins two tables on pairs of tapes, three bytes a pair: its tapes and its limit.
pub fn tomchoen_join(
    first_tapes: usize,
    first_states: usize,
    first_arcs: usize,
    first_state_bytes: &[u8],
    first_arc_bytes: &[u8],
    second_tapes: usize,
    second_states: usize,
    second_arcs: usize,
    second_state_bytes: &[u8],
    second_arc_bytes: &[u8],
    pairs: &[u8],
    product_states: &mut [u8],
    product_arcs: &mut [u8],
    out_states: &mut [u8],
    out_arcs: &mut [u8],
    work: &mut [u8],
) -> u64
    ensures { tells_joined result out_states.new out_arcs.new product_states.new
        product_arcs.new work.new
        ≡ told_joined (join_outcome (memory_of first_tapes first_states first_arcs first_state_bytes.now
        first_arc_bytes.now) (memory_of second_tapes second_states second_arcs
        second_state_bytes.now second_arc_bytes.now) (pairs_of pairs.now)
        (slices_of product_states.old product_arcs.old)
        (slices_of out_states.old out_arcs.old) work.old) }
{
    let first = lent(
        first_tapes,
        first_states,
        first_arcs,
        first_state_bytes,
        first_arc_bytes,
    );
    let second = lent(
        second_tapes,
        second_states,
        second_arcs,
        second_state_bytes,
        second_arc_bytes,
    );
    let answer = join::call::join(
        &first,
        &second,
        pairs,
        product_states,
        product_arcs,
        out_states,
        out_arcs,
        work,
    );
    table_word(answer)
}

// Appends the second table to the first.
pub fn tomchoen_union(
    first_tapes: usize,
    first_states: usize,
    first_arcs: usize,
    first_state_bytes: &[u8],
    first_arc_bytes: &[u8],
    second_tapes: usize,
    second_states: usize,
    second_arcs: usize,
    second_state_bytes: &[u8],
    second_arc_bytes: &[u8],
    out_states: &mut [u8],
    out_arcs: &mut [u8],
) -> u64
    ensures { tells_made result out_states.new out_arcs.new
        ≡ told_made (union_outcome (memory_of first_tapes first_states first_arcs first_state_bytes.now
        first_arc_bytes.now) (memory_of second_tapes second_states second_arcs
        second_state_bytes.now second_arc_bytes.now)
        (slices_of out_states.old out_arcs.old)) }
{
    let first = lent(
        first_tapes,
        first_states,
        first_arcs,
        first_state_bytes,
        first_arc_bytes,
    );
    let second = lent(
        second_tapes,
        second_states,
        second_arcs,
        second_state_bytes,
        second_arc_bytes,
    );
    let answer = tapes::union::union(&first, &second, out_states, out_arcs);
    table_word(answer)
}

// Chooses tapes, one byte a tape.
pub fn tomchoen_project(
    tapes: usize,
    states: usize,
    arcs: usize,
    state_bytes: &[u8],
    arc_bytes: &[u8],
    chosen: &[u8],
    out_states: &mut [u8],
    out_arcs: &mut [u8],
) -> u64
    ensures { tells_made result out_states.new out_arcs.new
        ≡ told_made (project_outcome (memory_of tapes states arcs state_bytes.now arc_bytes.now)
        chosen.now (slices_of out_states.old out_arcs.old)) }
{
    let table = lent(tapes, states, arcs, state_bytes, arc_bytes);
    let answer = tapes::project::project(&table, chosen, out_states, out_arcs);
    table_word(answer)
}

// Drops the tapes marked in a mask.
pub fn tomchoen_drop(
    tapes: usize,
    states: usize,
    arcs: usize,
    state_bytes: &[u8],
    arc_bytes: &[u8],
    mask: u8,
    out_states: &mut [u8],
    out_arcs: &mut [u8],
) -> u64
    ensures { tells_made result out_states.new out_arcs.new
        ≡ told_made (drop_outcome (memory_of tapes states arcs state_bytes.now arc_bytes.now)
        mask (slices_of out_states.old out_arcs.old)) }
{
    let table = lent(tapes, states, arcs, state_bytes, arc_bytes);
    let answer = tapes::drop::drop_tapes(&table, mask, out_states, out_arcs);
    table_word(answer)
}

// Looks the weight of a tuple up.
pub fn tomchoen_lookup(
    tapes: usize,
    states: usize,
    arcs: usize,
    state_bytes: &[u8],
    arc_bytes: &[u8],
    tuple: &[u8],
    work: &mut [u8],
) -> u64
    ensures { tells_found result work.new
        ≡ told_found (lookup_outcome (memory_of tapes states arcs state_bytes.now arc_bytes.now)
        tuple.now work.old) }
{
    let table = lent(tapes, states, arcs, state_bytes, arc_bytes);
    let answer = lookup::call::lookup(&table, tuple, work);
    weight_word(answer)
}

// Looks the weight of a tuple up with the path behind it: weight, starting state and number of arcs in `result`, the
// arc numbers in `list`.
pub fn tomchoen_path(
    tapes: usize,
    states: usize,
    arcs: usize,
    state_bytes: &[u8],
    arc_bytes: &[u8],
    tuple: &[u8],
    res: &mut [u8],
    list: &mut [u8],
    work: &mut [u8],
) -> u64
    ensures { tells_path result res.new list.new work.new
        ≡ told_path (path_recorded (memory_of tapes states arcs state_bytes.now arc_bytes.now)
        tuple.now res.old list.old work.old) }
{
    let table = lent(tapes, states, arcs, state_bytes, arc_bytes);
    let answer = path_into(&table, tuple, res, list, work);
    path_word(answer)
}

// Tells for pairs of tapes, three bytes a pair, what a build on each can need. No limit is read.
pub fn tomchoen_forecast(
    tapes: usize,
    states: usize,
    arcs: usize,
    state_bytes: &[u8],
    arc_bytes: &[u8],
    pairs: &[u8],
    res: &mut [u8],
    work: &mut [u8],
) -> u64
    ensures { tells_recorded result res.new work.new
        ≡ told_recorded (forecast_recorded (memory_of tapes states arcs state_bytes.now
        arc_bytes.now) (tapes_of (pairs_of pairs.now)) res.old
        work.old) }
{
    let table = lent(tapes, states, arcs, state_bytes, arc_bytes);
    let answer = forecast::call::forecast_into(&table, pairs, res, work);
    forecast_word(answer)
}
