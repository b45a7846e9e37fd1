// The records of the result: the states of the marked configurations, and the arcs between them.
ghost use Rattle.std.specs.Prelude.{◌≡◌, ◌+◌, ◌*◌, ◌≤◌, ◌<◌, length, take};
ghost use Rattle.automata.specs.Calls.Outcome.{overwrite};
ghost use Rattle.automata.specs.Layout.{arc_size, config_size, state_size, step_size};
ghost use Rattle.table.specs.Region.{part, splice, rows};
ghost use Rattle.intersect_edges.specs.Edges.{edges_at, Joined};
ghost use Rattle.intersect_edges.specs.Marked.{bit};
ghost use Rattle.intersect_trim.specs.Rows.{row_state, Within};
ghost use Rattle.intersect_trim.specs.Result.{row_record, marked_state, kept_states, both_marks, arc_bytes, marked_arc, kept_arcs, ArcsWithin, ArcsWritten};

use crate::final_marks::{record_place, row_plain};
use intersect_edges::edge::{EdgeRecord, load_edge};
use table::arc::{copy_content, store_ends};
use table::bytes::copy_into;
use table::layout::{ARC_SIZE, CONFIG_SIZE, STATE_SIZE, STEP_SIZE};
use table::record::ResultState;

// The record of the row at `at`: that of its input state where there is no leftover, else ten zeros.
fn store_row(work: &[u8], at: usize, states: &[u8], out: &mut [u8], to: usize)
    requires { (at + config_size ≤ length work.now)
        × (state_size * row_state (part at config_size work.now) + state_size ≤ length states.now)
        × (to + state_size ≤ length out.old) }
    ensures { out.new ≡ splice to (row_record states.now
        (part at config_size work.now)) out.old }
{
    if row_plain(work, at) {
        let place = record_place(work, at);
        copy_into(out, to, &states[place..place + STATE_SIZE]);
    } else {
        copy_into(out, to, &[0; STATE_SIZE]);
    }
}

// The record of the row at `at` if it is marked. Answers the place behind what was written.
fn put_state(work: &[u8], at: usize, mark: u8, states: &[u8], out: &mut [u8], to: usize) -> usize
    requires { (at + config_size ≤ length work.now)
        × (state_size * row_state (part at config_size work.now) + state_size ≤ length states.now)
        × (to + length (marked_state mark states.now (part at config_size work.now)) ≤ length out.old) }
    ensures { (out.new ≡ splice to (marked_state mark states.now
        (part at config_size work.now)) out.old)
        × (result ≡ to + length (marked_state mark states.now (part at config_size work.now))) }
{
    if mark != 1 {
        return to;
    }
    store_row(work, at, states, out, to);
    to + STATE_SIZE
}

// The state records of the marked rows among the first `count`, in their order, over the front of `out`.
pub fn write_states(work: &[u8], count: usize, marks: &[u8], states: &[u8], out: &mut [u8])
    requires { (config_size * count ≤ length work.now) × (count ≤ length marks.now)
        × Within (length states.now) (rows 0 config_size count work.now)
        × (length (kept_states states.now (take count marks.now) (rows 0 config_size count work.now))
        ≤ length out.old) }
    ensures { out.new ≡ overwrite (kept_states states.now (take count marks.now)
        (rows 0 config_size count work.now)) out.old }
{
    let mut to = 0;
    for k in 0..count {
        to = put_state(work, CONFIG_SIZE * k, marks[k], states, out, to);
    }
}

// The record of an arc: the numbers of its ends among those kept, and what the input arc carries.
fn store_arc(e: EdgeRecord, ranks: &[u16], inputs: &[u8], out: &mut [u8], to: usize)
    requires { (e.from.0 < length ranks.now) × (e.to.0 < length ranks.now)
        × (arc_size * e.arc + arc_size ≤ length inputs.now) × (to + arc_size ≤ length out.old) }
    ensures { out.new ≡ splice to (arc_bytes ranks.now inputs.now e)
        out.old }
{
    let source = ResultState(ranks[e.from.0 as usize]);
    let target = ResultState(ranks[e.to.0 as usize]);
    store_ends(out, to, source, target);
    copy_content(inputs, ARC_SIZE * e.arc as usize, out, to);
}

// The record of an arc if both its ends are marked. Answers how many were written.
fn put_arc(
    e: EdgeRecord,
    marks: &[u8],
    ranks: &[u16],
    inputs: &[u8],
    out: &mut [u8],
    to: usize,
) -> usize
    requires { (e.from.0 < length marks.now) × (e.to.0 < length marks.now)
        × (length marks.now ≤ length ranks.now) × (arc_size * e.arc + arc_size ≤ length inputs.now)
        × (to + length (marked_arc marks.now ranks.now inputs.now e) ≤ length out.old) }
    ensures { (out.new ≡ splice to (marked_arc marks.now ranks.now
        inputs.now e) out.old) × (result ≡ bit (both_marks marks.now e)) × (result < 2) }
{
    if marks[e.from.0 as usize] != 1 || marks[e.to.0 as usize] != 1 {
        return 0;
    }
    store_arc(e, ranks, inputs, out, to);
    1
}

// The arc records of the edges between marked configurations, in their order, over the front of `out`. Answers how many
// they are.
pub fn write_arcs(
    work: &[u8],
    base: usize,
    arcs: usize,
    marks: &[u8],
    ranks: &[u16],
    inputs: &[u8],
    out: &mut [u8],
) -> usize
    requires { (base + step_size * arcs ≤ length work.now) × (length marks.now ≤ length ranks.now)
        × Joined (length marks.now) (edges_at base arcs work.now)
        × ArcsWithin (length inputs.now) (edges_at base arcs work.now)
        × (length (kept_arcs marks.now ranks.now inputs.now (edges_at base arcs work.now)) ≤ length out.old) }
    ensures { ArcsWritten marks.now ranks.now inputs.now
        (edges_at base arcs work.now) result out.new out.old }
{
    let mut to = 0;
    let mut kept = 0;
    for i in 0..arcs {
        let e = load_edge(work, base + STEP_SIZE * i);
        let n = put_arc(e, marks, ranks, inputs, out, to);
        to += ARC_SIZE * n;
        kept += n;
    }
    kept
}
