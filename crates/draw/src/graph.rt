// The graph of a table, as Graphviz reads it.
use agree_line::line::read_line;
use table::answer::Refusal;
use table::arc::{arc_weight_at, labels_start, source_at, target_at};
use table::bytes::get32;
use table::layout::{
    AMOUNT_PLACE, ARC_SIZE, FINAL_PLACE, LABEL_SIZE, PRESENT, STATE_SIZE, SYMBOLS_PLACE,
    WEIGHT_SIZE,
};
use table::lent::Table;

// Room for 1,024 states and 2,048 arcs, of at most eight tapes.
const TAPES: usize = 8;

const STATES: usize = 1024;

const ARCS: usize = 2048;

const STATE_SPACE: usize = STATES * STATE_SIZE;

const ARC_SPACE: usize = ARCS * ARC_SIZE;

// Bytes to standard output.
fn put(text: &[u8]) {
    io::write_all(1, text);
}

// A number to standard output.
fn put_number(n: u64) {
    io::print_decimal(1, n);
}

// A weight of a state, where it is there: a line of the node's label that begins with a word.
fn put_weight(states: &[u8], at: usize, word: &[u8]) {
    if states.len() < WEIGHT_SIZE || states.len() - WEIGHT_SIZE < at {
        return;
    }
    if states[at] == PRESENT {
        put(word);
        put_number(u64::from(get32(states, at + AMOUNT_PLACE)));
    }
}

// The outline of a state: double where it has a final weight.
fn put_outline(states: &[u8], at: usize) {
    if at < states.len() && states[at] == PRESENT {
        put(b", shape=doublecircle");
    }
}

// The node of the state with number `q`, whose record stands at `at`.
fn put_state(states: &[u8], q: usize, at: usize) {
    if 1000000 < at {
        return;
    }
    put(b"  ");
    put_number(q as u64);
    put(b" [label=\"");
    put_number(q as u64);
    put_weight(states, at, b"\\nin ");
    put_weight(states, at + FINAL_PLACE, b"\\nout ");
    put(b"\"");
    put_outline(states, at + FINAL_PLACE);
    put(b"];\n");
}

// The label in the nine bytes at a place, `-` where it is empty; a colon before it where it is not the first.
fn put_label(arcs: &[u8], at: usize, first: bool) {
    if arcs.len() < LABEL_SIZE || arcs.len() - LABEL_SIZE < at {
        return;
    }
    if !first {
        put(b":");
    }
    let length = usize::from(arcs[at]);
    if length == 0 {
        put(b"-");
    }
    if length <= 8 {
        let symbols = at + SYMBOLS_PLACE;
        put(&arcs[symbols..symbols + length]);
    }
}

// The labels of an arc on so many tapes, a colon between two.
fn put_labels(arcs: &[u8], start: usize, tapes: usize) {
    let mut at = start;
    for tape in 0..tapes.min(TAPES) {
        if 1000000 < at {
            return;
        }
        put_label(arcs, at, tape == 0);
        at += LABEL_SIZE;
    }
}

// The edge of the arc whose record stands at `at`.
fn put_arc(arcs: &[u8], at: usize, tapes: usize) {
    if arcs.len() < ARC_SIZE || arcs.len() - ARC_SIZE < at {
        return;
    }
    put(b"  ");
    put_number(u64::from(source_at(arcs, at).0));
    put(b" -> ");
    put_number(u64::from(target_at(arcs, at).0));
    put(b" [label=\"");
    put_labels(arcs, labels_start(at), tapes);
    put(b" / ");
    put_number(u64::from(arc_weight_at(arcs, at)));
    put(b"\"];\n");
}

// The nodes of all states.
fn put_states(states: &[u8], count: usize) {
    for q in 0..count.min(STATES) {
        put_state(states, q, STATE_SIZE * q);
    }
}

// The edges of all arcs.
fn put_arcs(arcs: &[u8], count: usize, tapes: usize) {
    for i in 0..count.min(ARCS) {
        put_arc(arcs, ARC_SIZE * i, tapes);
    }
}

// The whole graph.
fn put_graph(table: &Table) {
    put(b"digraph table {\n  rankdir=LR;\n  node [shape=circle];\n");
    let counts = table.counts;
    put_states(table.states, counts.states);
    put_arcs(table.arcs, counts.arcs, counts.tapes);
    put(b"}\n");
}

// The word of a refusal.
fn put_word(why: Refusal) {
    match why {
        Refusal::Short => put(b"short"),
        Refusal::Form => put(b"form"),
        Refusal::Size => put(b"size"),
        Refusal::State => put(b"state"),
        Refusal::Tape => put(b"tape"),
        Refusal::Pairs => put(b"pairs"),
        Refusal::Limit => put(b"limit"),
        Refusal::StatesFull => put(b"states full"),
        Refusal::ArcsFull => put(b"arcs full"),
        Refusal::Delay => put(b"delay"),
        Refusal::Weight => put(b"weight"),
        Refusal::Width => put(b"width"),
        Refusal::Space => put(b"space"),
        Refusal::Path => put(b"path"),
    }
}

// The graph of a refusal: one node with its number and its word.
fn put_refusal(why: Refusal) {
    put(b"digraph table {\n  refused [shape=box, label=\"refused ");
    put_number(u64::from(u8::from(why)));
    put(b": ");
    put_word(why);
    put(b"\"];\n}\n");
}

// The graph of the table that a text describes, or of its refusal. A text of at most 65,536 bytes has at most 2,047
// arcs.
fn draw_table(text: &[u8]) {
    let mut states = [0u8; STATE_SPACE];
    let mut arcs = [0u8; ARC_SPACE];
    match text::read(text, &mut states, &mut arcs) {
        Ok(counts) => put_graph(&Table {
            counts,
            states: &states,
            arcs: &arcs,
        }),
        Err(why) => put_refusal(why),
    }
}

// Where the table of an input begins: behind its pair line, or at the front where there is none. No table begins with a
// pair line: the byte 10 that ends a header stands behind the end of a line of one pair, and at a column of a tape in a
// line of more.
fn table_start(input: &[u8]) -> usize {
    match read_line(input) {
        Ok(parts) => parts.next,
        Err(_) => 0,
    }
}

// The graph of the table of an input, which may have a pair line before it. An input of more than 65,536 bytes is 3.
pub fn draw_input(input: &[u8]) {
    if 65536 < input.len() {
        put_refusal(Refusal::Size);
        return;
    }
    let start = table_start(input);
    if start <= input.len() {
        draw_table(&input[start..]);
    }
}
