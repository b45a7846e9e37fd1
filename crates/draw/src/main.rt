// The program `draw`: the text of a table, or an input of `agree`, from standard input, and to standard output a graph
// for Graphviz: a node for each state with its weights, an edge for each arc with its labels and its weight. A refusal
// is a graph of one node.
#![tactic(auto)]

mod graph;

use crate::graph::draw_input;

// Room for an input and for one byte more.
fn input_space() -> [u8; 65537] {
    [0; 65537]
}

// What is drawn of the first bytes of a slice that was read.
fn run(bytes: &[u8], n: usize) {
    if bytes.len() < n {
        return;
    }
    draw_input(&bytes[0..n]);
}

// The same of the input.
fn run_input(bytes: &[u8; 65537], n: usize) {
    run(bytes, n);
}

fn main() {
    let mut input = input_space();
    let n = io::read_full(0, &mut input);
    run_input(&input, n);
}
