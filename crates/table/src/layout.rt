// The sizes of records in bytes and where their parts stand, and the columns of a table's text, each written down here
// and nowhere else.

// A state: its initial weight and its final weight, each a flag, which says whether it is there, and a number.
pub const WEIGHT_SIZE: usize = 5;

pub const ABSENT: u8 = 0;

pub const PRESENT: u8 = 1;

pub const AMOUNT_PLACE: usize = 1;

pub const FINAL_PLACE: usize = 5;

pub const STATE_SIZE: usize = 10;

// An arc: its source and its target, then its content, which is its weight and a label for each of eight tapes.
pub const TARGET_PLACE: usize = 2;

pub const CONTENT_PLACE: usize = 4;

pub const LABELS_PLACE: usize = 8;

// A label: its length and eight symbols.
pub const LABEL_SIZE: usize = 9;

pub const SYMBOLS_PLACE: usize = 1;

pub const LABELS_SIZE: usize = 72;

pub const LABELS_END: usize = LABELS_PLACE + LABELS_SIZE;

pub const CONTENT_SIZE: usize = 76;

pub const ARC_SIZE: usize = 80;

// A configuration of a build in work space, for each state of its space.
pub const CONFIG_SIZE: usize = 320;

// A step of a build or of a product from one state to another, for each arc of its space.
pub const STEP_SIZE: usize = 16;

// A state of a product in work space, for each state of its space.
pub const VERTEX_SIZE: usize = 16;

// The closing delays of a state, for each state of the table read.
pub const DELAYS_SIZE: usize = 64;

// Of each pair its least delay and, behind it, that of the pair turned round; behind those of four pairs, whether a
// final state is reached.
pub const PAIR_DELAYS: usize = 8;

pub const OPPOSITE_PLACE: usize = 4;

pub const REACHING_PLACE: usize = 32;

// The most symbols of a string of a tuple.
pub const MAX_STRING: usize = 64;

// The byte that ends a line of a text.
pub const NEWLINE: u8 = 10;

// The columns of the number of tapes, of the number of a state or how many states or arcs there are, of a weight, of a
// label.
pub const TAPES_WIDTH: usize = 3;

pub const NUMBER_WIDTH: usize = 6;

pub const AMOUNT_WIDTH: usize = 10;

pub const LABEL_WIDTH: usize = 9;

// The first line: the numbers of tapes, states and arcs.
pub const ARCS_COLUMN: usize = 9;

pub const HEADER_END: usize = 15;

pub const HEADER_WIDTH: usize = 16;

// The line of a state: its two weights.
pub const STATE_END: usize = 20;

pub const STATE_WIDTH: usize = 21;

// The line of an arc: source, target, weight, the labels, and the line's end, which is counted with what is before the
// labels.
pub const WEIGHT_COLUMN: usize = 12;

pub const LABELS_COLUMN: usize = 22;

pub const ARC_WIDTH: usize = 23;

// The first line of what the program `agree` reads: a number of it, and behind the number of pairs the pairs, each its
// first tape, its second tape and its limit.
pub const ENTRY_WIDTH: usize = 3;

pub const PAIRS_COLUMN: usize = 3;

pub const SHORTEST_LINE: usize = PAIRS_COLUMN + 1;

pub const SECOND_COLUMN: usize = 3;

pub const LIMIT_COLUMN: usize = 6;

pub const PAIR_WIDTH: usize = 9;
