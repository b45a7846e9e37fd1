// Pairs of tapes that are to agree, by value.

// The bytes of a pair that is lent as bytes: its first tape, its second tape, its limit.
pub const PAIR: usize = 3;

// The greatest limit of a pair.
pub const MAX_LIMIT: u8 = 64;

// Two tapes, counted from 1, and the longest leftover allowed between them.
#[derive(Clone, Copy)]
pub struct Pair {
    pub first: u8,
    pub second: u8,
    pub limit: u8,
}

// The pairs of a call: the first `used` of four.
#[derive(Clone, Copy)]
pub struct PairList {
    pub pairs: [Pair; 4],
    pub used: usize,
}
