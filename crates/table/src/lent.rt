// A table in memory as it is lent to a call that reads it.
use crate::answer::Counts;

// Its counts, and the bytes of its records.
#[derive(Clone, Copy)]
pub struct Table<'a> {
    pub counts: Counts,
    pub states: &'a [u8],
    pub arcs: &'a [u8],
}
