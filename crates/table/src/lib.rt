// The lowest layer of code: numbers in lent bytes, regions of a lent slice, records of a table, and the judgement of a
// table in memory. Bad input never traps and never reads past a slice: every function is proved safe for all bytes that
// its contract admits.
#![tactic(auto)]

pub mod answer;
pub mod arc;
pub mod bytes;
pub mod good;
pub mod judge;
pub mod layout;
pub mod lent;
pub mod pair;
pub mod record;
pub mod symbol;
