//! The tape of an area: one load of rows, and what reorganised the area's maps since.
//!
//! A map replays the tape from its own cursor, so the tape is the only record of what was done. It is seen as a list of
//! steps on rows, of which the first is the one load. It also knows how many pairs a map has at its end, the greatest
//! number of pairs after any entry, and the bounds that stand in its ranges, in rising order.
#![tactic(auto)]

mod bounds;
mod entry;
mod tape;

pub use entry::Entry;
pub use sw_load::LoadRows;
pub use tape::{MAX_ENTRIES, Tape};
