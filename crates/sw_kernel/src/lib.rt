//! The physical moves of a cracked two-column table: the partition of a piece, and the ripples of an insertion and a removal.
//!
//! Head and tail are two lists of one length; place i of both is one pair. All moves are made in place, on both lists
//! alike, and take no memory. What they do is said by definitions over any items that show a head value (`specs/`), so
//! that the same definition speaks of whole rows and of pairs.
#![tactic(auto)]

mod insertion;
mod laws;
mod mark;
mod movers;
mod partition;
mod removal;

pub use insertion::{end_before, ripple_in};
pub use laws::{
    bounds_marked, bounds_rise, items_counted, marks_sound, replays_seen, rows_held_once,
    steps_seen,
};
pub use mark::Mark;
pub use partition::{split, split_twins};
pub use removal::ripple_out;
