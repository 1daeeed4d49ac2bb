//! An engine for one visitor at a time: a table, its history and its heads in one value, without lock, thread or token.
#![tactic(auto)]

mod seat;
mod solo;

pub use seat::SeatStats;
pub use solo::Solo;
