//! Maps for tests: each wraps a map and keeps its contract, and counts, waits or refuses besides.
//!
//! They may wrap one another, and a box of one is a box of a map like any other.
#![tactic(auto)]

mod contended;
mod counting;
mod gated;
mod refusing;
mod replaying;

pub use contended::ContendedMap;
pub use counting::{CountingMap, Counts};
pub use gated::{Gate, GatedMap};
pub use refusing::RefusingMap;
pub use replaying::{can_replay, replay, replay_all};
