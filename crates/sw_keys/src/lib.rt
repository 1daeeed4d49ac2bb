//! Orders of logs' calls whose keys are whatever a store gave: in the history they are 1, 2, 3 and so on.
#![tactic(auto)]

mod order;
mod renaming;

pub use order::{Named, check_renamed_order};
