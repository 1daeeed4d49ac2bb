//! Laws of what an engine's sessions saw.
#![tactic(auto)]

mod law;

pub use law::what_was_seen_stays;
