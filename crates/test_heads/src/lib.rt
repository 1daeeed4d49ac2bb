//! Heads for tests: under updates whose keys are given out, and queries whose conditions are tested when they run.
#![tactic(auto)]

#[cfg(test)]
mod cases;
mod growing;
#[cfg(test)]
mod lines;
#[cfg(test)]
mod mixes;
#[cfg(test)]
mod noted;
#[cfg(test)]
mod pressed;
#[cfg(test)]
mod refusals;
#[cfg(test)]
mod scenes;
#[cfg(test)]
mod steps;
#[cfg(test)]
mod trials;
#[cfg(test)]
mod worked;

pub use growing::GrowingHead;
