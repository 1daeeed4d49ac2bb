//! Areas for tests: rows, areas over boxes that are handed in, and queries whose conditions are tested when they run.
#![tactic(auto)]

#[cfg(test)]
mod acts;
mod asking;
#[cfg(test)]
mod examples;
#[cfg(test)]
mod gates;
#[cfg(test)]
mod maps;
#[cfg(test)]
mod moves;
mod opening;
#[cfg(test)]
mod scenes;
#[cfg(test)]
mod shapes;
#[cfg(test)]
mod tests;

pub use asking::may_ask;
pub use opening::numbered;
