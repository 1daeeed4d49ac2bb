//! Tests of the spine, as visits of two sessions that texts describe.
#![tactic(auto)]

#[cfg(test)]
mod bench;
#[cfg(test)]
mod indexes;
#[cfg(test)]
mod random;
#[cfg(test)]
mod tests;
