//! Tests of the small crates that maps and the engine stand on: the kernel, the tape, the budget, bits, slots and tokens.
#![tactic(auto)]

#[cfg(test)]
mod bits;
#[cfg(test)]
mod blocks;
#[cfg(test)]
mod budget;
#[cfg(test)]
mod hall;
#[cfg(test)]
mod moves;
#[cfg(test)]
mod slots;
#[cfg(test)]
mod tape;
#[cfg(test)]
mod tokens;
