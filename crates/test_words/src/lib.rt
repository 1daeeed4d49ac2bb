//! Words, numbers, escaped texts and dice of tests and cases.
#![tactic(auto)]

mod dice;
mod escapes;
mod words;

pub use dice::Dice;
pub use escapes::{push_unescaped, unescaped};
pub use words::{cell, mark, number, place, split};
