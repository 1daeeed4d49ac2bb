//! What a column has: how many distinct cells, the least and the greatest, and how often the most frequent stand there.
#![tactic(auto)]

mod column;
mod counting;

pub use column::{Column, count_of};
pub use counting::{MOST_FREQUENT, frequent};
