//! A bit vector of fixed length, 64 places a word.
//!
//! It begins with every place true, and a place that was made false stays false: the further conditions of a query refine
//! it, one after the other, over the places of its range.
#![tactic(auto)]

mod vector;

pub use vector::Bits;
