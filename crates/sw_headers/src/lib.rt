//! A header that stands in place of a text's first record, and columns that are passed by, without a copy of the text.
#![tactic(auto)]

pub mod examples;
mod header;
mod rewriting;
mod source;

pub use header::Header;
pub use source::{Headed, text_under};
