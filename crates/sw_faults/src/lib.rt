//! What a refusal means for the texts that were read: a second line in words, which says where and what.
//!
//! The texts are looked at again after the refusal, so nothing of the reading itself hangs on these words.
#![tactic(auto)]

mod cells;
mod choices;
mod cuts;
mod entries;
mod headers;
mod lines;
mod records;
mod shown;
mod tables;
mod tokens;
mod words;

pub use entries::wrong_entry;
pub use headers::{MOST_COLUMNS, has_kinds};
pub use lines::{call_lines, wrong_line};
pub use records::open_quote;
pub use tables::{all_faults, why_wide};
pub use words::{Asked, Given, Origin, Text, words_of};
