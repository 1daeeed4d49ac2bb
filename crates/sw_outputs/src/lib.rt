//! Replies for the next program: a line of JSON each, comma-separated values, or a table that is read back.
#![tactic(auto)]

mod cells;
mod description;
mod examples;
mod law;
mod lines;
mod records;
mod told;

pub use cells::{cell_text, json_text};
pub use description::{Described, write_description, write_json_description};
pub use examples::{numbers_shown, rows_shown};
pub use law::{lines_are_read_back, tables_are_read_back, values_are_read_back};
pub use lines::write_json;
pub use records::{makes_table, write_csv, write_table};
pub use told::Told;
