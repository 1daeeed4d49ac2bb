//! Rows: a list of them as one flat list of cells, and a table of rows that come at its end and go by their keys.
#![tactic(auto)]

mod cell_list;
mod exchanging;
mod finding;
mod keeping;
mod keys;
mod live;
mod numbers;
mod packed;
mod row;
mod updates;

pub use live::LiveTable;
pub use packed::PackedRows;
pub use row::{Row, Update};
pub use updates::{has_key, update, update_all};
