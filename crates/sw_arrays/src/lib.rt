//! Calls, tables and replies as arrays of numbers, for callers that have no text.
#![tactic(auto)]

mod asked;
mod cells;
mod columns;
mod copied;
mod header;
mod range;
mod table;

pub use asked::{Asked, Wanted, call_of, query_of};
pub use cells::{is_cell, row_of};
pub use columns::{Cells, Place, are_rows, cells_at};
pub use copied::{cells_into, keys_into};
pub use header::Attribute;
pub use range::{Fault, Range, conds_of};
pub use table::{Given, table_in};
