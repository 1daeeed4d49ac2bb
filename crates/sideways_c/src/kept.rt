//! The rows of a select, as they are kept for the caller.

use sw_rows::ReplyRows;

/// Rows, and how many columns they have.
#[derive(Drop)]
pub struct Kept {
    pub rows: ReplyRows,
    pub columns: usize,
}
