//! What two lists hold of each row.

/// What a list holds of each row.
#[derive(Clone, Copy, Debug)]
pub(crate) enum Column {
    /// The row's key.
    Key,
    /// The row's cell of the attribute with this number, from 0.
    Cell(usize),
}

/// What two lists hold of each row: that of the heads its cell of an attribute, and that of the tails its key or
/// another cell.
#[derive(Clone, Copy, Debug)]
pub(crate) struct Columns {
    /// The number, from 0, of the attribute whose cells are the heads.
    pub head: usize,
    /// What the tails are.
    pub tail: Column,
}
