//! What a map shows beside its head.

/// What a map's tail holds of each row.
#[derive(Clone, Copy, Debug, Default, PartialEq, Eq)]
pub enum Tail {
    /// The row's key.
    #[default]
    Key,
    /// The row's cell of the attribute with this number, from 0.
    Cell(u8),
}
