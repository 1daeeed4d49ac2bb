//! A part of a list.

/// So many items of a list, from a place on.
#[derive(Clone, Copy, Debug)]
pub(crate) struct Part {
    /// The place of its first item.
    pub start: usize,
    /// How many items it has.
    pub many: usize,
}
