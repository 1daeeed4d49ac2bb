//! Where the rows of a query stand in an area that was prepared for it.

/// A range of places in each map of an area: from the one, up to below the other.
#[derive(Clone, Copy, Debug, PartialEq, Eq)]
pub struct Ready {
    pub from: usize,
    pub upto: usize,
}
