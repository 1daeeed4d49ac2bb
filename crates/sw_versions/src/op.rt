//! What is written to the copies that readers take.

use crate::book::Unnamed;
use sw_table::Update;

/// An operation on a copy.
#[derive(Drop)]
pub(crate) enum Op {
    /// An update of its rows.
    Make(Update),
    /// The list that its rows are of from then on.
    Name(Unnamed),
}
