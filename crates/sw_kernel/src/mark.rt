//! Marks, which say where the pieces of head and tail begin.

use sw_query::Bound;

/// A bound, and the place where the pairs that do not lie left of it begin.
///
/// A list of marks rises by bound; its places never fall and never pass the number of pairs.
#[derive(Clone, Copy, Debug, PartialEq, Eq)]
pub struct Mark {
    /// What lies before the place is left of this bound, what lies behind is not.
    pub bound: Bound,
    /// The place, from 0.
    pub at: usize,
}
