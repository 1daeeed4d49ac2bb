//! What comes of a publishing.

/// What came of a publishing of all updates.
#[derive(Clone, Copy, Debug, PartialEq, Eq)]
pub enum Came {
    /// All of them are published.
    Shown,
    /// None more is, since a viewer still reads the copy that would be written, and nothing else is in the way.
    PutOff,
    /// None more is, since there was no memory for it.
    Missed,
}
