//! The limits of what is read.

/// How many bytes a name has at most.
pub const MOST_NAME: usize = 32;

/// How many bytes the text of a number has at most.
pub const MOST_NUMBER: usize = 64;
