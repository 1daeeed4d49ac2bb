//! A call and what came of it.

use sw_rows::{Call, Reply};

/// A call of a script, and what came of it.
#[derive(Clone, Copy)]
pub struct Told<'a> {
    /// The call's number among all, from 1.
    pub number: u64,
    /// The number of its block, from 1.
    pub block: u64,
    /// Its line in the script, from 1, where it is known.
    pub line: Option<u32>,
    /// The call.
    pub call: &'a Call,
    /// What it was answered; none where it was refused.
    pub reply: Option<&'a Reply>,
}
