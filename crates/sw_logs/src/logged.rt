//! Calls as sessions' logs have them.

use sw_rows::Call;
use sw_spine::Lines;

/// Where a call was read: the log's number and the record's in it, both from 1. The header is no record.
#[derive(Clone, Copy)]
pub struct Origin {
    pub log: u64,
    pub record: u64,
}

/// A call that a session's log has.
#[derive(Drop)]
pub struct Logged {
    /// The session's number, from 1.
    pub session: u64,
    /// When the session made the call, by the logs' clock.
    pub start: u64,
    /// When the session had the reply; not before `start`.
    pub end: u64,
    pub call: Call,
    /// The lines of the reply. None where the outcome is unknown: the call may have taken effect at any time after its
    /// start, or never.
    pub reply: Option<Lines>,
    pub origin: Origin,
}
