//! Calls and replies go out as text.

pub(crate) mod calls;
pub(crate) mod cells;
pub(crate) mod replies;
pub(crate) mod rows;
pub(crate) mod sinks;
pub(crate) mod texts;
