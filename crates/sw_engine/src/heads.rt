//! What lies under the heads' latches, and what heads are made with.

pub(crate) mod counting;
pub(crate) mod dealing;
pub(crate) mod latch;
pub(crate) mod latching;
pub(crate) mod leading;
pub(crate) mod opening;
