//! What lies under the lock, and what a session carries to it.

pub(crate) mod desk;
pub(crate) mod locked;
pub(crate) mod misses;
pub(crate) mod ticket;
