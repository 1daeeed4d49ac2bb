//! The engine: one history under a lock, heads under their latches, and sessions on threads.
#![tactic(auto)]

mod conds;
mod engine;
mod heads;
mod history;
mod pausing;
mod viewing;

pub use engine::{Engine, Session};
pub use heads::counting::HeadStats;
pub use heads::dealing::deal;
pub use heads::latch::{LatchedHead, TOGETHER, head_of};
pub use heads::latching::{AloneLatch, Latch, SharedLatch};
pub use history::desk::Blank;
pub use history::ticket::Ticket;
pub use sw_versions::Naming;
pub use viewing::{Receipt, Viewer};
