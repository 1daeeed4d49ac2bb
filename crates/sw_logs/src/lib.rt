//! Logs of several sessions' calls, and what an order of these calls is.
#![tactic(auto)]

mod checking;
mod copying;
mod logged;
mod opening;
mod order;
mod reading;

pub use copying::{copied_call, copied_lines};
pub use logged::{Logged, Origin};
pub use opening::{Opening, read_opening};
pub use order::{By, Order, Placed, check_order};
pub use reading::{Fault, Flaw, read_log};
