//! A shell: lines are entered over a table, and each call is answered when it is entered.
#![tactic(auto)]

mod commands;
mod console;
mod host;
mod lines;
mod opening;
mod seat;
mod telling;
mod turns;

pub use commands::Command;
pub use console::Console;
pub use host::{Errand, Host, Line};
pub use opening::{Ended, converse};
