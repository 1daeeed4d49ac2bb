//! Looks for an order of the calls of several sessions' logs.
#![tactic(auto)]

mod building;
mod choices;
mod finding;
mod index;
mod naming;
mod printing;
mod problem;
mod replies;
mod search;
mod small;
mod state;
mod tasks;
mod telling;
mod window;

pub use building::Rules;
pub use finding::{Outcome, find_order};
pub use printing::{write_origin, write_reached};
pub use search::{Nobody, Onlooker};
pub use telling::{Reached, Tried};
