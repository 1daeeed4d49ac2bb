//! Versions of the live rows for readers that never wait: one list of updates, of which each reader's list and each receipt is a
//! beginning.
#![tactic(auto)]

mod book;
mod came;
mod copies;
mod draft;
mod live;
mod op;
mod pair;
mod shelf;
mod viewer;
mod visits;

pub use book::{Book, Front, Naming, Opened};
pub use came::Came;
pub use draft::Draft;
pub use shelf::Shelf;
pub use viewer::{MOST_VIEWERS, Viewer};
