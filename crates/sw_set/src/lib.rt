//! Areas: the live rows of an interval of a head's values, the tape that reorganised them, and the boxed maps that
//! replay it.
#![tactic(auto)]

mod area;
mod merge;
mod prepare;
mod reply;

pub use area::Area;
pub use area::pick::older;
pub use area::ready::Ready;
pub use prepare::at_once::align_at_once;
pub use prepare::in_turn::align_in_turn;
pub use prepare::needs::needed_maps;
pub use reply::nothing;
pub use reply::replies::push_row;
pub use reply::totals::{greater, lesser};
