//! Cracker maps: two-column tables that replay an area's tape, boxed behind one trait.
//!
//! A map's head holds the cells of one attribute, its tail the keys or the cells of another attribute of the same rows.
//! A map is blank, or it stands at a cursor: it has replayed so many entries of its area's tape. What an entry does
//! depends on heads alone, so that maps of one head at one cursor hold the same row at each place.
#![tactic(auto)]

mod active;
mod boxes;
mod crack;
mod cracker;
mod home;
mod laws;
mod lists;
mod pair_map;
mod pairs;
mod places;
mod tail;
mod twins;

pub use boxes::push_blank;
pub use cracker::CrackerMap;
pub use laws::{
    begun_maps_are_aligned, longer_tapes_keep_lawful, next_entries_fit, places_part_rows,
    ready_maps_show_rows, steps_keep_alignment,
};
pub use pair_map::PairMap;
pub use tail::Tail;
