//! Heads: the areas of one attribute, by a rising list of cuts.
#![tactic(auto)]

mod answering;
mod clearing;
mod dealing;
mod division;
mod figures;
mod head;
mod joining;
mod laws;
mod places;
mod resting;
mod routing;
mod scanning;
mod shelving;
mod telling;
mod waiting;

pub use figures::Figures;
pub use head::Head;
pub use laws::{
    areas_answer, areas_receive, handed_stands, joined_is_both, may_be_handed, none_untouched,
    one_interval, same_stand, together_is_all,
};
pub use places::MOST_CUTS;
pub use waiting::Waiting;
