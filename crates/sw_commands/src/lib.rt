//! What the commands do that open no engine: they import, describe, order, check and explain; and what all commands
//! share: where tables and scripts come from, the forms of replies, a refusal in words.
#![tactic(auto)]

mod checking;
mod clash;
mod describing;
mod explaining;
mod failure;
mod flaws;
mod importing;
mod inputs;
mod ordering;
mod origins;
mod outflow;
mod seeing;
mod settings;
mod shaping;
mod stacks;
mod wording;

pub use checking::{Telling, check_path};
pub use clash::{Clash, is_output};
pub use describing::Description;
pub use explaining::explain;
pub use failure::Failure;
pub use importing::Import;
pub use inputs::{Inflow, Keeping, Kept, Place, Script, is_read_once, open_script, open_table};
pub use ordering::{Ordering, Way};
pub use outflow::{Outflow, Reader};
pub use seeing::{LinesSeen, Seen, Sights, What};
pub use settings::{Limit, Settings};
pub use shaping::{Form, flush, script_bytes, shape};
pub use stacks::are_ample;
pub use wording::{Asking, Keeps, of_form, of_output, of_unwritten, words};
