//! Tables that are made of comma-separated values from outside.
#![tactic(auto)]

mod columns;
mod dates;
mod dictionary;
mod evidence;
mod faults;
mod forms;
mod importing;
mod making;
mod names;
mod numbered;
mod pages;
mod planning;
mod records;
mod rules;
mod telling;
mod writing;

pub use columns::{Asked, Column, MOST_COLUMNS};
pub use dates::{days_of, seconds_of};
pub use dictionary::Dictionary;
pub use evidence::{Evidence, Tally};
pub use faults::{At, Fault, Lack, Lacks};
pub use forms::{Form, fits};
pub use importing::{How, Imported, import, import_in_parts};
pub use numbered::dictionary_of;
pub use planning::Planned;
pub use rules::{Blank, Long, Rules, Times};
pub use telling::told;
pub use writing::Done;
