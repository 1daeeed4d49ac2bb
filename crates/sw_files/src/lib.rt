//! Files: opened to be read, told apart, and written so that each stands under its name when it is whole.
#![tactic(auto)]

mod identity;
mod inputs;
mod new_file;

pub use identity::{FileId, would_be_one};
pub use inputs::{open_input, read_file};
pub use new_file::{NewFile, begin_file};
