//! The words of the command line: the program's commands, what each takes, and what help says of it, as clap's command.
#![tactic(auto)]

mod args;
mod import;
mod order;
mod shell;
mod words;

pub use words::{command, command_named};
