//! Runs: a table and a script go in, the lines of the replies come out, and a record of the history is left. And how
//! refusals are told on standard error.
#![tactic(auto)]

mod boxes;
mod buffered;
mod calls_left;
mod ended;
mod fault;
pub mod fault_examples;
mod flowing;
mod growing;
mod law;
mod looking_on;
mod means;
mod noting;
mod running;
mod script;
mod serving;
mod start;
mod stats;
mod telling;
mod turning;
mod watching;
mod workload;

pub use boxes::blank_boxes;
pub use fault::{status, write_fault};
pub use growing::{stand_ins, with_columns};
pub use law::{files_of_runs_are_legal, replies_are_over_texts, runs_are_over_texts};
pub use looking_on::{Nobody, Onlooker};
pub use means::{AfterRun, Means};
pub use noting::Noting;
pub use running::{Options, run, run_shared, run_told, run_with};
pub use script::{Block, MOST_BLOCKS, MOST_CALLS, call_of_line};
pub use start::{Inputs, read_start};
pub use stats::{write_stats_line, write_stats_title};
pub use sw_engine::{HeadStats, head_of};
pub use sw_histories::{check_file, explain_file, read_record, write_out_record, write_record};
pub use telling::write_told;
