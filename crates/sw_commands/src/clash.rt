//! What a history or a log would be written over.

use crate::inputs::{Place, Script};
use std::rt::Files;
use sw_files::{FileId, would_be_one};

/// Where the system tells what standard output and standard error are.
const OUTPUT: &str = "/proc/self/fd/1";

const ERRORS: &str = "/proc/self/fd/2";

/// What a history or a log would be written over: another file of its run.
#[derive(Clone, Copy, PartialEq, Eq)]
pub enum Clash {
    /// The history over the table of the run.
    Table,
    /// The history over the script of the run.
    Script,
    /// The history over the file into which standard output goes.
    Output,
    /// The history over the file into which standard error goes.
    Errors,
    /// The log over the table of the run.
    LogTable,
    /// The log over the script of the run.
    LogScript,
    /// The log over the file into which standard output goes.
    LogOutput,
    /// The log over the file into which standard error goes.
    LogErrors,
    /// The log over the history of the run.
    LogHistory,
}

/// Whether a path leads to the file into which standard output goes.
pub fn is_output<R: Files>(rt: &R, path: &str) -> bool {
    match FileId::of(rt, path) {
        Some(id) => id.is_at(rt, OUTPUT),
        None => false,
    }
}

/// Whether a file is a script.
fn is_script<R: Files>(rt: &R, id: FileId, script: Script<'_>) -> bool {
    match script.place() {
        Some(place) => id.is_at(rt, place.path()),
        None => false,
    }
}

impl Clash {
    /// What is wrong, in words.
    pub fn text(self) -> &'static str {
        match self {
            Clash::Table => "the history would be written over the table",
            Clash::Script => "the history would be written over the script",
            Clash::Output => "the history would be written over the replies",
            Clash::Errors => "the history would be written over what is told on standard error",
            Clash::LogTable => "the log would be written over the table",
            Clash::LogScript => "the log would be written over the script",
            Clash::LogOutput => "the log would be written over the replies",
            Clash::LogErrors => "the log would be written over what is told on standard error",
            Clash::LogHistory => "the log would be written over the history",
        }
    }

    /// What the history would be written over, if anything. A history that is no regular file is written over nothing.
    pub fn of<R: Files>(
        rt: &R,
        table: Place<'_>,
        script: Script<'_>,
        history: Option<&str>,
    ) -> Option<Clash> {
        let id = FileId::of(rt, history?)?;
        if id.is_at(rt, table.path()) {
            Some(Clash::Table)
        } else if is_script(rt, id, script) {
            Some(Clash::Script)
        } else if id.is_at(rt, OUTPUT) {
            Some(Clash::Output)
        } else if id.is_at(rt, ERRORS) {
            Some(Clash::Errors)
        } else {
            None
        }
    }

    /// What the log would be written over, if anything: the history, or what a history would be written over. Both may be
    /// files that are not there yet.
    pub fn of_log<R: Files>(
        rt: &R,
        table: Place<'_>,
        script: Script<'_>,
        history: Option<&str>,
        log: Option<&str>,
    ) -> Option<Clash> {
        if history.is_some_and(|history| log.is_some_and(|log| would_be_one(rt, history, log))) {
            return Some(Clash::LogHistory);
        }
        match Clash::of(rt, table, script, log)? {
            Clash::Table => Some(Clash::LogTable),
            Clash::Script => Some(Clash::LogScript),
            Clash::Output => Some(Clash::LogOutput),
            Clash::Errors => Some(Clash::LogErrors),
            other => Some(other),
        }
    }
}
