//! Who stands around a shell.

use sw_cli::HeadStats;
use sw_rows::{Call, Refusal, Reply, Schema};

/// A line that was entered: its bytes without its end, and its number, from 1.
#[derive(Clone, Copy)]
pub struct Line<'l> {
    pub bytes: &'l [u8],
    pub number: u32,
}

/// What a shell has others do: what is asked of it by a line that begins with a dot, and that it cannot do by itself.
#[derive(Clone, Copy)]
pub enum Errand<'a> {
    /// The commands are to be told.
    Help,
    /// The attributes are to be told.
    Names,
    /// What each call takes is to be told from now on, or no more.
    Times,
    /// What each head tells of itself is to be told.
    Stats(&'a [HeadStats]),
    /// The live rows, which this select was answered, are to be written to a file as a table.
    Write {
        file: &'a str,
        call: &'a Call,
        reply: &'a Reply,
    },
    /// The history is to be kept in a file when the shell ends.
    History(&'a str),
    /// It is to be told that the command wants the name of a file.
    Nameless,
    /// It is to be told that there is no such command.
    Unknown,
    /// It is to be told that the command could not be obeyed.
    Refused(&'a Refusal),
}

/// Who stands around a shell: it is told what is no reply, and does what the shell cannot do by itself. No clause speaks of what it
/// does. Where it refuses, the shell ends.
pub trait Host {
    /// A line is awaited.
    fn awaits(&mut self) -> Result<(), Refusal>;

    /// A call begins.
    fn begins(&mut self);

    /// The call that began has ended, answered or refused.
    fn ended(&mut self, call: &Call, is_answered: bool);

    /// A line was refused.
    fn refused(
        &mut self,
        schema: &Schema,
        line: Line<'_>,
        refusal: &Refusal,
    ) -> Result<(), Refusal>;

    /// A command of a line is to be obeyed.
    fn obeys(&mut self, schema: &Schema, line: Line<'_>, errand: Errand<'_>) -> Result<(), Refusal>;
}
