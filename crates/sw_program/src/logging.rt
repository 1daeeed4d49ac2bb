//! A log of a run's own calls, as `sideways order` reads logs.

use csv::{ByteRecord, Writer};
use std::alloc::{AllocError, Global};
use std::rt::{Clock, Files};
use std::sync::atomic::{AtomicU64, Ordering};
use std::sync::{Mutex, Wait};
use sw_cli::{Onlooker, head_of};
use sw_commands::Seen;
use sw_files::begin_file;
use sw_lang::{write_all, write_call, write_reply};
use sw_rows::{Call, Counted, Refusal, Reply, Schema, Sink};
use sw_spine::{KeptEntry, Record, StateRef};

/// The attribute whose head a call asks, if it is a select.
fn head_of_call(call: &Call) -> Option<usize> {
    match call {
        Call::Select(query) => Some(head_of(query)),
        _ => None,
    }
}

/// The header of a log.
const HEADER: &[u8] = b"session,start,end,call,reply\n";

/// How many records are in memory at a time before they go out.
const PAGE: usize = 512;

/// When a call that was answered was made.
#[derive(Clone, Copy)]
struct Timed {
    /// The number of its block, from 1.
    block: u64,
    /// The nanoseconds since the run began when it began, 0 where the clock could not be read.
    start: u64,
    /// The same when it had ended, the greatest number where the clock could not be read.
    end: u64,
}

/// The calls that were answered so far, those of a block in their order, and whether there was memory for all.
#[derive(Drop)]
struct Noted {
    calls: Vec<Timed>,
    are_all: bool,
}

/// When the calls of a run were made, as its threads note it.
#[derive(Drop)]
pub(crate) struct Times {
    noted: Mutex<Noted>,
}

impl Times {
    /// Those of no calls.
    fn new(alloc: Global) -> Times {
        Times {
            noted: Mutex::new(Noted {
                calls: Vec::new(alloc),
                are_all: true,
            }),
        }
    }

    /// Notes when a call was made.
    fn note<R: Wait>(&self, rt: &R, timed: Timed) {
        let mut noted = self.noted.lock(rt);
        if noted.calls.push(timed).is_err() {
            noted.are_all = false;
        }
    }

    /// The calls block after block, each block's in their order. Refused `NoMemory` also where there was none for all.
    fn into_calls(self) -> Result<Vec<Timed>, Refusal> {
        let Times { noted } = self;
        let Noted { mut calls, are_all } = noted.into_inner();
        if !are_all || calls.sort_by_key(|timed| timed.block).is_err() {
            return Err(Refusal::NoMemory);
        }
        Ok(calls)
    }
}

/// Why the last call of a run was refused, if it was, as its threads note it. The record does not tell: a call that was
/// refused may have no entry.
#[derive(Drop)]
struct Last {
    /// Four times the number of the last block of which a call has ended, and more by why its last call was refused: 0 where it was
    /// not, 1 for want of memory, 2 where the history was full.
    word: AtomicU64,
    /// How many entries the history had when it was full.
    entries: AtomicU64,
}

impl Last {
    /// No call has ended yet.
    fn new() -> Last {
        Last {
            word: AtomicU64::new(0),
            entries: AtomicU64::new(0),
        }
    }

    /// What is more in the word for an answer.
    fn weight(&self, answer: &Result<Reply, Refusal>) -> u64 {
        match answer {
            Ok(_) => 0,
            Err(Refusal::HistoryFull { entries }) => {
                self.entries.store(*entries, Ordering::SeqCst);
                2
            }
            Err(_) => 1,
        }
    }

    /// Notes that a call of a block has ended, after all others of that block so far.
    fn note(&self, block: u64, answer: &Result<Reply, Refusal>) {
        let word = block.saturating_mul(4).saturating_add(self.weight(answer));
        let mut found = self.word.load(Ordering::SeqCst);
        for _ in 0..u64::MAX {
            if found / 4 > block {
                return;
            }
            match self
                .word
                .compare_exchange(found, word, Ordering::SeqCst, Ordering::SeqCst)
            {
                Ok(_) => return,
                Err(other) => found = other,
            }
        }
    }

    /// Why the last call was refused, if it was.
    fn refusal(&self) -> Option<Refusal> {
        match self.word.load(Ordering::SeqCst) % 4 {
            0 => None,
            2 => Some(Refusal::HistoryFull {
                entries: self.entries.load(Ordering::SeqCst),
            }),
            _ => Some(Refusal::NoMemory),
        }
    }
}

/// Who looks on while a run makes its calls: what is seen of it, when its calls were made, where a log is asked for, and why the
/// last was refused, where its reply is to go out alone.
#[derive(Drop)]
pub(crate) struct Watch<'s, 'r, R: Clock + Eprint + Wait> {
    pub(crate) seen: &'s Seen<'r, R>,
    times: Option<Times>,
    last: Option<Last>,
}

impl<'s, 'r, R: Clock + Eprint + Wait> Watch<'s, 'r, R> {
    /// Nothing was noted yet.
    pub(crate) fn new(
        alloc: Global,
        seen: &'s Seen<'r, R>,
        is_logged: bool,
        is_last_alone: bool,
    ) -> Watch<'s, 'r, R> {
        let times = if is_logged {
            Some(Times::new(alloc))
        } else {
            None
        };
        let last = if is_last_alone {
            Some(Last::new())
        } else {
            None
        };
        Watch { seen, times, last }
    }

    /// Refused as the last call was, where its reply was to go out alone.
    pub(crate) fn answers_last(&self) -> Result<(), Refusal> {
        let Some(last) = &self.last else {
            return Ok(());
        };
        match last.refusal() {
            Some(refusal) => Err(refusal),
            None => Ok(()),
        }
    }

    /// When the calls were made, where a log is asked for.
    pub(crate) fn into_times(self) -> Option<Times> {
        let Watch { times, .. } = self;
        times
    }
}

impl<R: Clock + Eprint + Wait + Sync> Onlooker for Watch<'_, '_, R> {
    fn is_timing(&self) -> bool {
        self.seen.is_timing() || self.times.is_some()
    }

    fn begins(&self, _call: &Call) -> u64 {
        self.seen.now()
    }

    fn ended(&self, block: u64, call: &Call, begun: u64, answer: &Result<Reply, Refusal>) {
        let time = self.seen.time();
        self.seen.sees(head_of_call(call), begun, time.unwrap_or(0));
        if let Some(last) = &self.last {
            last.note(block, answer);
        }
        if let (Some(times), Ok(_)) = (&self.times, answer) {
            let timed = Timed {
                block,
                start: begun,
                end: time.unwrap_or(u64::MAX),
            };
            times.note(self.seen.rt(), timed);
        }
    }
}

/// A call that was answered, with when it was made.
#[derive(Clone, Copy)]
struct Made<'r> {
    entry: &'r KeptEntry,
    reply: &'r Reply,
    start: u64,
    end: u64,
}

/// The calls of entries that were answered, block after block. Of none is it known when it was made.
fn answered<'r>(alloc: Global, entries: &'r [KeptEntry]) -> Result<Vec<Made<'r>>, AllocError> {
    let mut made = Vec::with_capacity(alloc, entries.len())?;
    for entry in entries {
        if let StateRef::Answered(reply) = entry.state() {
            made.push(Made {
                entry,
                reply,
                start: 0,
                end: u64::MAX,
            })?;
        }
    }
    made.sort_by_key(|call| call.entry.session())?;
    Ok(made)
}

/// Puts to each call when it was made: to the first the first time, and so on.
fn put_times(made: &mut Vec<Made<'_>>, times: &[Timed]) {
    for (call, timed) in made.iter_mut().zip(times.iter()) {
        call.start = timed.start;
        call.end = timed.end;
    }
}

/// A call as it is printed. It goes to memory, so no memory is the one failure.
fn call_bytes(alloc: Global, schema: &Schema, call: &Call) -> Result<Vec<u8>, AllocError> {
    let mut out = Counted::new(Vec::new(alloc));
    match write_call(schema, call, &mut out) {
        Ok(()) => Ok(out.inner),
        Err(_) => Err(AllocError),
    }
}

/// The lines of a reply, without the end of the last.
fn reply_bytes(alloc: Global, schema: &Schema, made: &Made<'_>) -> Result<Vec<u8>, AllocError> {
    let mut out = Counted::new(Vec::new(alloc));
    match write_reply(schema, made.entry.call(), made.reply, &mut out) {
        Ok(()) => {
            let mut lines = out.inner;
            let _end = lines.pop();
            Ok(lines)
        }
        Err(_) => Err(AllocError),
    }
}

/// Adds a number to a record.
fn add_number(alloc: Global, number: u64, record: &mut ByteRecord) -> Result<(), AllocError> {
    record.push_field(format!(in alloc; "{number}")?.as_bytes())
}

/// The record of a call.
fn record_of(alloc: Global, schema: &Schema, made: &Made<'_>) -> Result<ByteRecord, AllocError> {
    let mut record = ByteRecord::new(alloc);
    add_number(alloc, made.entry.session(), &mut record)?;
    add_number(alloc, made.start, &mut record)?;
    add_number(alloc, made.end, &mut record)?;
    record.push_field(call_bytes(alloc, schema, made.entry.call())?.as_slice())?;
    record.push_field(reply_bytes(alloc, schema, made)?.as_slice())?;
    Ok(record)
}

/// The records of calls, as comma-separated values.
fn page_of(alloc: Global, schema: &Schema, calls: &[Made<'_>]) -> Result<Vec<u8>, AllocError> {
    let mut writer = Writer::from_writer(Vec::new(alloc));
    for made in calls {
        let record = record_of(alloc, schema, made)?;
        if writer.write_byte_record(&record).is_err() {
            return Err(AllocError);
        }
    }
    match writer.into_inner() {
        Ok(bytes) => Ok(bytes),
        Err(_) => Err(AllocError),
    }
}

/// Writes the records of calls.
fn write_made<W: Sink>(
    alloc: Global,
    schema: &Schema,
    made: &[Made<'_>],
    out: &mut W,
) -> Result<(), Refusal> {
    write_all(out, HEADER)?;
    for calls in made.chunks(PAGE) {
        let Ok(page) = page_of(alloc, schema, calls) else {
            return Err(Refusal::NoMemory);
        };
        write_all(out, page.as_slice())?;
    }
    Ok(())
}

/// The calls of a record that were answered, block after block, each with when it was made.
fn made_in<'r>(alloc: Global, history: &'r Record, times: Times) -> Result<Vec<Made<'r>>, Refusal> {
    let times = times.into_calls()?;
    match answered(alloc, history.entries.as_slice()) {
        Ok(mut made) => {
            put_times(&mut made, times.as_slice());
            Ok(made)
        }
        Err(_) => Err(Refusal::NoMemory),
    }
}

/// Writes the log of a run's calls to the file of a path: block after block, a block being a session, and of each the calls
/// that were answered, in their order. A call that was refused has no record, since it changed nothing and was given no
/// reply.
///
/// Refused `NoMemory`, and `Output` where the file cannot be written.
pub(crate) fn keep_log<R: Files>(
    rt: &R,
    alloc: Global,
    history: &Record,
    times: Times,
    path: &str,
) -> Result<(), Refusal> {
    let made = made_in(alloc, history, times)?;
    let mut file = begin_file(rt, alloc, path)?;
    let written = write_made(alloc, &history.schema, made.as_slice(), &mut file);
    file.end(rt, written)
}
