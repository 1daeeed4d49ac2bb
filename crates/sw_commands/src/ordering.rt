//! An order of the calls of logs, looked for and written.

ghost use Rattle.std.specs.Prelude.{length, IfOk, OnOk};
ghost use Rattle.sw_logs.specs.Openings.{IsOpening};
ghost use Rattle.sw_logs.specs.Orders.{AllFit};

use crate::clash::is_output;
use crate::failure::Failure;
use crate::flaws;
use crate::inputs::Place;
use crate::outflow::{Outflow, Reader};
use crate::seeing::{Seen, Sights};
use crate::settings::Limit;
use crate::wording::called;
use std::alloc::Global;
use std::io;
use std::random::RandomSource;
use std::rt::{Clock, Files};
use sw_files::{FileId, begin_file, open_input, read_file};
use sw_histories::write_record;
use sw_lang::{write_all, write_number};
use sw_logs::{By, Fault, Logged, Opening, Order, read_log, read_opening};
use sw_order::{Onlooker, Outcome, Reached, Rules, find_order, write_reached};
use sw_rows::{Counted, Refusal, Schema, Sink, TextKey};

/// What is wrong with files of which more than one is standard input.
const BOTH_STANDARD: &str = "of the table and the logs only one can be standard input";

/// How an order is looked for.
#[derive(Clone, Copy)]
pub struct Way {
    /// Which calls have to stand before which.
    pub by: By,
    /// Whether keys are whatever the store gave.
    pub any_keys: bool,
    /// How many states are remembered at most.
    pub states: u64,
    /// How many rows are ever inserted at most.
    pub limit: Limit,
}

/// An order that is asked for: the table, the logs, and how it is looked for.
#[derive(Clone, Copy)]
pub struct Ordering<'a> {
    /// Where the table is; `-` is standard input.
    pub table: &'a str,
    /// Where the logs are; `-` is standard input.
    pub logs: &'a [&'a str],
    pub way: Way,
    /// Where it is written from which file and record each entry came, if anywhere.
    pub origins: Option<&'a str>,
    /// Whether standard error is told how far the search is, once a second.
    pub progress: bool,
}

/// Why it is not known whether there is an order.
#[derive(Drop)]
enum Unread {
    /// The command was not carried out.
    Failed(Failure),
    /// A log is none, and what is told of it.
    Told(String),
}

/// The failure of a refusal without words.
impl From<Refusal> for Unread {
    ghost use Rattle.std.specs.Prelude.{◌≡◌, None};
    ghost use Rattle.sw_commands.specs.declared.ordering.Unread.TheVariants.{Failed};

    ghost from_gives = { λ refusal unread. unread ≡ Failed (record { refusal = refusal; words = None }) };

    fn from(refusal: Refusal) -> Unread {
        Unread::Failed(Failure::from(refusal))
    }
}

impl<R: Clock + Eprint + Sync> Onlooker for Seen<'_, R> {
    fn sees(&self, placed: usize, _states: u64) {
        self.tell(self.now(), placed as u64, "calls placed");
    }
}

/// What is wrong with bytes that are no log, or the want of memory for them.
fn not_a_log(alloc: Global, path: &str, bytes: &[u8], fault: &Fault) -> Unread {
    if let Fault::NoMemory = fault {
        return Unread::from(Refusal::NoMemory);
    }
    match flaws::told(alloc, called(Place::new(path)), bytes, fault) {
        Ok(told) => Unread::Told(told),
        Err(_) => Unread::from(Refusal::NoMemory),
    }
}

/// The bytes of a log. Where it cannot be read the failure's words tell why.
fn bytes_of<R: Files>(rt: &R, alloc: Global, path: &str) -> Result<Vec<u8>, Unread> {
    let place = Place::new(path);
    match read_file(rt, alloc, place.path()) {
        Ok(bytes) => Ok(bytes),
        Err(refusal) => Err(Unread::Failed(Failure::of_file(rt, alloc, place, refusal))),
    }
}

/// Reads logs, one after another.
fn read_logs<R: Files>(
    rt: &R,
    alloc: Global,
    schema: &mut Schema,
    logs: &[&str],
    calls: &mut Vec<Logged>,
) -> Result<(), Unread>
    requires { AllFit (length schema.old) calls.old.items }
    ensures { OnOk result (AllFit (length schema.new) calls.new.items) }
{
    let mut number = 0u64;
    for log in logs {
        number = number.saturating_add(1);
        let bytes = bytes_of(rt, alloc, *log)?;
        let mut source = Counted::new(bytes.as_slice());
        if let Err(fault) = read_log(alloc, schema, number, &mut source, calls) {
            return Err(not_a_log(alloc, *log, bytes.as_slice(), &fault));
        }
    }
    Ok(())
}

/// Reads the table. Where it cannot be opened or read the failure's words tell so.
fn open_table<R: Files + RandomSource>(
    rt: &R,
    alloc: Global,
    ordering: &Ordering<'_>,
) -> Result<Opening, Failure>
    ensures { IfOk result IsOpening }
{
    let place = Place::new(ordering.table);
    let file = match open_input(rt, place.path()) {
        Ok(file) => file,
        Err(refusal) => return Err(Failure::of_file(rt, alloc, place, refusal)),
    };
    let key = TextKey::new(rt)?;
    match read_opening(alloc, key, &mut Counted::new(file), ordering.way.limit.rows) {
        Ok(opening) => Ok(opening),
        Err(refusal) => Err(Failure::of_file(rt, alloc, place, refusal)),
    }
}

/// The rules of a search.
fn rules_of(way: Way) -> Rules {
    Rules {
        by: way.by,
        any_keys: way.any_keys,
        states: way.states,
    }
}

/// Looks for an order over a table.
fn order_over<R: Files + Clock + Eprint + Sync>(
    rt: &R,
    alloc: Global,
    ordering: &Ordering<'_>,
    opening: Opening,
    calls: &mut Vec<Logged>,
) -> Result<Outcome, Unread>
    requires table { IsOpening opening }
    requires fit { AllFit (length opening.schema) calls.old.items }
{
    let mut opening = opening;
    read_logs(rt, alloc, &mut opening.schema, ordering.logs, calls)?;
    let seen = Seen::new(rt, Sights::of_progress(ordering.progress), false);
    let rules = rules_of(ordering.way);
    Ok(find_order(alloc, opening, calls.as_slice(), rules, &seen)?)
}

/// Writes a text in quotes, in which quotes are doubled.
fn write_quoted<W: Sink>(text: &str, out: &mut W) -> Result<(), Refusal> {
    write_all(out, b"\"")?;
    for byte in text.as_bytes() {
        if *byte == b'"' {
            write_all(out, b"\"")?;
        }
        write_all(out, &[*byte])?;
    }
    write_all(out, b"\"")
}

/// The name of a log, by its number from 1.
fn name_of<'a>(logs: &[&'a str], log: u64) -> &'a str {
    match logs.get((log as usize).saturating_sub(1)) {
        Some(name) => *name,
        None => "",
    }
}

/// Writes from which record of which log an entry came.
fn write_origin<W: Sink>(
    logs: &[&str],
    entry: u64,
    logged: &Logged,
    out: &mut W,
) -> Result<(), Refusal> {
    write_number(entry, out)?;
    write_all(out, b",")?;
    write_quoted(name_of(logs, logged.origin.log), out)?;
    write_all(out, b",")?;
    write_number(logged.origin.record, out)?;
    write_all(out, b"\n")
}

/// Writes from which record of which log each entry came.
fn write_origins<W: Sink>(
    logs: &[&str],
    calls: &[Logged],
    places: &[usize],
    out: &mut W,
) -> Result<(), Refusal> {
    write_all(out, b"entry,log,record\n")?;
    let mut entry = 0u64;
    for place in places {
        entry = entry.saturating_add(1);
        if let Some(logged) = calls.get(*place) {
            write_origin(logs, entry, logged, out)?;
        }
    }
    Ok(())
}

/// Writes from which records entries came to the file of a path.
fn keep_origins<R: Files>(
    rt: &R,
    alloc: Global,
    origins: &[u8],
    path: &str,
) -> Result<(), Refusal> {
    let mut file = begin_file(rt, alloc, path)?;
    let written = write_all(&mut file, origins);
    file.end(rt, written)
}

/// Tells that there is no order. Answers the exit status.
fn tell_none<E: Sink>(
    logs: &[&str],
    calls: &[Logged],
    reached: &Reached,
    errors: &mut E,
) -> Result<u8, Failure> {
    write_reached("no order", logs, calls, reached, errors)?;
    Ok(1)
}

/// Tells that a search was given up. Answers the exit status.
fn tell_given_up<E: Sink>(
    logs: &[&str],
    calls: &[Logged],
    reached: &Reached,
    errors: &mut E,
) -> Result<u8, Failure> {
    write_all(errors, b"given up after ")?;
    write_number(reached.states, errors)?;
    write_reached(" states", logs, calls, reached, errors)?;
    Ok(3)
}

/// Writes a line.
fn write_line<W: Sink>(text: &str, out: &mut W) -> Result<(), Refusal> {
    write_all(out, text.as_bytes())?;
    write_all(out, b"\n")
}

/// Ends where no order is looked for: answers the exit status where a log is none, which is told; else it fails.
fn end_unread<E: Sink>(unread: Unread, errors: &mut E) -> Result<u8, Failure> {
    match unread {
        Unread::Told(told) => {
            write_line(told.as_str(), errors)?;
            Ok(2)
        }
        Unread::Failed(failure) => Err(failure),
    }
}

impl Ordering<'_> {
    /// Whether more than one of the table and the logs is standard input.
    fn reads_twice(&self) -> bool {
        let logs = self
            .logs
            .iter()
            .filter(|log| Place::new(**log).is_standard());
        let table = Place::new(self.table).is_standard();
        logs.count().saturating_add(usize::from(table)) > 1
    }

    /// What is wrong with its files, if anything: standard input is to be read twice, or the list of origins would be written over
    /// the table, a log, or the file into which the history goes.
    pub fn clash<R: Files>(&self, rt: &R) -> Option<&'static str> {
        if self.reads_twice() {
            return Some(BOTH_STANDARD);
        }
        let origins = self.origins?;
        let id = FileId::of(rt, origins)?;
        if id.is_at(rt, self.table) {
            return Some("the list of origins would be written over the table");
        }
        if is_output(rt, origins) {
            return Some("the list of origins would be written over the history");
        }
        for log in self.logs {
            if id.is_at(rt, *log) {
                return Some("the list of origins would be written over a log");
            }
        }
        None
    }

    /// Writes the history of an order that was found, and from where its entries came. Answers the exit status. Where one of
    /// them cannot be written the failure's words tell which.
    fn write<R: Files + Print>(
        &self,
        rt: &R,
        alloc: Global,
        calls: &[Logged],
        order: &Order,
    ) -> Result<u8, Failure> {
        let reader = Reader::new();
        let mut out = Counted::new(Outflow::new(io::writer(rt), &reader));
        if let Err(refusal) = write_record(alloc, &order.history, &mut out) {
            return Err(Failure::of_output(alloc, &reader, refusal));
        }
        let Some(path) = self.origins else {
            return Ok(0);
        };
        let mut origins = Counted::new(Vec::new(alloc));
        // a list in memory refuses bytes for want of memory alone
        if write_origins(self.logs, calls, order.places.as_slice(), &mut origins).is_err() {
            return Err(Failure::from(Refusal::NoMemory));
        }
        match keep_origins(rt, alloc, origins.inner.as_slice(), path) {
            Ok(()) => Ok(0),
            Err(refusal) => Err(Failure::of_unwritten(rt, alloc, path, refusal)),
        }
    }

    /// Looks for an order of the logs' calls: its history goes to standard output, and why there is none to `errors`.
    /// Answers the exit status: 0 where one was found, 1 where none was with nothing left to try, 2 where a log is
    /// refused, and 3 where the search was given up.
    ///
    /// Refused as `read_opening` is, `Input` where the table or a log cannot be read or the system gives no random bytes for
    /// the key of texts, and `Output` where what is found cannot be written. The failure's words tell which file
    /// cannot be read or written.
    pub fn make<R: Files + RandomSource + Clock + Print + Eprint + Sync, E: Sink>(
        &self,
        rt: &R,
        alloc: Global,
        errors: &mut E,
    ) -> Result<u8, Failure> {
        let opening = open_table(rt, alloc, self)?;
        let mut calls = Vec::new(alloc);
        let outcome = match order_over(rt, alloc, self, opening, &mut calls) {
            Ok(outcome) => outcome,
            Err(unread) => return end_unread(unread, errors),
        };
        let calls = calls.as_slice();
        match &outcome {
            Outcome::Found(order) => self.write(rt, alloc, calls, order),
            Outcome::NoOrder(reached) => tell_none(self.logs, calls, reached, errors),
            Outcome::GivenUp(reached) => tell_given_up(self.logs, calls, reached, errors),
        }
    }
}
