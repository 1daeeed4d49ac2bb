//! A table is made of a file of values.

ghost use Rattle.std.specs.Prelude.{◌≡◌, ◌⊎◌, IfOk};

use crate::clash::is_output;
use crate::failure::Failure;
use crate::inputs::{Place, open_place};
use crate::outflow::{Outflow, Reader};
use crate::seeing::{LinesSeen, Seen, Sights, What};
use crate::wording::called;
use std::alloc::{AllocError, Global};
use std::io;
use std::random::RandomSource;
use std::rt::{Clock, Files};
use std::thread::Threads;
use sw_faults::{has_kinds, open_quote, why_wide};
use sw_files::{FileId, begin_file};
use sw_import::{Fault, How, Imported, dictionary_of, import_in_parts, told as summary};
use sw_lang::write_all;
use sw_rows::{Counted, Refusal, Sink, TextKey, read_all};

/// What is told where there is no key for texts.
const NO_KEY: &str = "the system gives no random bytes\n";

/// What is told besides why no table was made, where the values begin as a comment does.
const IS_COMMENT: &str =
    "; a line that begins with # is no comment here, and sed '/^#/d' takes such lines out";

/// A table that is asked for.
#[derive(Clone, Copy)]
pub struct Import<'a> {
    /// Where the values are; `-` is standard input.
    pub file: &'a str,
    /// How they are made into a table.
    pub how: How<'a>,
    /// Where the texts go for which numbers are written, if anywhere.
    pub dictionary: Option<&'a str>,
    /// Whether standard error is told how many lines were read, from a second after the beginning on, once a second.
    pub progress: bool,
}

/// Reads the values, to their end, and tells how far that is where it is asked.
fn read_values<R: Files + Clock + Eprint + Input>(
    rt: &R,
    alloc: Global,
    place: Place<'_>,
    progress: bool,
) -> Result<Vec<u8>, Refusal> {
    let seen = Seen::new(rt, Sights::of_progress(progress), false);
    match open_place(rt, place) {
        Ok(source) => {
            let source = Counted::new(source);
            let mut source = LinesSeen::new(source, &seen, What::Values);
            read_all(alloc, &mut source, usize::MAX)
        }
        Err(refusal) => Err(refusal),
    }
}

/// Writes the texts for which numbers were written to a file.
fn keep_dictionary<R: Files>(
    rt: &R,
    alloc: Global,
    path: &str,
    made: &Imported,
) -> Result<(), Refusal> {
    let Ok(bytes) = dictionary_of(alloc, made) else {
        return Err(Refusal::NoMemory);
    };
    let mut file = begin_file(rt, alloc, path)?;
    let written = write_all(&mut file, bytes.as_slice());
    file.end(rt, written)
}

/// That values have a table's header.
fn of_table(alloc: Global, place: Place<'_>) -> Result<String, AllocError> {
    let name = place.name();
    format!(in alloc;
        "the headings have kinds, as those of a table, which needs no import: sideways run --table {name}"
    )
}

/// What is told besides why no table was made of values.
fn more_of(
    alloc: Global,
    place: Place<'_>,
    bytes: &[u8],
    delimiter: u8,
) -> Result<String, AllocError> {
    if let Some(why) = why_wide(bytes) {
        return format!(in alloc; "; {why}");
    }
    if let Some(line) = open_quote(bytes, delimiter) {
        return format!(in alloc; "; line {line}: a quote opens there that nothing closes");
    }
    if bytes.starts_with(b"#") {
        return String::from_str(alloc, IS_COMMENT);
    }
    if has_kinds(bytes) {
        let table = of_table(alloc, place)?;
        return format!(in alloc; "; {table}");
    }
    Ok(String::new(alloc))
}

/// What is told besides of a table that was made: that the values are one.
fn more_of_made(alloc: Global, place: Place<'_>, bytes: &[u8]) -> Result<String, AllocError> {
    if !has_kinds(bytes) {
        return Ok(String::new(alloc));
    }
    let table = of_table(alloc, place)?;
    format!(in alloc; "  {table}\n")
}

/// Tells why no table was made, where it is not for want of memory, and more. Answers the exit status.
fn refuse<E: Sink>(
    alloc: Global,
    place: Place<'_>,
    fault: &Fault,
    more: &str,
    errors: &mut E,
) -> Result<u8, Failure>
    ensures { IfOk result (λ status. status ≡ 2) }
{
    if fault.is_memory() {
        return Err(Failure::from(Refusal::NoMemory));
    }
    let file = called(place);
    let Ok(text) = format!(in alloc; "sideways: {file}: {fault}{more}\n") else {
        return Err(Failure::from(Refusal::NoMemory));
    };
    let _ = write_all(errors, text.as_bytes());
    Ok(2)
}

/// Tells what was done for a table, and more. Answers the exit status.
fn tell<E: Sink>(
    alloc: Global,
    place: Place<'_>,
    made: &Imported,
    more: &str,
    errors: &mut E,
) -> Result<u8, Failure>
    ensures { IfOk result (λ status. status ≡ 0) }
{
    let Ok(text) = summary(alloc, called(place), made) else {
        return Err(Failure::from(Refusal::NoMemory));
    };
    let _ = write_all(errors, text.as_bytes());
    let _ = write_all(errors, more.as_bytes());
    Ok(0)
}

/// What came of the values of an import: a table, or why there is none.
type Came = Result<Imported, Fault>;

/// Whether there is no table for want of memory.
fn is_memory(came: &Came) -> bool {
    match came {
        Ok(_) => false,
        Err(fault) => fault.is_memory(),
    }
}

impl Import<'_> {
    /// What the list of texts would be written over, if anything: the values, or the file into which the table goes.
    pub fn clash<R: Files>(&self, rt: &R) -> Option<&'static str> {
        let path = self.dictionary?;
        let id = FileId::of(rt, path)?;
        if id.is_at(rt, Place::new(self.file).path()) {
            return Some("the dictionary would be written over the values");
        }
        if is_output(rt, path) {
            return Some("the dictionary would be written over the table");
        }
        None
    }

    /// Reads the values and makes the table; answers also what is told besides. Refused `Input` where the
    /// values cannot be opened or read or the system gives no random bytes for the key of texts, and `NoMemory`; the failure's
    /// words tell which it was.
    fn read<R: Files + Clock + Eprint + Input + RandomSource + Threads + Sync>(
        &self,
        rt: &R,
        alloc: Global,
    ) -> Result<(Came, String), Failure> {
        let place = Place::new(self.file);
        let bytes = match read_values(rt, alloc, place, self.progress) {
            Ok(bytes) => bytes,
            Err(refusal) => return Err(Failure::of_unread(rt, alloc, place, refusal)),
        };
        let key = match TextKey::new(rt) {
            Ok(key) => key,
            Err(refusal) => {
                let words = String::from_str(alloc, NO_KEY).ok();
                return Err(Failure { refusal, words });
            }
        };
        let came = import_in_parts(rt, alloc, key, &self.how, bytes.as_slice());
        match self.more(alloc, &came, bytes.as_slice()) {
            Ok(more) if !is_memory(&came) => Ok((came, more)),
            _ => Err(Failure::of_unread(rt, alloc, place, Refusal::NoMemory)),
        }
    }

    /// What is told besides of values of which this came.
    fn more(&self, alloc: Global, came: &Came, bytes: &[u8]) -> Result<String, AllocError> {
        let place = Place::new(self.file);
        match came {
            Ok(_) => more_of_made(alloc, place, bytes),
            Err(_) => more_of(alloc, place, bytes, self.how.delimiter),
        }
    }

    /// Writes the texts for which numbers stand to their file, and the table to standard output. Refused `Output` where
    /// one of them cannot be written, and `NoMemory`; the failure's words tell which it was, and why.
    fn write<R: Files + Print>(
        &self,
        rt: &R,
        alloc: Global,
        made: &Imported,
    ) -> Result<(), Failure> {
        if let Some(path) = self.dictionary {
            if let Err(refusal) = keep_dictionary(rt, alloc, path, made) {
                return Err(Failure::of_unwritten(rt, alloc, path, refusal));
            }
        }
        let reader = Reader::new();
        let mut out = Counted::new(Outflow::new(io::writer(rt), &reader));
        match write_all(&mut out, made.bytes.as_slice()) {
            Ok(()) => Ok(()),
            Err(refusal) => Err(Failure::of_output(alloc, &reader, refusal)),
        }
    }

    /// Makes the table: it goes to standard output, the texts for which numbers stand to their file, and what was done to
    /// `errors`. Answers the exit status: 0 where there is a table, and 2 where there is none, which is told on `errors`.
    /// Refused `Input` where the values cannot be opened or read or the system gives no random bytes for the key of texts,
    /// `Output` where the table or the texts cannot be written, and `NoMemory`. The failure's words tell which it was, where
    /// there is memory for them.
    pub fn make<R: Files + Clock + Input + RandomSource + Print + Eprint + Threads + Sync, E: Sink>(
        &self,
        rt: &R,
        alloc: Global,
        errors: &mut E,
    ) -> Result<u8, Failure>
        ensures { IfOk result (λ status. (status ≡ 0) ⊎ (status ≡ 2)) }
    {
        let (came, more) = self.read(rt, alloc)?;
        let place = Place::new(self.file);
        match came {
            Ok(made) => {
                self.write(rt, alloc, &made)?;
                tell(alloc, place, &made, more.as_str(), errors)
            }
            Err(fault) => refuse(alloc, place, &fault, more.as_str(), errors),
        }
    }
}
