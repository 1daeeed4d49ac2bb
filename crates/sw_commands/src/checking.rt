//! The check of a history file.

ghost use Rattle.std.specs.Prelude.{List, ℕ, IfOk};
ghost use Rattle.sw_commands.specs.Statuses.{IsStatusOf};

use crate::failure::Failure;
use crate::inputs::Place;
use crate::origins::Origins;
use crate::outflow::{Outflow, Reader};
use crate::wording;
use std::alloc::Global;
use std::io;
use std::random::RandomSource;
use std::rt::Files;
use sw_files::read_file;
use sw_histories::{check_file, explain_file};
use sw_rows::{Counted, Refusal, Sink, TextKey};

/// What is told of a history beside the verdict.
#[derive(Clone, Copy)]
pub struct Telling<'a> {
    /// Whether it is told of a history that is not legal why.
    pub explains: bool,
    /// Where it stands from which records of logs the entries came, if it is to be told.
    pub origins: Option<&'a str>,
}

/// From where entries came, as a file has it, if there is one.
fn origins_of<R: Files>(rt: &R, alloc: Global, path: Option<&str>) -> Result<Origins, Refusal> {
    let Some(path) = path else {
        return Ok(Origins::none(alloc));
    };
    let bytes = read_file(rt, alloc, Place::new(path).path())?;
    match Origins::read(alloc, bytes.as_slice()) {
        Ok(origins) => Ok(origins),
        Err(_) => Err(Refusal::NoMemory),
    }
}

/// Writes the verdict on a history with an explanation, and from where the entries came that it names.
fn explain_from<W: Sink>(
    alloc: Global,
    key: TextKey,
    bytes: &[u8],
    origins: &Origins,
    out: &mut W,
) -> Result<u8, Refusal>
    ensures { IfOk result (IsStatusOf bytes.now) }
{
    let mut told = Counted::new(Vec::new(alloc));
    let status = match explain_file(alloc, key, bytes, &mut told) {
        Ok(status) => status,
        // a list in memory refuses bytes for want of memory alone
        Err(Refusal::Output) => return Err(Refusal::NoMemory),
        Err(e) => return Err(e),
    };
    let Ok(text) = String::from_utf8_lossy(alloc, told.inner.as_slice()) else {
        return Err(Refusal::NoMemory);
    };
    match origins.write(text.as_str(), out) {
        Ok(()) => Ok(status),
        Err(e) => Err(e),
    }
}

/// Writes the verdict on the bytes of a history file, and what else is told of it.
fn check_bytes<R: Files + RandomSource + Print>(
    rt: &R,
    alloc: Global,
    bytes: &[u8],
    telling: Telling<'_>,
    reader: &Reader,
) -> Result<u8, Refusal>
    ensures { IfOk result (IsStatusOf bytes.now) }
{
    let key = TextKey::new(rt)?;
    let mut out = Counted::new(Outflow::new(io::writer(rt), reader));
    if telling.explains {
        let origins = origins_of(rt, alloc, telling.origins)?;
        explain_from(alloc, key, bytes, &origins, &mut out)
    } else {
        check_file(alloc, key, bytes, &mut out)
    }
}

/// Reads a history file, `-` being standard input, and writes the verdict on it, and what else is told of it; answers the
/// exit status, 0 where it is legal, else 1.
///
/// Refused `Input` where a file cannot be opened or read, or the system gives no random bytes for the key of texts, as
/// `check_file` refuses its bytes, and `Output` where the verdict cannot be written. The failure's words tell which file cannot be
/// read, what is wrong with an entry that is refused, or why the verdict cannot be written, as a line.
pub fn check_path<R: Files + RandomSource + Print>(
    rt: &R,
    alloc: Global,
    path: &str,
    telling: Telling<'_>,
) -> Result<u8, Failure>
    ensures { IfOk result (λ status. (bytes : List ℕ) × IsStatusOf bytes status) }
{
    let place = Place::new(path);
    let bytes = match read_file(rt, alloc, place.path()) {
        Ok(bytes) => bytes,
        Err(refusal) => return Err(Failure::of_file(rt, alloc, place, refusal)),
    };
    let reader = Reader::new();
    match check_bytes(rt, alloc, bytes.as_slice(), telling, &reader) {
        Ok(status) => Ok(status),
        Err(refusal) => {
            let words = match (&refusal, telling.origins) {
                (Refusal::Output, _) => wording::of_output(alloc, &reader, &refusal),
                (Refusal::Input, Some(origins)) => {
                    wording::of_file(rt, alloc, Place::new(origins), &refusal)
                }
                _ => wording::of_history(alloc, place, bytes.as_slice(), &refusal),
            };
            Err(Failure { refusal, words })
        }
    }
}
