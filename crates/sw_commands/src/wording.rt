//! A refusal of a run in words: the texts of the run are looked at again.

use crate::inputs::{Kept, Place, Script};
use crate::outflow::Reader;
use std::alloc::{AllocError, Global};
use std::fs::File;
use std::io::ErrorKind;
use std::random::RandomSource;
use std::rt::Files;
use std::{fs, io};
use sw_faults::{Asked, Given, MOST_COLUMNS, Origin, Text, all_faults, words_of, wrong_entry};
use sw_files::read_file;
use sw_headers::{Header, text_under};
use sw_rows::{Refusal, TextKey, Why};

/// What was asked, of which a refusal came.
#[derive(Clone, Copy)]
pub struct Asking<'a> {
    /// Where the table is.
    pub table: Place<'a>,
    /// The header that stands in place of the table's first record, if one is given.
    pub header: Option<&'a str>,
    /// Where the calls come from, if there are any.
    pub script: Option<Script<'a>>,
    /// The text of the cuts.
    pub cuts: &'a str,
    /// Whether all faults of the table are to be told.
    pub faults: bool,
}

/// What a header that is given is called in words.
const HEADER: &str = "--header";

/// What standard input is called in words.
const STANDARD: &str = "standard input";

/// What standard output is called in words.
const STANDARD_OUTPUT: &str = "standard output";

/// What a place is called in words.
pub(crate) fn called(place: Place<'_>) -> &str {
    if place.is_standard() {
        STANDARD
    } else {
        place.name()
    }
}

/// The bytes of a place: those that were kept of it where it is read only once, else read again; none where they cannot
/// be had.
fn again<R: Files>(rt: &R, alloc: Global, place: Place<'_>, kept: Kept) -> Option<Vec<u8>> {
    match kept {
        Kept::Once(bytes) => bytes,
        Kept::Often => read_file(rt, alloc, place.name()).ok(),
    }
}

/// What the system says of a file that cannot be read.
fn why_not(error: &io::Error) -> &'static str {
    match error.kind() {
        ErrorKind::NotFound => "there is no such file",
        ErrorKind::PermissionDenied => "the file may not be read",
        ErrorKind::IsADirectory => "a folder, wanted a file",
        _ => "the file cannot be read",
    }
}

/// Whether a path leads to a folder.
fn is_folder<R: Files>(rt: &R, path: &str) -> bool {
    match fs::metadata(rt, path) {
        Ok(found) => found.is_dir(),
        Err(_) => false,
    }
}

/// What is wrong with the file of a place, if it cannot be opened or is a folder.
fn wrong_file<R: Files>(rt: &R, place: Place<'_>) -> Option<&'static str> {
    if place.is_standard() {
        return None;
    }
    if let Err(error) = File::open(rt, place.name()) {
        return Some(why_not(&error));
    }
    if is_folder(rt, place.name()) {
        Some("a folder, wanted a file")
    } else {
        None
    }
}

/// The words of a place whose file cannot be read.
fn of_place<R: Files>(
    rt: &R,
    alloc: Global,
    place: Place<'_>,
) -> Result<Option<String>, AllocError> {
    match wrong_file(rt, place) {
        Some(why) => Ok(Some(format!(in alloc; "{}: {why}\n", called(place))?)),
        None => Ok(None),
    }
}

/// The words of a file, or of standard input, that cannot be read, where that was refused; nothing where there is no memory for
/// them.
pub fn of_file<R: Files>(
    rt: &R,
    alloc: Global,
    place: Place<'_>,
    refusal: &Refusal,
) -> Option<String> {
    match refusal {
        Refusal::Input if place.is_standard() => of_standard(alloc).ok(),
        Refusal::Input => of_place(rt, alloc, place).ok()?,
        _ => None,
    }
}

/// The words of standard input that cannot be read.
fn of_standard(alloc: Global) -> Result<String, AllocError> {
    format!(in alloc; "{STANDARD}: it cannot be read\n")
}

/// The words of a file, or of standard input, that was refused when it was to be read; nothing where there is no memory
/// for them.
pub fn of_unread<R: Files>(
    rt: &R,
    alloc: Global,
    place: Place<'_>,
    refusal: &Refusal,
) -> Option<String> {
    let why = match refusal {
        Refusal::NoMemory => "there is no memory for it",
        _ => match wrong_file(rt, place) {
            Some(why) => why,
            None => "it cannot be read",
        },
    };
    format!(in alloc; "{}: {why}\n", called(place)).ok()
}

/// The words of a file that was refused when it was to be written; nothing where there is no memory for them.
pub fn of_unwritten<R: Files>(
    rt: &R,
    alloc: Global,
    path: &str,
    refusal: &Refusal,
) -> Option<String> {
    let why = match refusal {
        Refusal::NoMemory => "there is no memory for it",
        _ if is_folder(rt, path) => "a folder, wanted a file",
        _ => "it cannot be written",
    };
    format!(in alloc; "{path}: {why}\n").ok()
}

/// The words of standard output that refused bytes for this reader; nothing of other refusals, nor where there is no memory for
/// them.
pub fn of_output(alloc: Global, reader: &Reader, refusal: &Refusal) -> Option<String> {
    let why = match refusal {
        Refusal::Output if reader.is_gone() => "its reader is gone",
        Refusal::Output => "it cannot be written",
        _ => return None,
    };
    format!(in alloc; "{STANDARD_OUTPUT}: {why}\n").ok()
}

/// The words of a script whose file cannot be read.
fn of_script<R: Files>(
    rt: &R,
    alloc: Global,
    asking: &Asking<'_>,
) -> Result<Option<String>, AllocError> {
    match asking.script {
        Some(Script::At(place)) => of_place(rt, alloc, place),
        _ => Ok(None),
    }
}

impl Asking<'_> {
    /// Whether the table or the script is standard input.
    fn reads_standard(&self) -> bool {
        match self.script {
            Some(script) if script.is_standard() => true,
            _ => self.table.is_standard(),
        }
    }
}

/// The words of a table or a script that cannot be read: of a file that shows why, or else of standard input.
fn of_input<R: Files>(rt: &R, alloc: Global, asking: &Asking<'_>) -> Result<String, AllocError> {
    if let Some(words) = of_place(rt, alloc, asking.table)? {
        return Ok(words);
    }
    if let Some(words) = of_script(rt, alloc, asking)? {
        return Ok(words);
    }
    if asking.reads_standard() {
        return of_standard(alloc);
    }
    Ok(String::new(alloc))
}

/// The bytes of the table and of the script, where they can be had.
#[derive(Drop)]
struct Texts {
    /// The table, under the header that was given, if one was.
    table: Option<Vec<u8>>,
    /// The table's file as it stands, where a header was given.
    file: Option<Vec<u8>>,
    script: Option<Vec<u8>>,
}

impl Texts {
    /// The script that was asked, and what its lines are.
    fn script<'a>(&'a self, asking: &Asking<'a>) -> (Text<'a>, Origin) {
        match asking.script {
            Some(Script::Given(lines)) => (named("", Some(lines)), Origin::Arguments),
            Some(Script::At(place)) => (
                named(called(place), as_bytes(&self.script)),
                Origin::Lines,
            ),
            None => (named("", None), Origin::Lines),
        }
    }

    /// The header that was given, if one was.
    fn given<'a>(&'a self, asking: &Asking<'a>) -> Option<Given<'a>> {
        match asking.header {
            Some(header) => Some(Given {
                header,
                bytes: as_bytes(&self.file),
            }),
            None => None,
        }
    }

    /// What was asked, with these texts; so the table is called.
    fn asked<'a>(&'a self, asking: &Asking<'a>, table: &'a str) -> Asked<'a> {
        let (script, origin) = self.script(asking);
        Asked {
            table: named(table, as_bytes(&self.table)),
            given: self.given(asking),
            script,
            origin,
            cuts: asking.cuts,
        }
    }
}

/// A text of a name.
fn named<'a>(name: &'a str, bytes: Option<&'a [u8]>) -> Text<'a> {
    Text { name, bytes }
}

/// Bytes that may be there, as a slice.
fn as_bytes(bytes: &Option<Vec<u8>>) -> Option<&[u8]> {
    match bytes {
        Some(bytes) => Some(bytes.as_slice()),
        None => None,
    }
}

/// The bytes of a script, if there is one at a place.
fn script_again<R: Files>(
    rt: &R,
    alloc: Global,
    script: Option<Script<'_>>,
    kept: Kept,
) -> Option<Vec<u8>> {
    match script? {
        Script::At(place) => again(rt, alloc, place, kept),
        Script::Given(_) => None,
    }
}

/// A table's file under a header; none where it cannot be had, or where there is no memory.
fn under(alloc: Global, header: &str, file: &Option<Vec<u8>>) -> Option<Vec<u8>> {
    let file = as_bytes(file)?;
    text_under(alloc, Header::new(alloc, header).ok()?, file).ok()
}

/// The texts that were read, as far as they can be had. What was kept of a table was read under its header.
fn texts_again<R: Files>(rt: &R, alloc: Global, asking: &Asking<'_>, kept: Keeps) -> Texts {
    let Keeps { table, script } = kept;
    let script = script_again(rt, alloc, asking.script, script);
    match (table, asking.header) {
        (Kept::Often, Some(header)) => {
            let file = read_file(rt, alloc, asking.table.name()).ok();
            Texts {
                table: under(alloc, header, &file),
                file,
                script,
            }
        }
        (kept, _) => Texts {
            table: again(rt, alloc, asking.table, kept),
            file: None,
            script,
        },
    }
}

/// Whether a refusal is of a header that was given: of a field of it, or of more names than a table has columns.
fn is_of_header(header: &str, refusal: &Refusal) -> bool {
    match refusal {
        Refusal::BadTable { rec: 0, field } => *field > 0,
        Refusal::TooMany { .. } => {
            header.split(',').filter(|word| *word != "-").count() > MOST_COLUMNS
        }
        _ => false,
    }
}

/// What the table is called in the words of a refusal: by the header that was given, where that is refused.
fn called_table<'a>(asking: &Asking<'a>, refusal: &Refusal) -> &'a str {
    match asking.header {
        Some(header) if is_of_header(header, refusal) => HEADER,
        _ => called(asking.table),
    }
}

/// The words of a refusal that the texts have.
fn of_texts(
    alloc: Global,
    key: TextKey,
    asking: &Asking<'_>,
    refusal: &Refusal,
    texts: &Texts,
) -> Result<String, AllocError> {
    let asked = texts.asked(asking, called_table(asking, refusal));
    match (refusal, asked.table.bytes) {
        (Refusal::BadTable { rec, .. }, Some(bytes)) if asking.faults && *rec > 0 => {
            all_faults(alloc, key, asked.table.name, bytes, asked.given)
        }
        _ => words_of(alloc, key, refusal, &asked),
    }
}

/// What was kept of the table and the script.
#[derive(Drop)]
pub struct Keeps {
    pub table: Kept,
    pub script: Kept,
}

/// A refusal in words: lines, or nothing where none can be found or there is no memory for them.
pub fn words<R: Files + RandomSource>(
    rt: &R,
    alloc: Global,
    asking: &Asking<'_>,
    refusal: &Refusal,
    kept: Keeps,
) -> Option<String> {
    let key = TextKey::new(rt).ok()?;
    match refusal {
        Refusal::Input => of_input(rt, alloc, asking).ok(),
        Refusal::BadTable { .. }
        | Refusal::BadLine { .. }
        | Refusal::UnknownAttribute { .. }
        | Refusal::TooMany { .. } => {
            let texts = texts_again(rt, alloc, asking, kept);
            of_texts(alloc, key, asking, refusal, &texts).ok()
        }
        _ => None,
    }
}

/// A refusal of the form of the replies in words.
pub fn of_form(alloc: Global, refusal: &Refusal, script: Script<'_>) -> Option<String> {
    let Refusal::BadLine { line, .. } = refusal else {
        return None;
    };
    let at = match script {
        Script::At(place) => format!(in alloc; "{} line {line}", called(place)).ok()?,
        Script::Given(_) => format!(in alloc; "argument {line}").ok()?,
    };
    format!(in alloc;
        "{at}: --output table wants a select as the last call, of columns that differ\n"
    ).ok()
}

/// A refusal of a history file in words: what is wrong with the entry that is none, or that the whole is none.
pub fn of_history(
    alloc: Global,
    place: Place<'_>,
    bytes: &[u8],
    refusal: &Refusal,
) -> Option<String> {
    let name = called(place);
    match refusal {
        Refusal::BadLine {
            line: 0,
            why: Why::History,
        } => format!(in alloc; "{name}: it is no history file as run --history writes one\n").ok(),
        Refusal::BadLine {
            line,
            why: Why::History,
        } => wrong_entry(alloc, name, bytes, u64::from(*line)).ok(),
        _ => None,
    }
}
