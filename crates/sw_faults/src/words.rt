//! A refusal in words.

use crate::cuts::wrong_cuts;
use crate::headers::MOST_COLUMNS;
use crate::lines::{first_refused, has_more_blocks, has_more_calls, wrong_line};
use crate::tables::{Sheet, bad_header, bad_row, columns_past, has_more_rows, schema_at};
use std::alloc::{AllocError, Global};
use sw_rows::{MOST_BYTES, MOST_ROWS, Refusal, Schema, TextKey, Why};

/// How many attributes a table has at most, cuts an attribute, and blocks a script.
const MOST_ATTRS: u64 = MOST_COLUMNS as u64;

const MOST_CUTS: u64 = 15;

const MOST_BLOCKS: u64 = 1024;

/// How a file of more columns is asked.
const FEWER: &str = "sideways import chooses columns, and --header passes by those that it calls -";

/// A text that was read.
#[derive(Clone, Copy)]
pub struct Text<'a> {
    /// What it is called.
    pub name: &'a str,
    /// Its bytes; none where they cannot be had again.
    pub bytes: Option<&'a [u8]>,
}

/// Whether the lines of a script are those of a text or are arguments of the command line.
#[derive(Clone, Copy, PartialEq, Eq)]
pub enum Origin {
    /// The lines of a text.
    Lines,
    /// Arguments, a line each.
    Arguments,
}

/// A header that stands in place of a table's own.
#[derive(Clone, Copy)]
pub struct Given<'a> {
    /// The header, `-` in it for each column that is passed by.
    pub header: &'a str,
    /// The bytes of the table's file as they stand there; none where they cannot be had again.
    pub bytes: Option<&'a [u8]>,
}

impl Given<'_> {
    /// How many columns it has, those that are passed by among them.
    pub(crate) fn wide(&self) -> usize {
        self.header.split(',').count()
    }

    /// The column of a place, from 0, if there is one that is not passed by.
    pub(crate) fn column(&self, place: usize) -> Option<&str> {
        let word = self.header.split(',').nth(place)?;
        if word == "-" { None } else { Some(word) }
    }
}

/// What was asked when it was refused.
#[derive(Clone, Copy)]
pub struct Asked<'a> {
    /// The table, under the header that was given, if one was.
    pub table: Text<'a>,
    /// The header that was given, if one was.
    pub given: Option<Given<'a>>,
    /// The script.
    pub script: Text<'a>,
    /// What the lines of the script are.
    pub origin: Origin,
    /// The text of the cuts.
    pub cuts: &'a str,
}

impl Asked<'_> {
    /// Where a line of the script is.
    fn line(&self, alloc: Global, number: u32) -> Result<String, AllocError> {
        match self.origin {
            Origin::Lines => format!(in alloc; "{} line {number}", self.script.name),
            Origin::Arguments => format!(in alloc; "argument {number}"),
        }
    }

    /// What the script is called.
    fn script_name(&self) -> &str {
        match self.origin {
            Origin::Lines => self.script.name,
            Origin::Arguments => "the arguments",
        }
    }
}

/// The attributes of the table that was asked.
fn schema_of(alloc: Global, key: TextKey, asked: &Asked<'_>) -> Result<Option<Schema>, AllocError> {
    match asked.table.bytes {
        Some(bytes) => schema_at(alloc, key, bytes),
        None => Ok(None),
    }
}

/// The words of the first line of the script that is refused.
fn of_script(alloc: Global, schema: &mut Schema, asked: &Asked<'_>) -> Result<String, AllocError> {
    let Some(script) = asked.script.bytes else {
        return Ok(String::new(alloc));
    };
    match first_refused(alloc, schema, script)? {
        Some(line) => {
            let at = asked.line(alloc, line.number)?;
            wrong_line(alloc, schema, at.as_str(), line.bytes)
        }
        None => Ok(String::new(alloc)),
    }
}

/// The words of a fault of the script, or else of the cuts.
fn of_lines(alloc: Global, key: TextKey, asked: &Asked<'_>) -> Result<String, AllocError> {
    let Some(mut schema) = schema_of(alloc, key, asked)? else {
        return Ok(String::new(alloc));
    };
    let words = of_script(alloc, &mut schema, asked)?;
    if !words.is_empty() {
        return Ok(words);
    }
    wrong_cuts(alloc, &schema, asked.cuts)
}

/// The words of a fault of the cuts.
fn of_cuts(alloc: Global, key: TextKey, asked: &Asked<'_>) -> Result<String, AllocError> {
    match schema_of(alloc, key, asked)? {
        Some(schema) => wrong_cuts(alloc, &schema, asked.cuts),
        None => Ok(String::new(alloc)),
    }
}

/// The words of a field of the table, whose bytes cannot be had.
fn of_lost(alloc: Global, name: &str, rec: u64, field: u64) -> Result<String, AllocError> {
    if rec == 0 {
        return format!(in alloc; "{name}: column {field} of the header\n");
    }
    format!(in alloc; "{name}: record {rec}, field {field}\n")
}

/// The words of a field of the table.
fn of_table(
    alloc: Global,
    key: TextKey,
    asked: &Asked<'_>,
    rec: u64,
    field: u64,
) -> Result<String, AllocError> {
    let name = asked.table.name;
    let Some(bytes) = asked.table.bytes else {
        return of_lost(alloc, name, rec, field);
    };
    let sheet = Sheet {
        name,
        bytes,
        given: asked.given,
    };
    if rec == 0 {
        return bad_header(alloc, sheet, field);
    }
    bad_row(alloc, key, sheet, rec, field)
}

/// The words of too many bytes.
fn of_bytes(alloc: Global, asked: &Asked<'_>) -> Result<String, AllocError> {
    let name = match asked.table.bytes {
        Some(bytes) if bytes.len() > MOST_BYTES => asked.table.name,
        _ => asked.script_name(),
    };
    format!(in alloc; "{name}: more than {MOST_BYTES} bytes, the most that is taken\n")
}

/// The words of too many columns; nothing where there are not.
fn of_columns(alloc: Global, asked: &Asked<'_>) -> Result<String, AllocError> {
    let Some(bytes) = asked.table.bytes else {
        return Ok(String::new(alloc));
    };
    match columns_past(alloc, bytes, MOST_COLUMNS)? {
        Some(found) => {
            format!(in alloc;
                "{} line 1: {found}, at most {MOST_ATTRS}; {FEWER}\n",
                asked.table.name
            )
        }
        None => Ok(String::new(alloc)),
    }
}

/// The words of too many blocks; nothing where there are not.
fn of_blocks(alloc: Global, asked: &Asked<'_>) -> Result<String, AllocError> {
    match asked.script.bytes {
        Some(bytes) if has_more_blocks(bytes, MOST_BLOCKS) => {
            format!(in alloc; "{}: more than {MOST_BLOCKS} blocks\n", asked.script_name())
        }
        _ => Ok(String::new(alloc)),
    }
}

/// The words of more rows than a limit, of more calls or of more texts.
fn of_rows(alloc: Global, asked: &Asked<'_>, limit: u64) -> Result<String, AllocError> {
    let name = asked.table.name;
    if let Some(bytes) = asked.table.bytes {
        if has_more_rows(alloc, bytes, limit)? {
            return format!(in alloc; "{name}: more than {limit} rows\n");
        }
    }
    match asked.script.bytes {
        Some(bytes) if limit == MOST_ROWS && has_more_calls(bytes, limit) => {
            format!(in alloc; "{}: more than {limit} calls\n", asked.script_name())
        }
        _ if limit == MOST_ROWS => {
            format!(in alloc;
                "{name} and {}: more than {limit} different texts\n",
                asked.script_name()
            )
        }
        _ => Ok(String::new(alloc)),
    }
}

/// The words of more of something than a limit that is no number of rows; nothing where it is one.
fn of_limit(
    alloc: Global,
    key: TextKey,
    asked: &Asked<'_>,
    limit: u64,
) -> Result<String, AllocError> {
    match limit {
        MOST_ATTRS => of_columns(alloc, asked),
        MOST_CUTS => of_cuts(alloc, key, asked),
        MOST_BLOCKS => of_blocks(alloc, asked),
        _ => Ok(String::new(alloc)),
    }
}

/// The words of more of something than a limit.
fn of_many(
    alloc: Global,
    key: TextKey,
    asked: &Asked<'_>,
    limit: u64,
) -> Result<String, AllocError> {
    if limit == MOST_BYTES as u64 {
        return of_bytes(alloc, asked);
    }
    let words = of_limit(alloc, key, asked, limit)?;
    if !words.is_empty() {
        return Ok(words);
    }
    of_rows(alloc, asked, limit)
}

/// What a refusal means for what was asked, in words: where, and what is wrong, and what was wanted. One line, or three
/// where a line of a script is shown with a caret under it; nothing where no words can be found.
///
/// The one error is that there is no memory.
pub fn words_of(
    alloc: Global,
    key: TextKey,
    refusal: &Refusal,
    asked: &Asked<'_>,
) -> Result<String, AllocError> {
    match refusal {
        Refusal::BadTable { rec, field } => of_table(alloc, key, asked, *rec, *field),
        Refusal::BadLine { why: Why::Cuts, .. } => of_cuts(alloc, key, asked),
        Refusal::BadLine { .. } | Refusal::UnknownAttribute { .. } => of_lines(alloc, key, asked),
        Refusal::TooMany { limit } => of_many(alloc, key, asked, *limit),
        _ => Ok(String::new(alloc)),
    }
}
