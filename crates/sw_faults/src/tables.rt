//! Faults of a table, in words.

use crate::headers::{MOST_COLUMNS, has_no_kind, schema_of};
use crate::records::{MOST_FIELDS, Records, open_quote};
use crate::words::Given;
use crate::{cells, headers};
use csv::ByteRecord;
use std::alloc::{AllocError, Global};
use sw_lang::kind_name;
use sw_rows::{Kind, MOST_ROWS, Schema, TextKey};

/// How many bad cells are listed at most.
const MOST_LISTED: u64 = 1000;

/// A table's name and its bytes, under the header that was given, if one was.
#[derive(Clone, Copy)]
pub(crate) struct Sheet<'a> {
    pub(crate) name: &'a str,
    pub(crate) bytes: &'a [u8],
    pub(crate) given: Option<Given<'a>>,
}

impl<'a> Sheet<'a> {
    /// Its records.
    fn records(self, alloc: Global) -> Records<'a> {
        let own = match self.given {
            Some(given) => given.bytes,
            None => None,
        };
        Records::under(alloc, self.bytes, own)
    }

    /// The bytes of its file, as far as they can be had.
    fn file(self) -> &'a [u8] {
        match self.given {
            Some(given) => given.bytes.unwrap_or(self.bytes),
            None => self.bytes,
        }
    }

    /// What else is wrong with its file, by which its records may be other ones than were meant: a line, or nothing.
    fn more_wrong(self, alloc: Global) -> Result<String, AllocError> {
        let name = self.name;
        if let Some(why) = why_wide(self.file()) {
            return format!(in alloc; "{name}: {why}\n");
        }
        match open_quote(self.file(), b',') {
            Some(line) => {
                format!(in alloc; "{name} line {line}: a quote opens there that nothing closes\n")
            }
            None => Ok(String::new(alloc)),
        }
    }
}

/// What is told of a text in UTF-16.
const WIDE: &str =
    "the file begins as one in UTF-16 does, of which iconv -f UTF-16 -t UTF-8 makes UTF-8";

/// What is told of bytes that begin as a text in UTF-16 does; nothing of others.
pub fn why_wide(bytes: &[u8]) -> Option<&'static str> {
    if bytes.starts_with(b"\xff\xfe") || bytes.starts_with(b"\xfe\xff") {
        Some(WIDE)
    } else {
        None
    }
}

/// Some lines, and others behind them.
fn with_more(mut lines: String, more: String) -> Result<String, AllocError> {
    lines.push_str(more.as_str())?;
    Ok(lines)
}

/// A field of a record, empty where there is none.
fn field_of(row: &ByteRecord, field: usize) -> &[u8] {
    match row.get(field) {
        Some(field) => field,
        None => &[],
    }
}

/// How many of something, in words.
fn in_words(alloc: Global, many: usize, what: &str) -> Result<String, AllocError> {
    if many > MOST_FIELDS {
        return format!(in alloc; "more than {MOST_FIELDS} {what}s");
    }
    if many == 1 {
        return format!(in alloc; "1 {what}");
    }
    format!(in alloc; "{many} {what}s")
}

/// What is known of a table once its header was read.
struct Head<'a> {
    alloc: Global,
    name: &'a str,
    given: Option<Given<'a>>,
    schema: Schema,
    /// For each attribute whether its kind is left out, which makes it one of whole numbers.
    bare: Vec<bool>,
}

// By hand, as with `Records`.
impl Drop for Head<'_> {
    fn drop(self) {
        let Self {
            alloc: _,
            name: _,
            given: _,
            schema: _schema,
            bare: _bare,
        } = self;
    }
}

/// For each field of a header whether its kind is left out.
fn bare_fields(alloc: Global, header: &ByteRecord) -> Result<Vec<bool>, AllocError> {
    let mut bare = Vec::new(alloc);
    for field in 0..header.len() {
        bare.push(has_no_kind(field_of(header, field)))?;
    }
    Ok(bare)
}

impl<'a> Head<'a> {
    /// Takes the header of a table, the first of its records; none where it has none.
    fn take(
        alloc: Global,
        key: TextKey,
        sheet: Sheet<'a>,
        records: &mut Records<'_>,
    ) -> Result<Option<Head<'a>>, AllocError> {
        if !records.next()? {
            return Ok(None);
        }
        let bare = bare_fields(alloc, &records.row)?;
        match schema_of(alloc, key, &records.row)? {
            Ok(schema) => Ok(Some(Head {
                alloc,
                name: sheet.name,
                given: sheet.given,
                schema,
                bare,
            })),
            Err(_) => Ok(None),
        }
    }

    /// An attribute as a header has it.
    fn column(&self, attr: usize) -> Result<String, AllocError> {
        if attr >= self.schema.len() {
            return Ok(String::new(self.alloc));
        }
        let kind = kind_name(self.schema.kind(attr));
        format!(in self.alloc; "{}:{kind}", self.schema.name(attr))
    }

    /// Whether the kind of an attribute is left out.
    fn is_bare(&self, attr: usize) -> bool {
        self.bare.get(attr) == Some(&true)
    }

    /// How many fields a record has to have, as far as its own can be had.
    fn wanted(&self) -> usize {
        match self.given {
            Some(given) if given.bytes.is_some() => given.wide(),
            _ => self.schema.len(),
        }
    }

    /// What is wrong with a record of a line that has another number of fields than the header that was given.
    fn wrong_given(&self, given: Given<'_>, line: u64, found: usize) -> Result<String, AllocError> {
        let name = self.name;
        let wanted = given.wide();
        if given.bytes.is_none() {
            return format!(in self.alloc;
                "{name} line {line}: another number of fields than --header has, {wanted}\n"
            );
        }
        let has = in_words(self.alloc, found, "field")?;
        match given.column(found) {
            Some(missing) => {
                format!(in self.alloc;
                    "{name} line {line}: {has}, --header has {wanted}: {missing} is missing\n"
                )
            }
            None => format!(in self.alloc; "{name} line {line}: {has}, --header has {wanted}\n"),
        }
    }

    /// What is wrong with a record that has another number of fields than the header.
    fn wrong_count(&self, records: &mut Records<'_>) -> Result<String, AllocError> {
        let name = self.name;
        let found = records.many();
        let line = records.line_of(0);
        if let Some(given) = self.given {
            return self.wrong_given(given, line, found);
        }
        let has = in_words(self.alloc, found, "field")?;
        let wanted = self.schema.len();
        if found < wanted {
            let missing = self.column(found)?;
            return format!(in self.alloc;
                "{name} line {line}: {has}, the header has {wanted}: {missing} is missing\n"
            );
        }
        format!(in self.alloc; "{name} line {line}: {has}, the header has {wanted}\n")
    }

    /// What is wrong with the record that was taken last at a field, from 0.
    fn wrong_at(&self, records: &mut Records<'_>, attr: usize) -> Result<String, AllocError> {
        if attr >= self.schema.len() {
            return Ok(String::new(self.alloc));
        }
        let name = self.name;
        let line = records.line_of(attr);
        let column = self.column(attr)?;
        let kind = self.schema.kind(attr);
        let wrong = cells::wrong(self.alloc, kind, field_of(&records.row, attr))?;
        let hint = if kind == Kind::Int && self.is_bare(attr) {
            cells::BARE
        } else {
            ""
        };
        format!(in self.alloc; "{name} line {line}, {column}: {wrong}{hint}\n")
    }

    /// What is wrong with the row that was taken last, at a field from 1.
    fn wrong_row(&self, records: &mut Records<'_>, field: u64) -> Result<String, AllocError> {
        if records.many() != self.wanted() {
            return self.wrong_count(records);
        }
        self.wrong_at(
            records,
            field.saturating_sub(1).min(MOST_COLUMNS as u64) as usize,
        )
    }

    /// What is wrong with the row of a number at a field, both from 1; nothing where there is no such row.
    fn wrong_of(
        &self,
        records: &mut Records<'_>,
        rec: u64,
        field: u64,
    ) -> Result<String, AllocError> {
        if find(records, rec)? {
            self.wrong_row(records, field)
        } else {
            Ok(String::new(self.alloc))
        }
    }

    /// The faults of all rows behind the header, as they are listed, behind what else is wrong.
    fn all_wrong(&self, records: &mut Records<'_>, more: String) -> Result<String, AllocError> {
        let mut listed = Listed {
            text: more,
            many: 0,
        };
        listed.add_rows(self, records)?;
        listed.ended(self.alloc, self.name, !records.is_long())
    }
}

/// What is wrong with the header that was taken last, at a field, from 0.
fn wrong_header(
    alloc: Global,
    name: &str,
    records: &mut Records<'_>,
    field: usize,
) -> Result<String, AllocError> {
    let line = records.line_of(field);
    let wrong = headers::wrong(alloc, field_of(&records.row, field))?;
    let number = field.saturating_add(1);
    format!(in alloc; "{name} line {line}, column {number}: {wrong}\n")
}

/// The attributes of a table's header.
pub(crate) fn schema_at(
    alloc: Global,
    key: TextKey,
    bytes: &[u8],
) -> Result<Option<Schema>, AllocError> {
    let mut records = Records::new(alloc, bytes);
    if !records.next()? {
        return Ok(None);
    }
    Ok(schema_of(alloc, key, &records.row)?.ok())
}

/// Takes records until one of a number, and tells whether there is one.
fn find(records: &mut Records<'_>, rec: u64) -> Result<bool, AllocError> {
    for _ in 0..rec.min(MOST_ROWS) {
        if !records.next()? {
            return Ok(false);
        }
    }
    Ok(true)
}

/// The words of a header that was refused at a field, from 1.
pub(crate) fn bad_header(
    alloc: Global,
    sheet: Sheet<'_>,
    field: u64,
) -> Result<String, AllocError> {
    let name = sheet.name;
    let mut records = Records::new(alloc, sheet.bytes);
    if !records.next()? {
        return format!(in alloc;
            "{name}: empty, wanted a header: names with kinds, as a:int,b:fix2,c:text\n"
        );
    }
    if let Some(why) = why_wide(sheet.bytes) {
        return format!(in alloc; "{name}: {why}\n");
    }
    let field = field.saturating_sub(1).min(MOST_COLUMNS as u64) as usize;
    wrong_header(alloc, name, &mut records, field)
}

/// The words of a row that was refused at a field, both from 1.
pub(crate) fn bad_row(
    alloc: Global,
    key: TextKey,
    sheet: Sheet<'_>,
    rec: u64,
    field: u64,
) -> Result<String, AllocError> {
    let mut records = sheet.records(alloc);
    match Head::take(alloc, key, sheet, &mut records)? {
        Some(head) => {
            let wrong = head.wrong_of(&mut records, rec, field)?;
            with_more(wrong, sheet.more_wrong(alloc)?)
        }
        None => Ok(String::new(alloc)),
    }
}

/// How many columns a table's header has, in words, where they are more than a number.
pub(crate) fn columns_past(
    alloc: Global,
    bytes: &[u8],
    most: usize,
) -> Result<Option<String>, AllocError> {
    let mut records = Records::new(alloc, bytes);
    if !records.next()? || records.many() <= most {
        return Ok(None);
    }
    Ok(Some(in_words(alloc, records.many(), "column")?))
}

/// Whether a table has more rows than a limit.
pub(crate) fn has_more_rows(alloc: Global, bytes: &[u8], limit: u64) -> Result<bool, AllocError> {
    let mut records = Records::new(alloc, bytes);
    for _ in 0..limit.saturating_add(2) {
        if !records.next()? {
            return Ok(false);
        }
    }
    Ok(true)
}

/// Bad cells that are listed, and how many there are.
#[derive(Drop)]
struct Listed {
    text: String,
    many: u64,
}

impl Listed {
    /// Whether no more are listed.
    fn is_full(&self) -> bool {
        self.many >= MOST_LISTED
    }

    /// One more, which is listed where there is room.
    fn add(&mut self, line: &str) -> Result<(), AllocError> {
        self.many = self.many.saturating_add(1);
        self.text.push_str(line)
    }

    /// Adds a row of another number of fields than the header's.
    fn add_count(&mut self, head: &Head<'_>, records: &mut Records<'_>) -> Result<(), AllocError> {
        if self.is_full() {
            return self.add("");
        }
        let line = head.wrong_count(records)?;
        self.add(line.as_str())
    }

    /// Adds a bad cell.
    fn add_cell(
        &mut self,
        head: &Head<'_>,
        records: &mut Records<'_>,
        attr: usize,
    ) -> Result<(), AllocError> {
        if self.is_full() {
            return self.add("");
        }
        let line = head.wrong_at(records, attr)?;
        self.add(line.as_str())
    }

    /// Adds the faults of the row that was taken last: its number of fields, or each bad cell.
    fn add_row(&mut self, head: &Head<'_>, records: &mut Records<'_>) -> Result<(), AllocError> {
        if records.many() != head.wanted() {
            return self.add_count(head, records);
        }
        for attr in 0..head.schema.len() {
            if !cells::is_cell(head.schema.kind(attr), field_of(&records.row, attr)) {
                self.add_cell(head, records, attr)?;
            }
        }
        Ok(())
    }

    /// Adds the faults of all rows that are left.
    fn add_rows(&mut self, head: &Head<'_>, records: &mut Records<'_>) -> Result<(), AllocError> {
        for _ in 0..u64::MAX {
            if !records.next()? {
                break;
            }
            self.add_row(head, records)?;
        }
        Ok(())
    }

    /// What is listed, and then how many there are; `is_whole` tells whether all rows were looked at.
    fn ended(self, alloc: Global, name: &str, is_whole: bool) -> Result<String, AllocError> {
        let Listed { mut text, many } = self;
        let faults = if many == 1 { "fault" } else { "faults" };
        let some = if many > MOST_LISTED {
            ", of which the first 1000 are listed"
        } else {
            ""
        };
        let far = if is_whole {
            ""
        } else {
            ", as far as it was read"
        };
        let end = format!(in alloc; "{name}: {many} {faults}{some}{far}\n")?;
        text.push_str(end.as_str())?;
        Ok(text)
    }
}

/// All faults of a table's rows, under the header that was given, if one was: each bad cell and each row of another number
/// of fields, a line each, up to a thousand, and then how many there are. Nothing where the header is none. A row of more than 4,096 fields is the last that is
/// looked at.
///
/// The one error is that there is no memory.
pub fn all_faults(
    alloc: Global,
    key: TextKey,
    name: &str,
    bytes: &[u8],
    given: Option<Given<'_>>,
) -> Result<String, AllocError> {
    let sheet = Sheet { name, bytes, given };
    let mut records = sheet.records(alloc);
    match Head::take(alloc, key, sheet, &mut records)? {
        Some(head) => head.all_wrong(&mut records, sheet.more_wrong(alloc)?),
        None => Ok(String::new(alloc)),
    }
}
