//! Where the records of a table stand in its file.

use csv::{ByteRecord, Reader, ReaderBuilder};
use std::alloc::{AllocError, Global};

/// How many fields of a record are told apart. One of more is not read, since it may be of any size.
pub(crate) const MOST_FIELDS: usize = 4096;

/// The bytes of a byte order mark.
const MARK: &[u8] = &[0xEF, 0xBB, 0xBF];

/// The bytes without a byte order mark at their start.
pub(crate) fn unmarked(bytes: &[u8]) -> &[u8] {
    match bytes.strip_prefix(MARK) {
        Some(rest) => rest,
        None => bytes,
    }
}

/// The records of a file whose table has another header than its own, as they stand there.
struct Own<'a> {
    reader: Reader<&'a [u8]>,
    row: ByteRecord,
}

impl Own<'_> {
    /// Takes the next record, if there is one.
    fn next(&mut self) -> Result<(), AllocError> {
        match self.reader.read_byte_record(&mut self.row) {
            Ok(_) => Ok(()),
            Err(_) => Err(AllocError),
        }
    }
}

// By hand, as with `Records`.
impl Drop for Own<'_> {
    fn drop(self) {
        let Self {
            reader: _reader,
            row: _row,
        } = self;
    }
}

/// A reader of the records of some bytes.
fn reader_of(alloc: Global, bytes: &[u8]) -> Reader<&[u8]> {
    ReaderBuilder::new()
        .has_headers(false)
        .flexible(true)
        .from_reader(alloc, bytes)
}

/// A table's bytes, and the records in them, which are taken one after another.
pub(crate) struct Records<'a> {
    /// All bytes.
    bytes: &'a [u8],
    /// The bytes from the place up to which line ends were counted.
    left: &'a [u8],
    counted: usize,
    /// The byte before that place, 0 where there is none, and the line there.
    last: u8,
    line: u64,
    reader: Reader<&'a [u8]>,
    /// The record that was taken last; nothing where it is a long one.
    pub(crate) row: ByteRecord,
    /// Where a record begins that has more fields than are told apart. None is taken behind it.
    long: Option<usize>,
    /// The same records with all fields that they have in their file, where some are passed by.
    own: Option<Own<'a>>,
}

impl<'a> Records<'a> {
    /// The records of a table's bytes.
    pub(crate) fn new(alloc: Global, bytes: &'a [u8]) -> Records<'a> {
        Records::of(alloc, bytes, None)
    }

    /// The records of a table's bytes under a header that is given, and of those of its file, where they can be had.
    pub(crate) fn under(alloc: Global, bytes: &'a [u8], own: Option<&'a [u8]>) -> Records<'a> {
        let own = match own {
            Some(own) => Some(Own {
                reader: reader_of(alloc, unmarked(own)),
                row: ByteRecord::new(alloc),
            }),
            None => None,
        };
        Records::of(alloc, bytes, own)
    }

    fn of(alloc: Global, bytes: &'a [u8], own: Option<Own<'a>>) -> Records<'a> {
        let bytes = unmarked(bytes);
        Records {
            bytes,
            left: bytes,
            counted: 0,
            last: 0,
            line: 1,
            reader: reader_of(alloc, bytes),
            row: ByteRecord::new(alloc),
            long: None,
            own,
        }
    }

    /// Whether the record that was taken last has more fields than are told apart. None is taken behind it.
    pub(crate) fn is_long(&self) -> bool {
        self.long.is_some()
    }

    /// How many fields the record has that was taken last, in its file where that can be had, as far as they are told apart.
    pub(crate) fn many(&self) -> usize {
        match &self.own {
            _ if self.is_long() => MOST_FIELDS + 1,
            Some(own) => own.row.len(),
            None => self.row.len(),
        }
    }

    /// Where the next record begins, if it has more fields than are told apart.
    fn long_next(&self) -> Option<usize> {
        let at = self.reader.position().byte() as usize;
        let (_, rest) = self.bytes.split_at_checked(at)?;
        let blank = rest.iter().take_while(|b| is_end(**b)).count();
        let (_, record) = rest.split_at_checked(blank)?;
        if has_more_fields(record, MOST_FIELDS) {
            Some(at)
        } else {
            None
        }
    }

    /// Takes the next record, and tells whether there was one.
    pub(crate) fn next(&mut self) -> Result<bool, AllocError> {
        if self.is_long() {
            return Ok(false);
        }
        self.long = self.long_next();
        if self.is_long() {
            self.row.clear();
            return Ok(true);
        }
        if let Some(own) = &mut self.own {
            own.next()?;
        }
        // Over memory, and with records of any length, only memory can fail.
        match self.reader.read_byte_record(&mut self.row) {
            Ok(found) => Ok(found),
            Err(_) => Err(AllocError),
        }
    }

    /// Counts the line ends of so many bytes more.
    fn count(&mut self, many: usize) {
        let Some((front, rest)) = self.left.split_at_checked(many) else {
            return;
        };
        self.line = self.line.saturating_add(ends_in(front, self.last));
        if let Some(byte) = front.last() {
            self.last = *byte;
        }
        self.left = rest;
        self.counted = self.counted.saturating_add(many);
    }

    /// Counts the line ends up to the first byte of the record that was taken last.
    fn count_to_record(&mut self) {
        let begin = match (self.long, self.row.position()) {
            (Some(at), _) => at,
            (None, Some(position)) => position.byte() as usize,
            (None, None) => 0,
        };
        self.count(begin.saturating_sub(self.counted));
        let blank = self.left.iter().take_while(|b| is_end(**b)).count();
        self.count(blank);
    }

    /// The line of the file, from 1, on which a field of the record begins that was taken last. Fields count from 0; behind
    /// the last one it is the line on which the record ends.
    pub(crate) fn line_of(&mut self, field: usize) -> u64 {
        self.count_to_record();
        let within = field_start(self.left, field);
        match self.left.split_at_checked(within) {
            Some((front, _)) => self.line.saturating_add(ends_in(front, self.last)),
            None => self.line,
        }
    }
}

// By hand: a drop of what is derived is written out at each way out of a function.
impl Drop for Records<'_> {
    fn drop(self) {
        let Self {
            bytes: _,
            left: _,
            counted: _,
            last: _,
            line: _,
            reader: _reader,
            row: _row,
            long: _,
            own: _own,
        } = self;
    }
}

fn is_end(byte: u8) -> bool {
    byte == b'\n' || byte == b'\r'
}

/// How many line ends there are in bytes that stand behind another one: LF, CR, and CR LF, which is one.
fn ends_in(bytes: &[u8], before: u8) -> u64 {
    let mut ends = 0u64;
    let mut last = before;
    for byte in bytes {
        if is_end(*byte) && !(*byte == b'\n' && last == b'\r') {
            ends = ends.saturating_add(1);
        }
        last = *byte;
    }
    ends
}

/// Where the reading of a record stands.
#[derive(Clone, Copy, PartialEq, Eq)]
enum Within {
    /// At the first byte of a field.
    Start,
    /// In a field without quotes.
    Plain,
    /// Between quotes.
    Quoted,
    /// Right behind a quote that may close them.
    Closed,
}

/// Where the reading stands behind one byte more; what ends a line between quotes ends no record.
fn behind(byte: u8, within: Within, delimiter: u8) -> Within {
    match (byte, within) {
        (b'"', Within::Start | Within::Closed) => Within::Quoted,
        (b'"', Within::Quoted) => Within::Closed,
        (_, Within::Quoted) => Within::Quoted,
        _ if byte == delimiter || is_end(byte) => Within::Start,
        _ => Within::Plain,
    }
}

/// The line, from 1, in which a quote opens that nothing closes, if there is one, where this byte divides the fields.
pub fn open_quote(bytes: &[u8], delimiter: u8) -> Option<u64> {
    let mut within = Within::Start;
    let mut line = 1u64;
    let mut opened = 1u64;
    let mut last = 0u8;
    for byte in unmarked(bytes) {
        if within == Within::Start {
            opened = line;
        }
        within = behind(*byte, within, delimiter);
        if is_end(*byte) && !(*byte == b'\n' && last == b'\r') {
            line = line.saturating_add(1);
        }
        last = *byte;
    }
    if within == Within::Quoted {
        Some(opened)
    } else {
        None
    }
}

/// Where the field of a number, from 0, begins in bytes that begin with its record; behind the last field where the record
/// ends.
fn field_start(record: &[u8], field: usize) -> usize {
    let mut within = Within::Start;
    let mut fields = 0usize;
    let mut at = 0usize;
    for byte in record {
        if within == Within::Start && fields == field {
            return at;
        }
        if within != Within::Quoted && is_end(*byte) {
            return at;
        }
        within = behind(*byte, within, b',');
        if within == Within::Start {
            fields = fields.saturating_add(1);
        }
        at = at.saturating_add(1);
    }
    at
}

/// Whether the record at the front has more fields than so many.
fn has_more_fields(record: &[u8], most: usize) -> bool {
    let mut within = Within::Start;
    let mut fields = 1usize;
    for byte in record {
        if within != Within::Quoted && is_end(*byte) {
            return false;
        }
        within = behind(*byte, within, b',');
        if within == Within::Start {
            fields = fields.saturating_add(1);
        }
        if fields > most {
            return true;
        }
    }
    false
}
