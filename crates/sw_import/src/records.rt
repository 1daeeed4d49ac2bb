//! The records of comma-separated values.

ghost use Rattle.std.specs.Prelude.{◌≡◌, IfOk};
ghost use Rattle.sw_import.specs.Records.{IsOpen, TakesRecord, records_left, records_of};

use csv::{ByteRecord, Reader, ReaderBuilder};
use std::alloc::{AllocError, Global};

/// The records of a text: a reader of those that are left, and the one that was read last.
pub(crate) struct Records<'t> {
    rdr: Reader<&'t [u8]>,
    pub(crate) row: ByteRecord,
}

// By hand: the drop of a derived one is written out at each way out of a function.
impl Drop for Records<'_> {
    fn drop(self) {
        let Self {
            rdr: _rdr,
            row: _row,
        } = self;
    }
}

impl<'t> Records<'t> {
    /// The records of a text whose fields this byte divides, of which none was read.
    pub(crate) fn of(alloc: Global, delimiter: u8, text: &'t [u8]) -> Records<'t>
        ensures plain { IsOpen result.rdr }
        ensures all { records_left result.rdr ≡ records_of delimiter text.now }
    {
        let rdr = ReaderBuilder::new()
            .has_headers(false)
            .flexible(true)
            .delimiter(delimiter)
            .from_reader(alloc, text);
        let row = ByteRecord::new(alloc);
        Records { rdr, row }
    }

    /// Reads the next record, and whether there was one.
    pub(crate) fn next(&mut self) -> Result<bool, AllocError>
        requires { IsOpen self.old.rdr }
        ensures plain { IfOk result (λ _. IsOpen self.new.rdr) }
        ensures row { IfOk result (TakesRecord self.old.rdr self.new.rdr self.new.row) }
    {
        // Over memory, and with records of any length, only memory can fail.
        match self.rdr.read_byte_record(&mut self.row) {
            Ok(found) => Ok(found),
            Err(_) => Err(AllocError),
        }
    }

    /// The record that was read last.
    pub(crate) fn into_row(self) -> ByteRecord
        ensures { result ≡ self.entry.row }
    {
        let Records { rdr: _rdr, row } = self;
        row
    }
}

/// How many lines end where a reader was about to read a record: the end of the record before, where it is CR and LF of
/// which the CR was read, and empty lines.
fn lines_passed(text: &[u8], at: u64) -> u64 {
    let Ok(at) = usize::try_from(at) else {
        return 0;
    };
    let mut many = 0u64;
    for byte in text.get(at..).unwrap_or_default() {
        match *byte {
            b'\n' => many = many.saturating_add(1),
            b'\r' => {}
            _ => return many,
        }
    }
    many
}

/// The line of a text, from 1, in which a record begins that was read from it.
pub(crate) fn line_of(text: &[u8], row: &ByteRecord) -> u64 {
    match row.position() {
        Some(position) => position
            .line
            .saturating_add(lines_passed(text, position.byte)),
        None => 0,
    }
}
