//! Records go out as comma-separated values, to memory.

ghost use Rattle.std.specs.Prelude.{[], ◌≡◌, ◌++◌, IfOk, OnOk};
ghost use Rattle.csv.specs.Records.{fields_of};
ghost use Rattle.sw_import.specs.Pages.{record_text};

use csv::{ByteRecord, Writer};
use std::alloc::{AllocError, Global};
use std::marker::Model;

/// Comma-separated values that are being written.
pub(crate) struct Pages {
    alloc: Global,
    writer: Writer<Vec<u8>>,
}

// By hand: the drop of a derived one is written out at each way out of a function.
impl Drop for Pages {
    fn drop(self) {
        let Self {
            alloc: _,
            writer: _writer,
        } = self;
    }
}

impl Model for Pages {
    ghost use Rattle.std.specs.Prelude.{List, ℕ};
    ghost use Rattle.sw_import.specs.Pages.{IsBetween, text_in};

    ghost Value = { List ℕ };

    ghost view = { λ p. text_in p.writer };

    ghost invariant = { λ p. IsBetween p.writer };
}

impl Pages {
    /// Nothing yet.
    pub(crate) fn new(alloc: Global) -> Pages
        ensures { result ≡ [] }
    {
        Pages {
            alloc,
            writer: Writer::from_writer(Vec::new(alloc)),
        }
    }

    /// Adds a record. Over memory only memory can fail, and then nothing stands.
    pub(crate) fn add(&mut self, row: &ByteRecord) -> Result<(), AllocError>
        ensures { OnOk result (self.new ≡ self.old ++ record_text (fields_of row.now)) }
    {
        match self.writer.write_byte_record(row) {
            Ok(()) => Ok(()),
            Err(_) => {
                self.writer = Writer::from_writer(Vec::new(self.alloc));
                Err(AllocError)
            }
        }
    }

    /// The bytes of all records.
    pub(crate) fn into_bytes(self) -> Result<Vec<u8>, AllocError>
        ensures { IfOk result (λ bytes. bytes.items ≡ self) }
    {
        let Pages { alloc: _, writer } = self;
        match writer.into_inner() {
            Ok(bytes) => Ok(bytes),
            Err(_) => Err(AllocError),
        }
    }
}
