//! From which records of logs the entries of a history came, as `order --where` has it.

use csv::{ByteRecord, Reader, ReaderBuilder};
use std::alloc::{AllocError, Global};
use sw_lang::{write_all, write_number};
use sw_rows::{Refusal, Sink};

/// From which record of which log an entry came.
#[derive(Drop)]
struct Source {
    entry: u64,
    log: String,
    record: u64,
}

/// From where entries came.
#[derive(Drop)]
pub struct Origins {
    sources: Vec<Source>,
}

/// The number of a field.
fn number_at(row: &ByteRecord, place: usize) -> Option<u64> {
    let text = std::str::from_utf8(row.get(place)?).ok()?;
    text.parse::<u64>().ok()
}

/// What a record says; None where it is none of an entry, a log and a record, as the header is none.
fn source_of(alloc: Global, row: &ByteRecord) -> Result<Option<Source>, AllocError> {
    let (Some(entry), Some(log), Some(record)) = (number_at(row, 0), row.get(1), number_at(row, 2))
    else {
        return Ok(None);
    };
    Ok(Some(Source {
        entry,
        log: String::from_utf8_lossy(alloc, log)?,
        record,
    }))
}

impl Origins {
    /// Those of no entries.
    pub fn none(alloc: Global) -> Origins {
        Origins {
            sources: Vec::new(alloc),
        }
    }

    /// Those that a text of comma-separated values has. Records of other forms are passed by.
    pub fn read(alloc: Global, bytes: &[u8]) -> Result<Origins, AllocError> {
        let mut origins = Origins::none(alloc);
        let mut rdr = ReaderBuilder::new()
            .has_headers(false)
            .flexible(true)
            .from_reader(alloc, bytes);
        origins.add_all(alloc, &mut rdr, &mut ByteRecord::new(alloc))?;
        Ok(origins)
    }

    /// Adds those that a reader has left.
    fn add_all(
        &mut self,
        alloc: Global,
        rdr: &mut Reader<&[u8]>,
        row: &mut ByteRecord,
    ) -> Result<(), AllocError> {
        for _ in 0..u64::MAX {
            match rdr.read_byte_record(row) {
                Ok(true) => {
                    if let Some(source) = source_of(alloc, row)? {
                        self.sources.push(source)?;
                    }
                }
                Ok(false) => return Ok(()),
                Err(_) => return Err(AllocError),
            }
        }
        Ok(())
    }

    /// From where an entry came, if it is told.
    fn of(&self, entry: u64) -> Option<&Source> {
        for source in &self.sources {
            if source.entry == entry {
                return Some(source);
            }
        }
        None
    }

    /// Writes an explanation, and below each line of an entry from where it came.
    pub fn write<W: Sink>(&self, explanation: &str, out: &mut W) -> Result<(), Refusal> {
        for line in explanation.lines() {
            write_all(out, line.as_bytes())?;
            write_all(out, b"\n")?;
            if let Some(source) = entry_of(line).and_then(|entry| self.of(entry)) {
                write_source(source, line.starts_with(' '), out)?;
            }
        }
        Ok(())
    }
}

/// The entry of whose call a line tells.
fn entry_of(line: &str) -> Option<u64> {
    let (number, _) = line.trim_start().strip_prefix("entry ")?.split_once(',')?;
    number.parse::<u64>().ok()
}

/// Writes from where an entry came, below a line of its own or one of a list.
fn write_source<W: Sink>(source: &Source, is_listed: bool, out: &mut W) -> Result<(), Refusal> {
    if is_listed {
        write_all(out, b"  ")?;
    }
    write_all(out, b"  from ")?;
    write_all(out, source.log.as_bytes())?;
    write_all(out, b" record ")?;
    write_number(source.record, out)?;
    write_all(out, b"\n")
}
