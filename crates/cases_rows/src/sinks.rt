//! A sink that takes little, and fails; and texts that go to it.

use crate::told::{held, text_of};
use std::alloc::Global;
use std::io;
use std::io::Write;
use sw_lang::{write_all, write_number};
use sw_rows::{Counted, Refusal, Sink};
use test_words::{cell, number, split};

/// A writer that takes at most so many bytes at a time, and fails at one of its writes, counted from 1.
#[derive(Drop)]
pub(crate) struct Slow {
    pub bytes: Vec<u8>,
    most: usize,
    writes: u64,
    fails_at: u64,
}

impl Slow {
    pub(crate) fn counted(alloc: Global, most: usize, fails_at: u64) -> Counted<Slow> {
        Counted::new(Slow {
            bytes: Vec::new(alloc),
            most,
            writes: 0,
            fails_at,
        })
    }
}

impl Write for Slow {
    fn write(&mut self, buf: &[u8]) -> io::Result<usize> {
        let count = buf.len().min(self.most);
        self.writes = self.writes.saturating_add(1);
        if self.writes == self.fails_at || self.bytes.extend_from_slice(&buf[..count]).is_err() {
            return Err(io::Error::from(io::ErrorKind::Other));
        }
        Ok(count)
    }

    fn flush(&mut self) -> io::Result<()> {
        Ok(())
    }
}

/// What one write of a text answers from a sink that takes so many bytes, its failures, and what it took.
pub(crate) fn one_write(alloc: Global, most: usize, text: &[u8]) -> Result<String, Refusal> {
    let mut out = Slow::counted(alloc, most, 0);
    let answer = match out.write_some(text) {
        Ok(count) => Some(count),
        Err(_) => None,
    };
    let took = text_of(alloc, out.inner.bytes.as_slice())?;
    held(format!(in alloc; "{answer:?}, {} failures: {took}", out.failures()))
}

/// A text and two numbers after it, as a sink takes them that takes two bytes at a time.
pub(crate) fn written(alloc: Global, numbers: &str, text: &[u8]) -> Result<String, Refusal> {
    let (first, second) = split(numbers, ':');
    let mut out = Slow::counted(alloc, 2, 0);
    write_all(&mut out, text)?;
    write_number(number(first), &mut out)?;
    write_number(cell(second), &mut out)?;
    text_of(alloc, out.inner.bytes.as_slice())
}
