//! A source that gives little, and fails.

use std::io;
use std::io::Read;

/// A reader that gives at most so many bytes at a time, and fails at one of its reads, counted from 1.
#[derive(Drop)]
pub(crate) struct Faltering<'a> {
    left: &'a [u8],
    most: usize,
    reads: u64,
    fails_at: u64,
}

impl<'a> Faltering<'a> {
    pub(crate) fn new(left: &'a [u8], most: usize, fails_at: u64) -> Self {
        Faltering {
            left,
            most,
            reads: 0,
            fails_at,
        }
    }
}

impl<'a> Read for Faltering<'a> {
    fn read(&mut self, buf: &mut [u8]) -> io::Result<usize> {
        self.reads = self.reads.saturating_add(1);
        if self.reads == self.fails_at {
            return Err(io::Error::from(io::ErrorKind::Other));
        }
        let len = buf.len().min(self.most);
        self.left.read(&mut buf[..len])
    }
}
