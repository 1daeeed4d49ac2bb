//! Standard output, of which it is told whether its reader is gone.

use std::io;
use std::io::{ErrorKind, Write};
use std::sync::atomic::{AtomicBool, Ordering};

/// Whoever reads standard output, as far as writing tells.
#[derive(Drop)]
pub struct Reader {
    is_gone: AtomicBool,
}

impl Reader {
    /// Nothing was written yet.
    pub fn new() -> Reader {
        Reader {
            is_gone: AtomicBool::new(false),
        }
    }

    /// Whether bytes were refused since there is no reader any more, as of a pipe that was closed.
    pub fn is_gone(&self) -> bool {
        self.is_gone.load(Ordering::SeqCst)
    }
}

/// Standard output before its reader.
#[derive(Drop)]
pub struct Outflow<'r, W: Write + Drop> {
    writer: W,
    reader: &'r Reader,
}

impl<'r, W: Write + Drop> Outflow<'r, W> {
    /// What goes to this writer is for that reader.
    pub fn new(writer: W, reader: &'r Reader) -> Outflow<'r, W> {
        Outflow { writer, reader }
    }
}

impl<W: Write + Drop> Write for Outflow<'_, W> {
    fn write(&mut self, buf: &[u8]) -> io::Result<usize> {
        match self.writer.write(buf) {
            Err(error) if error.kind() == ErrorKind::BrokenPipe => {
                self.reader.is_gone.store(true, Ordering::SeqCst);
                Err(error)
            }
            written => written,
        }
    }

    fn flush(&mut self) -> io::Result<()> {
        self.writer.flush()
    }
}
