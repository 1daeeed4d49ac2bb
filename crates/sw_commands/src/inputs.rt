//! Where the table and the script of a run come from.

ghost use Rattle.std.specs.Prelude.{◌≡◌, ◌↔◌, false, true, IfErr, IsOkUnless, OnErr, OnOk};
ghost use Rattle.std.specs.Io.{ReadsAtMost};
ghost use Rattle.std.specs.Io.KnownBytes.{ReadConsumes};
ghost use Rattle.std.specs.IoError.{error_kind};
ghost use Rattle.sw_rows.specs.Gives.{Raised};

use std::alloc::Global;
use std::io;
use std::io::{ErrorKind, Read};
use std::rt::Files;
use sw_files::{FileId, open_input};
use sw_headers::{Headed, Header};
use sw_rows::{Refusal, Source};

/// The name by which the command line means standard input.
const STANDARD: &str = "-";

/// Where the system tells what standard input is.
const STANDARD_PATH: &str = "/proc/self/fd/0";

/// A file, or standard input, where it goes by the name `-`.
#[derive(Clone, Copy, PartialEq, Eq)]
pub struct Place<'a> {
    name: &'a str,
}

impl<'a> Place<'a> {
    /// The place of a name.
    pub fn new(name: &'a str) -> Place<'a> {
        Place { name }
    }

    /// The name.
    pub fn name(self) -> &'a str {
        self.name
    }

    /// Whether it is standard input.
    pub fn is_standard(self) -> bool {
        self.name == STANDARD
    }

    /// A path that leads to it.
    pub fn path(self) -> &'a str {
        if self.is_standard() {
            STANDARD_PATH
        } else {
            self.name
        }
    }
}

/// Where the calls of a run come from.
#[derive(Clone, Copy)]
pub enum Script<'a> {
    /// A script, in a file or on standard input.
    At(Place<'a>),
    /// The lines of the command line: each call, and a line feed behind it.
    Given(&'a [u8]),
}

impl<'a> Script<'a> {
    /// The place of the script, if it is at one.
    pub fn place(self) -> Option<Place<'a>> {
        match self {
            Script::At(place) => Some(place),
            Script::Given(_) => None,
        }
    }

    /// Whether it is standard input.
    pub fn is_standard(self) -> bool {
        match self {
            Script::At(place) => place.is_standard(),
            Script::Given(_) => false,
        }
    }
}

/// What bytes are read from.
#[derive(Drop)]
pub enum Inflow<'a, F: Read + Drop, I: Read + Drop> {
    /// A file that was opened.
    File(F),
    /// Standard input.
    Standard(I),
    /// Bytes at hand.
    Given(&'a [u8]),
}

impl<F: Read + Drop, I: Read + Drop> Read for Inflow<'_, F, I> {
    fn read(&mut self, buf: &mut [u8]) -> io::Result<usize> {
        match self {
            Inflow::File(file) => file.read(buf),
            Inflow::Standard(input) => input.read(buf),
            Inflow::Given(bytes) => bytes.read(buf),
        }
    }
}

/// Opens the file of a place, or takes standard input. Refused `Input` where the system opens none.
pub fn open_place<R: Files + Input>(
    rt: &R,
    place: Place<'_>,
) -> Result<Inflow<'static, R::File, R::Reader>, Refusal>
    ensures { IsOkUnless result Refusal.Input }
{
    if place.is_standard() {
        return Ok(Inflow::Standard(rt.reader()));
    }
    match open_input(rt, place.name()) {
        Ok(file) => Ok(Inflow::File(file)),
        Err(refusal) => Err(refusal),
    }
}

/// Opens a table as `open_place` does, under a header that stands in place of its first record, where one is given. Refused
/// `NoMemory` besides.
pub fn open_table<R: Files + Input>(
    rt: &R,
    alloc: Global,
    place: Place<'_>,
    header: Option<&str>,
) -> Result<Headed<Inflow<'static, R::File, R::Reader>>, Refusal> {
    let header = match header {
        Some(asked) => match Header::new(alloc, asked) {
            Ok(header) => Some(header),
            Err(_) => return Err(Refusal::NoMemory),
        },
        None => None,
    };
    match open_place(rt, place) {
        Ok(source) => Ok(Headed::new(alloc, source, header)),
        Err(refusal) => Err(refusal),
    }
}

/// Opens what the calls of a run come from. Refused `Input` where the system opens no file.
pub fn open_script<'a, R: Files + Input>(
    rt: &R,
    script: Script<'a>,
) -> Result<Inflow<'a, R::File, R::Reader>, Refusal>
    ensures { IsOkUnless result Refusal.Input }
{
    match script {
        Script::At(place) => open_place(rt, place),
        Script::Given(bytes) => Ok(Inflow::Given(bytes)),
    }
}

/// Whether the bytes of a place can be read only once: it is no regular file, whatever its name.
pub fn is_read_once<R: Files>(rt: &R, place: Place<'_>) -> bool {
    place.is_standard() || FileId::of(rt, place.name()).is_none()
}

/// What is kept of the bytes of a source.
#[derive(Drop)]
pub enum Kept {
    /// It can be read again, so nothing is.
    Often,
    /// It gives its bytes only once: what went by; none where there was no memory for it.
    Once(Option<Vec<u8>>),
}

impl Kept {
    /// Nothing was read yet.
    pub fn new(alloc: Global, is_read_once: bool) -> Kept {
        if is_read_once {
            Kept::Once(Some(Vec::new(alloc)))
        } else {
            Kept::Often
        }
    }

    /// Keeps some bytes more, where they are kept.
    fn keep(&mut self, more: &[u8]) {
        if let Kept::Once(Some(bytes)) = self {
            if bytes.extend_from_slice(more).is_err() {
                *self = Kept::Once(None);
            }
        }
    }
}

/// A source before another, which keeps what goes by, where that is asked.
pub struct Keeping<S: Source + Drop> {
    source: S,
    kept: Kept,
    /// Whether its last failure was a want of memory.
    is_short: bool,
}

impl<S: Source + Drop> Keeping<S> {
    /// A source of which nothing went by.
    pub fn new(source: S, kept: Kept) -> Keeping<S> {
        Keeping {
            source,
            kept,
            is_short: false,
        }
    }

    /// Why it was refused to read this source: `NoMemory` in place of `Input` where memory was wanting.
    pub fn why(&self, refusal: Refusal) -> Refusal
        ensures short { self.now.is_short ≡ true → refusal ≡ Refusal.Input → result ≡ Refusal.NoMemory }
        ensures other { self.now.is_short ≡ false → result ≡ refusal }
    {
        match refusal {
            Refusal::Input if self.is_short => Refusal::NoMemory,
            _ => refusal,
        }
    }

    /// What went by.
    pub fn into_kept(self) -> Kept {
        let Self {
            source: _source,
            kept,
            is_short: _,
        } = self;
        kept
    }
}

// By hand: the drop of a derived one is written out at each way out of a function.
impl<S: Source + Drop> Drop for Keeping<S> {
    fn drop(self) {
        let Self {
            source: _source,
            kept: _kept,
            is_short: _,
        } = self;
    }
}

impl<S: Source + Drop> Source for Keeping<S> {
    ghost left = { λ s. S.left s.source };

    ghost failed = { λ s. S.failed s.source };

    fn read_some(&mut self, buf: &mut [u8]) -> io::Result<usize>
        ensures bound { ReadsAtMost result buf.new }
        ensures bytes { ReadConsumes (S.left self.old.source) (S.left self.new.source) result buf.new }
        ensures went { OnOk result (S.failed self.new.source ≡ S.failed self.old.source) }
        ensures raised { OnErr result (Raised (S.failed self.old.source) (S.failed self.new.source)) }
        ensures short { IfErr result (λ e. self.new.is_short ≡ true ↔ error_kind e ≡ ErrorKind.OutOfMemory) }
    {
        match self.source.read_some(buf) {
            Ok(count) => {
                let (given, _) = buf.split_at(count);
                self.kept.keep(given);
                Ok(count)
            }
            Err(error) => {
                self.is_short = error.kind() == ErrorKind::OutOfMemory;
                Err(error)
            }
        }
    }

    fn failures(&self) -> u64 {
        self.source.failures()
    }
}
