//! A reader before another, which gives a text under the header that stands in place of its own.

ghost use Rattle.std.specs.Prelude.{◌≡◌, [], false, IfOk, OnOk};
ghost use Rattle.std.specs.Io.{ReadsAtMost};
ghost use Rattle.std.specs.Io.KnownBytes.{IsAtEnd, Keeps};
ghost use Rattle.sw_headers.specs.Left.{GetsOn, KeepsBoth, ReadsUnder, TakesBlock, headed, headed_left, known_under};
ghost use Rattle.sw_headers.specs.Steps.{goes_by, rewritten, waiting};
ghost use Rattle.sw_headers.specs.Under.{IsUnder};

use crate::header::Header;
use crate::rewriting::Rewriter;
use std::alloc::{AllocError, Global};
use std::io;
use std::io::{ErrorKind, Read};

/// How many bytes are read at once.
const BLOCK: usize = 8192;

/// What goes on of a text.
fn rewritten(alloc: Global, header: Header, text: &[u8]) -> Result<Vec<u8>, AllocError>
    ensures { IfOk result (λ out. out.items ≡ rewritten header.record.items header.keeps.items text.now) }
{
    let mut rewriter = Rewriter::new(alloc, header);
    rewriter.feed(text)?;
    rewriter.finish()?;
    Ok(rewriter.into_bytes())
}

/// The bytes of a text under a header: their records are those of the text with the header in place of the first, and
/// without the fields that are passed by.
pub fn text_under(alloc: Global, header: Header, text: &[u8]) -> Result<Vec<u8>, AllocError>
    ensures under { IfOk result (λ out. IsUnder header.record.items header.keeps.items text.now out.items) }
    ensures made { IfOk result (λ out. out.items ≡ rewritten header.record.items header.keeps.items text.now) }
{
    rewritten(alloc, header, text)
}

/// Reads a block where there is none; of a text that is over an empty one.
fn fill<R: Read>(block: &mut Vec<u8>, source: &mut R) -> io::Result<()>
    ensures same { KeepsBoth block.old.items (R.remaining source.old) block.new.items (R.remaining source.new) }
    ensures end { OnOk result (block.new.items ≡ [] → IsAtEnd (R.remaining source.new)) }
{
    if !block.is_empty() {
        return Ok(());
    }
    if block.resize(BLOCK, 0).is_err() {
        return Err(io::Error::from(ErrorKind::OutOfMemory));
    }
    match source.read(block.as_mut_slice()) {
        Ok(count) => {
            block.truncate(count);
            Ok(())
        }
        Err(error) => {
            block.clear();
            Err(error)
        }
    }
}

/// What goes by of a text under a header.
#[derive(Drop)]
struct Under {
    rewriter: Rewriter,
    /// What was read of the text and not yet taken in.
    block: Vec<u8>,
    /// Whether the text is over.
    is_over: bool,
}

impl Under {
    /// Takes the block in; no block ends the text. After an error it is still there.
    fn take_block(&mut self) -> Result<(), AllocError>
        requires none_waits { waiting self.old.rewriter ≡ [] }
        requires more { self.old.is_over ≡ false }
        requires steps { goes_by self.old.rewriter.header.keeps.items self.old.rewriter.place ≡ false }
        ensures same { TakesBlock self.old self.new }
        ensures on { OnOk result (GetsOn self.old self.new) }
    {
        if self.block.is_empty() {
            self.rewriter.end()?;
            self.is_over = true;
        } else {
            self.rewriter.take_in(self.block.as_slice())?;
            self.block.clear();
        }
        Ok(())
    }

    /// Reads more of the text.
    fn read_more<R: Read>(&mut self, source: &mut R) -> io::Result<()>
        requires none_waits { waiting self.old.rewriter ≡ [] }
        requires more { self.old.is_over ≡ false }
        requires steps { goes_by self.old.rewriter.header.keeps.items self.old.rewriter.place ≡ false }
        ensures same { Keeps (known_under self.old (R.remaining source.old)) (known_under self.new (R.remaining source.new)) }
        ensures on { OnOk result (self.new.block.items ≡ []) }
    {
        fill(&mut self.block, source)?;
        match self.take_block() {
            Ok(()) => Ok(()),
            Err(_) => Err(io::Error::from(ErrorKind::OutOfMemory)),
        }
    }

    /// Gives the next bytes of what goes on into the front of `buf`, and says how many. What goes on as it is is read into
    /// `buf` itself.
    fn read<R: Read>(&mut self, source: &mut R, buf: &mut [u8]) -> io::Result<usize>
        ensures bound { ReadsAtMost result buf.new }
        ensures bytes { ReadsUnder self.old (R.remaining source.old) self.new (R.remaining source.new) result buf.new }
    {
        if buf.is_empty() {
            return Ok(0);
        }
        for _ in 0..u64::MAX {
            let count = self.rewriter.give(buf);
            if count > 0 || self.is_over {
                return Ok(count);
            }
            if self.rewriter.goes_by() {
                return source.read(buf);
            }
            self.read_more(source)?;
        }
        Err(io::Error::from(ErrorKind::TimedOut))
    }
}

/// A reader of a text: under a header where there is one, else as it is. An error is that of the text's reader,
/// `OutOfMemory`, or after 2^64 reads `TimedOut`; the bytes that are left then come after it.
#[derive(Drop)]
pub struct Headed<R: Read + Drop> {
    source: R,
    under: Option<Under>,
}

impl<R: Read + Drop> Headed<R> {
    /// A reader before that of a text, of which nothing was read.
    pub fn new(alloc: Global, source: R, header: Option<Header>) -> Headed<R>
        ensures { headed_left R.remaining result ≡ headed header (R.remaining source) }
    {
        let under = match header {
            Some(header) => Some(Under {
                rewriter: Rewriter::new(alloc, header),
                block: Vec::new(alloc),
                is_over: false,
            }),
            None => None,
        };
        Headed { source, under }
    }
}

impl<R: Read + Drop> Read for Headed<R> {
    ghost remaining = { headed_left R.remaining };

    fn read(&mut self, buf: &mut [u8]) -> io::Result<usize> {
        match &mut self.under {
            Some(under) => under.read(&mut self.source, buf),
            None => self.source.read(buf),
        }
    }
}
