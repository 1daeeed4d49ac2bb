//! A sink that is written by the block.

ghost use Rattle.std.specs.Prelude.{◌≡◌, ◌≤◌, IfOk, [], List, ℕ, Option, None, OnOk, OnErr, true, vec_capacity, vec_len};
ghost use Rattle.std.specs.Io.KnownBytes.{append_known};
ghost use Rattle.sw_rows.specs.Gives.{Raised};
ghost use Rattle.sw_cli.specs.declared.buffered.TheConstants.{BLOCK};
ghost use Rattle.sw_cli.specs.Sent.{GoesOut, KeepsBy, extends, with_waiting};
ghost use Rattle.sw_cli.specs.Sides.{sink_by};

use std::alloc::{AllocError, Global};
use std::io;
use std::marker::{Brand, PhantomData};
use sw_rows::{Refusal, Sink};

/// How many bytes a block has.
pub(crate) const BLOCK: usize = 65536;

/// Memory for a block.
pub(crate) fn block(alloc: Global) -> Result<Vec<u8>, AllocError>
    ensures { IfOk result (λ block. (block.items ≡ []) × (BLOCK ≤ vec_capacity block)) }
{
    Vec::with_capacity(alloc, BLOCK)
}

/// What a sink had taken when a block was put before it. It stands in contracts alone: a call with `Brand` picks it.
pub(crate) trait Base {
    /// The bytes, where they are known.
    ghost base: { Option (List ℕ) };
}

impl Base for Brand {
    ghost base = { None };
}

/// A sink behind a block of `BLOCK` bytes, which it is given when the block is full and at `send`. What the sink took
/// since the block was put before it comes after what it had taken then.
#[derive(Drop)]
pub(crate) struct Buffered<J: Base, W: Sink> {
    sink: W,
    block: Vec<u8>,
    sent: usize,
    since: PhantomData<J>,
    ghost room: { BLOCK ≤ vec_capacity block },
    ghost filled: { vec_len block ≤ BLOCK },
    ghost waiting: { sent ≤ vec_len block },
    ghost after: { extends J.base (W.taken sink) ≡ true },
}

impl<J: Base, W: Sink> Buffered<J, W> {
    /// An empty block before a sink.
    pub(crate) fn new(block: Vec<u8>, sink: W) -> Buffered<J, W>
        requires base { J.base ≡ W.taken sink }
        requires empty { block.items ≡ [] }
        requires room { BLOCK ≤ vec_capacity block }
        ensures taken { with_waiting (W.taken result.sink) result.sent result.block.items
            ≡ append_known (W.taken sink) [] }
        ensures failed { W.failed result.sink ≡ W.failed sink }
    {
        Buffered {
            sink,
            block,
            sent: 0,
            since: PhantomData,
        }
    }

    /// The sink, without what it has not been given.
    pub(crate) fn into_sink(self) -> W
        ensures sink { result ≡ self.sink }
        ensures after { extends J.base (W.taken result) ≡ true }
    {
        let Buffered { sink, .. } = self;
        sink
    }

    /// Gives the sink all that waits. After an error what it has not taken still waits.
    pub(crate) fn send(&mut self) -> io::Result<()>
        ensures kept { KeepsBy self.old self.new (λ b. with_waiting (W.taken b.sink) b.sent b.block.items) }
        ensures sent { OnOk result (self.new.block.items ≡ []) }
        ensures went { OnOk result (W.failed self.new.sink ≡ W.failed self.old.sink) }
        ensures raised { OnErr result (Raised (W.failed self.old.sink) (W.failed self.new.sink)) }
    {
        while self.sent < self.block.len() {
            let (_, waiting) = self.block.split_at(self.sent);
            self.sent += self.sink.write_some(waiting)?;
        }
        self.sent = 0;
        self.block.clear();
        Ok(())
    }

    /// Sends what waits, where all was written that was to be, and hands the sink back. Refused as the writing was, or
    /// `Output` where the sink fails.
    pub(crate) fn end(self, written: Result<(), Refusal>) -> (W, Result<(), Refusal>)
        ensures { GoesOut J.base self.sent self.block.items (sink_by W.Sink self.sink result.0) written result.1 }
    {
        let mut block = self;
        match written {
            Ok(()) => match block.send() {
                Ok(()) => (block.into_sink(), Ok(())),
                Err(_) => (block.into_sink(), Err(Refusal::Output)),
            },
            Err(refusal) => (block.into_sink(), Err(refusal)),
        }
    }
}

impl<J: Base, W: Sink> Sink for Buffered<J, W> {
    ghost taken = { λ s. with_waiting (W.taken s.sink) s.sent s.block.items };

    ghost failed = { λ s. W.failed s.sink };

    fn write_some(&mut self, buf: &[u8]) -> io::Result<usize> {
        if self.block.len() >= BLOCK {
            self.send()?;
        }
        let n = buf.len().min(BLOCK - self.block.len());
        self.block.extend_from_slice(&buf[..n])?;
        Ok(n)
    }

    fn failures(&self) -> u64 {
        self.sink.failures()
    }
}
