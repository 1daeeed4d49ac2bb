//! A sink that notes whether a call was refused.

ghost use Rattle.std.specs.Prelude.{◌≡◌, ◌<◌, ℕ, List, [], length, take, IfOk, OnOk, OnErr};
ghost use Rattle.std.specs.Io.{WritesAtMost};
ghost use Rattle.std.specs.Io.KnownBytes.{WriteAppends};
ghost use Rattle.sw_rows.specs.Gives.{Raised};
ghost use Rattle.sw_cli.specs.RefusedLines.{Notes, tells_refusal, tells_then};

use crate::watching::Watch;
use std::io;
use sw_rows::Sink;

/// A sink before another that notes whether a line which begins with `refused ` went out.
#[derive(Drop)]
pub struct Noting<W: Sink> {
    sink: W,
    watch: Watch,
}

impl<W: Sink> Noting<W> {
    /// A sink at the beginning of a line, before any byte.
    pub fn new(sink: W) -> Noting<W>
        ensures sink { result.sink ≡ sink }
        ensures none { (bytes : List ℕ) → tells_then result.watch bytes ≡ tells_refusal bytes }
    {
        Noting {
            sink,
            watch: Watch::new(),
        }
    }

    /// Whether a line of the bytes that were taken begins with `refused `.
    pub fn has_refused(&self) -> bool
        ensures { result ≡ tells_then self.now.watch [] }
    {
        self.watch.has_refused()
    }
}

impl<W: Sink> Sink for Noting<W> {
    ghost taken = { λ s. W.taken s.sink };

    ghost failed = { λ s. W.failed s.sink };

    /// Gives the bytes to the sink behind this one, and notes those that it takes.
    fn write_some(&mut self, buf: &[u8]) -> io::Result<usize>
        ensures bound { WritesAtMost result buf.now }
        ensures bytes { WriteAppends (W.taken self.old.sink) (W.taken self.new.sink) result buf.now }
        ensures moves { IfOk result (λ n. 0 < length buf.now → 0 < n) }
        ensures went { OnOk result (W.failed self.new.sink ≡ W.failed self.old.sink) }
        ensures raised { OnErr result (Raised (W.failed self.old.sink) (W.failed self.new.sink)) }
        ensures noted { IfOk result (λ n. Notes self.old.watch self.new.watch (take n buf.now)) }
        ensures kept { OnErr result (self.new.watch ≡ self.old.watch) }
    {
        let count = self.sink.write_some(buf)?;
        let (taken, _) = buf.split_at(count);
        self.watch.note(taken);
        Ok(count)
    }

    fn failures(&self) -> u64 {
        self.sink.failures()
    }
}
