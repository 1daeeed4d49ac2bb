//! With whom a shell talks.

use crate::host::Host;
use std::io::BufRead;
use std::marker::Model;
use sw_rows::Sink;

/// With whom a shell talks: where lines come from, where replies go, and who stands around. Contracts see the bytes that the
/// reader has left and those that the sink has taken, where they are known.
#[derive(Drop)]
pub struct Console<B: BufRead + Drop, W: Sink + Drop, H: Host + Drop> {
    /// Where lines come from.
    pub lines: B,
    /// Where replies go.
    pub out: W,
    /// Who stands around.
    pub host: H,
}

impl<B: BufRead + Drop, W: Sink + Drop, H: Host + Drop> Model for Console<B, W, H> {
    ghost use Rattle.sw_shell.specs.Traffic.{Traffic, traffic};

    ghost Value = { Traffic };

    ghost view = { λ c. traffic (B.remaining c.lines) (W.taken c.out) };
}
