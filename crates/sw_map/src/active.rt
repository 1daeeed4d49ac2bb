//! A map in use.

ghost use Rattle.std.specs.Prelude.{◌≡◌};

use crate::pairs::Pairs;
use crate::tail::Tail;
use sw_budget::Lease;

/// A map in use. Its lists have room for as many pairs as its lease has cells.
#[derive(Drop)]
pub struct Active {
    pub lease: Lease,
    pub head: u8,
    pub tail: Tail,
    pub cursor: usize,
    pub pairs: Pairs,
    pub ghost room: { lease.held ≡ pairs.room },
}
