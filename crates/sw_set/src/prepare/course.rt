//! What maps are stepped along.

ghost use Rattle.std.specs.Prelude.{All};
ghost use Rattle.sw_table.specs.declared.row.Row.{Row};
ghost use Rattle.sw_kernel.specs.Replay.{Step};
ghost use Rattle.sw_map.specs.Held.{KeysFit};

use sw_map::Tail;
use sw_tape::Tape;

/// What the maps of an area are stepped along, and which of them: its tape, whose keys fit, and the tails of maps that are needed.
#[derive(Clone, Copy)]
pub(crate) struct Course<'a> {
    /// The area's attribute, which is the maps' head.
    pub(crate) attribute: u8,
    pub(crate) tails: &'a [Tail],
    pub(crate) tape: &'a Tape,
    pub(crate) ghost keys: { All (λ (e : Step Row). KeysFit e) tape.now },
}
