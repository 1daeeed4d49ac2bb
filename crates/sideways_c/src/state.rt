//! What a handle stands for: an engine, and the text and the rows that were kept last.

ghost use Rattle.std.specs.Prelude.{◌≡◌, [], None, Some};
ghost use Rattle.sideways_c.specs.Shown.{has_session};

use crate::kept::Kept;
use std::alloc::Global;
use std::marker::Model;
use sw_map::PairMap;
use sw_solo::Solo;

/// An engine while there is one, and the text and the rows that were kept last. Contracts see all three.
#[derive(Drop)]
pub struct State {
    pub(crate) solo: Option<Solo<PairMap>>,
    pub(crate) text: Vec<u8>,
    pub(crate) kept: Option<Kept>,
}

impl Model for State {
    ghost use Rattle.sideways_c.specs.Shown.{Shown};

    ghost Value = { Shown };

    ghost view = { λ s. record { engine = s.solo; text = s.text.items; kept = s.kept } };
}

impl State {
    /// An engine, an empty text, and no rows.
    pub(crate) fn over(alloc: Global, solo: Solo<PairMap>) -> State
        ensures { result ≡ record { engine = Some solo; text = []; kept = None } }
    {
        State {
            solo: Some(solo),
            text: Vec::new(alloc),
            kept: None,
        }
    }

    /// A text alone.
    pub(crate) fn telling(text: Vec<u8>) -> State
        ensures { result ≡ record { engine = None; text = text.items; kept = None } }
    {
        State {
            solo: None,
            text,
            kept: None,
        }
    }
}

/// Whether a session was opened.
pub(crate) fn has_session(solo: &Solo<PairMap>, session: u64) -> bool
    ensures { result ≡ has_session session solo.now }
{
    0 < session && session <= solo.sessions()
}
