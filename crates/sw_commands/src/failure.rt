//! Why a command was not carried out.

ghost use Rattle.std.specs.Prelude.{◌≡◌, None};

use crate::inputs::Place;
use crate::outflow::Reader;
use crate::wording;
use std::alloc::Global;
use std::rt::Files;
use sw_rows::Refusal;

/// Why a command was not carried out.
#[derive(Drop)]
pub struct Failure {
    pub refusal: Refusal,
    /// What the refusal means, as whole lines; none where there is nothing to say of it, or no memory to say it.
    pub words: Option<String>,
}

/// A refusal without words.
impl From<Refusal> for Failure {
    ghost from_gives = { λ refusal failure. failure ≡ record { refusal = refusal; words = None } };

    fn from(refusal: Refusal) -> Failure {
        Failure {
            refusal,
            words: None,
        }
    }
}

impl Failure {
    /// The refusal of what was to go to standard output, which this reader has.
    pub fn of_output(alloc: Global, reader: &Reader, refusal: Refusal) -> Failure {
        let words = wording::of_output(alloc, reader, &refusal);
        Failure { refusal, words }
    }

    /// The refusal of a file, or of standard input, that was to be opened. Without words of other refusals than `Input`.
    pub fn of_file<R: Files>(rt: &R, alloc: Global, place: Place<'_>, refusal: Refusal) -> Failure {
        let words = wording::of_file(rt, alloc, place, &refusal);
        Failure { refusal, words }
    }

    /// The refusal of a file, or of standard input, that was to be read.
    pub fn of_unread<R: Files>(
        rt: &R,
        alloc: Global,
        place: Place<'_>,
        refusal: Refusal,
    ) -> Failure {
        let words = wording::of_unread(rt, alloc, place, &refusal);
        Failure { refusal, words }
    }

    /// The refusal of the file of a path that was to be written.
    pub fn of_unwritten<R: Files>(rt: &R, alloc: Global, path: &str, refusal: Refusal) -> Failure {
        let words = wording::of_unwritten(rt, alloc, path, &refusal);
        Failure { refusal, words }
    }
}
