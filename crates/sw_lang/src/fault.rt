//! Why a line is no call.

ghost use Rattle.std.specs.Prelude.{◌≡◌};
ghost use Rattle.sw_lang.specs.declared.fault.ParseError.TheVariants as error;

use std::alloc::{AllocError, AllocFailed};
use sw_rows::{Name, Why};

/// The first fault of a line, from the left.
#[derive(Drop)]
pub enum Fault {
    Bad(Why),
    /// A well-formed name that is no attribute.
    Unknown(Name),
    /// There is more of something than its greatest number.
    Excess(u64),
}

/// Why nothing was read.
#[derive(Drop)]
pub(crate) enum ParseError {
    Memory,
    Fault(Fault),
}

pub(crate) fn bad(why: Why) -> ParseError
    ensures { result ≡ ParseError.Fault (Fault.Bad why) }
{
    ParseError::Fault(Fault::Bad(why))
}

impl From<Fault> for ParseError {
    ghost from_gives = { λ f e. e ≡ error.Fault f };

    fn from(fault: Fault) -> ParseError {
        ParseError::Fault(fault)
    }
}

impl From<AllocError> for ParseError {
    ghost from_gives = { λ _ e. e ≡ error.Memory };

    fn from(_e: AllocError) -> ParseError {
        ParseError::Memory
    }
}

impl<T: Drop> From<AllocFailed<T>> for ParseError {
    ghost from_gives = { λ _ e. e ≡ error.Memory };

    fn from(_e: AllocFailed<T>) -> ParseError {
        ParseError::Memory
    }
}
