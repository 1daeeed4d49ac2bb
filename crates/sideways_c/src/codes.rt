//! The numbers that go over the border.

ghost use Rattle.std.specs.Prelude.{◌≡◌};
ghost use Rattle.sideways_c.specs.Codes.{code_of, fault_code};

use sw_arrays::Fault;
use sw_rows::Refusal;

/// Answered.
pub(crate) const OK: u32 = 0;

/// A history is not legal.
pub(crate) const NOT_LEGAL: u32 = 11;

/// The handle has no engine, or is open where a closed one is wanted.
pub(crate) const MISUSE: u32 = 100;

/// No such session was opened.
pub(crate) const NO_SESSION: u32 = 101;

/// No attribute of the table has the number, or it is not of numbers, or none or too many were asked for.
pub(crate) const NO_ATTRIBUTE: u32 = 102;

/// The limit, the budget or the number of maps is out of its range.
pub(crate) const BAD_OPTIONS: u32 = 103;

/// The call was made, and there was no memory for the text of its reply.
pub(crate) const NO_TEXT: u32 = 104;

/// A condition is none.
pub(crate) const BAD_CONDITION: u32 = 105;

/// A cell is none of its attribute's kind, or there are more or fewer than wanted.
pub(crate) const BAD_CELL: u32 = 106;

/// The handle keeps no rows.
pub(crate) const NO_ROWS: u32 = 107;

/// The number of a refusal.
pub(crate) fn code_of(refusal: &Refusal) -> u32
    ensures { result ≡ code_of refusal.now }
{
    match refusal {
        Refusal::NoMemory => 1,
        Refusal::BadTable { .. } => 2,
        Refusal::BadLine { .. } => 3,
        Refusal::UnknownAttribute { .. } => 4,
        Refusal::TooMany { .. } => 5,
        Refusal::NoBlank { .. } => 6,
        Refusal::Short { .. } => 7,
        Refusal::Contended { .. } => 8,
        Refusal::SharesOut { .. } => 9,
        Refusal::HistoryFull { .. } => 10,
        Refusal::NotLegal { .. } => NOT_LEGAL,
        Refusal::Input => 12,
        Refusal::Output => 13,
        Refusal::Ahead { .. } => 14,
    }
}

/// The number of a fault of what was given.
pub(crate) fn fault_code(fault: Fault) -> u32
    ensures { result ≡ fault_code fault }
{
    match fault {
        Fault::NoMemory => 1,
        Fault::NoAttribute => NO_ATTRIBUTE,
        Fault::BadCondition => BAD_CONDITION,
        Fault::BadCell => BAD_CELL,
    }
}
