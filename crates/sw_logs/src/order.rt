//! Orders of the calls of logs.

ghost use Rattle.std.specs.Prelude.{◌≡◌, length, true, IfOk, IfSome, IsOkUnless};
ghost use Rattle.sw_logs.specs.Openings.{IsOpening};
ghost use Rattle.sw_logs.specs.Orders.{AllFit, AreNumbersOf, IsOrderFound, IsOrderOf, IsRecordOf};

use crate::checking::{are_each_once, are_numbers, entries_of, keeps_by, keeps_sessions};
use crate::logged::Logged;
use crate::opening::Opening;
use std::alloc::{AllocError, Global};
use sw_rows::Refusal;
use sw_spine::{MOST_ENTRIES, Record};

/// Which calls have to stand before which.
#[derive(Clone, Copy)]
pub enum By {
    /// A session's calls stand in the order of its log, and a call that ended more than `slack` before another began
    /// stands before it.
    Times { slack: u64 },
    /// A session's calls stand in the order of its log.
    Sessions,
}

/// Calls in an order that may be one.
#[derive(Drop)]
pub struct Placed {
    /// Their numbers among the logs' calls, from 0.
    pub places: Vec<usize>,
    /// For each of them the key that it was given or how many rows it took out, where it changed any.
    pub told: Vec<Option<u64>>,
}

/// An order of the calls of logs.
#[derive(Drop)]
pub struct Order {
    /// The calls in their order, with the table that they were made on.
    pub history: Record,
    /// Of each entry of the history the number of its call among the logs' calls, from 0.
    pub places: Vec<usize>,
}

/// Whether these are numbers of calls, each once, all those of known outcome, and stand as they have to.
fn is_order_of(
    alloc: Global,
    calls: &[Logged],
    by: By,
    places: &[usize],
) -> Result<bool, AllocError>
    ensures { IfOk result (λ told. told ≡ true → IsOrderOf by calls.now places.now) }
{
    let numbers = are_numbers(calls, places);
    if !numbers {
        return Ok(false);
    }
    let once = are_each_once(alloc, calls, places)?;
    if !once {
        return Ok(false);
    }
    let kept = keeps_sessions(alloc, calls, places)?;
    if !kept {
        return Ok(false);
    }
    Ok(keeps_by(calls, places, by))
}

/// Whether calls stand as they have to.
fn is_order(alloc: Global, calls: &[Logged], by: By, placed: &Placed) -> Result<bool, AllocError>
    ensures { IfOk result (λ told. told ≡ true → IsOrderOf by calls.now placed.now.places.items) }
{
    let places = placed.places.as_slice();
    is_order_of(alloc, calls, by, places)
}

/// The record of the calls of these numbers; None where there are more than a history has.
fn record_of(
    alloc: Global,
    opening: Opening,
    calls: &[Logged],
    placed: &Placed,
) -> Result<Option<Record>, AllocError>
    requires table { IsOpening opening }
    requires fit { AllFit (length opening.schema) calls.now }
    requires numbers { AreNumbersOf calls.now placed.now.places.items }
    ensures { IfOk result (λ o. IfSome o (IsRecordOf opening calls.now placed.now.places.items)) }
{
    if placed.places.len() > MOST_ENTRIES {
        return Ok(None);
    }
    let places = placed.places.as_slice();
    let entries = entries_of(alloc, calls, places, placed.told.as_slice())?;
    let history = Record {
        schema: opening.schema,
        rows: opening.rows,
        limit: opening.limit,
        entries,
    };
    Ok(Some(history))
}

/// The order of these calls, if it is one.
fn checked(
    alloc: Global,
    opening: Opening,
    calls: &[Logged],
    by: By,
    placed: Placed,
) -> Result<Option<Order>, AllocError>
    requires table { IsOpening opening }
    requires fit { AllFit (length opening.schema) calls.now }
    ensures { IfOk result (λ o. IfSome o (IsOrderFound by opening calls.now)) }
{
    let good = is_order(alloc, calls, by, &placed)?;
    if !good {
        return Ok(None);
    }
    let made = record_of(alloc, opening, calls, &placed)?;
    let Some(history) = made else {
        return Ok(None);
    };
    match history.check() {
        Ok(()) => Ok(Some(Order {
            history,
            places: placed.places,
        })),
        Err(Refusal::NoMemory) => Err(AllocError),
        Err(_) => Ok(None),
    }
}

/// The order of these calls, where it is one, and None where it is not: where a number is that of no call or stands twice, a
/// call of known outcome is left out, or stands behind a later one of its session, or, by times, behind one that began more
/// than the slack after its end; or where the plain list does not give each call its reply, or where there are more than
/// 1,048,576 calls.
///
/// The history that is answered is legal. The one refusal is `NoMemory`. The caller's condition: calls name attributes of
/// the table.
pub fn check_order(
    alloc: Global,
    opening: Opening,
    calls: &[Logged],
    by: By,
    placed: Placed,
) -> Result<Option<Order>, Refusal>
    requires table { IsOpening opening }
    requires fit { AllFit (length opening.schema) calls.now }
    ensures found { IfOk result (λ o. IfSome o (IsOrderFound by opening calls.now)) }
    ensures refused { IsOkUnless result Refusal.NoMemory }
{
    match checked(alloc, opening, calls, by, placed) {
        Ok(found) => Ok(found),
        Err(_) => Err(Refusal::NoMemory),
    }
}
