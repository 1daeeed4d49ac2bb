//! The check of an order that was found.

ghost use Rattle.std.specs.Prelude.{◌≡◌, ◌≤◌, ◌<◌, ◌+◌, ◌^◌, ◌↔◌, ℕ, false, length, max, slice_index, slice_index_or, true, EachIndex, IfOk, IfSome, IsTrue};
ghost use Rattle.sw_logs.specs.Orders.{is_known, AreEntriesOf, AreNumbersOf, HasKnown, IsEntryOf, IsStateFor, KeepsBy, KeepsSessions, KeepsTimes, StandOnce};
ghost use Rattle.sw_logs.specs.Steps.{IsMarked, IsRaised, StartsOn};

use crate::copying::{copied_call, copied_lines};
use crate::logged::Logged;
use crate::order::By;
use std::alloc::{AllocError, Global};
use sw_rows::{Call, Reply};
use sw_spine::{Entry, KeptEntry, MOST_SESSIONS, State};

/// What a call is answered that was given this key or took out so many rows.
fn reply_of(call: &Call, told: Option<u64>) -> Reply {
    match call {
        Call::Insert(_) => Reply::Inserted(told.unwrap_or(0)),
        Call::DeleteWhere(_) => Reply::RemovedMany(told.unwrap_or(0)),
        _ => Reply::Removed,
    }
}

/// What has become of a call: the log's reply, or of unknown outcome the reply to one that took effect so.
fn state_of(alloc: Global, call: &Logged, told: Option<u64>) -> Result<State, AllocError>
    ensures { IfOk result (IsStateFor call.now.reply) }
{
    match &call.reply {
        Some(lines) => {
            let lines = copied_lines(alloc, lines)?;
            Ok(State::Lines(lines))
        }
        None => Ok(State::Answered(reply_of(&call.call, told))),
    }
}

/// The entry of a call.
fn entry_of(alloc: Global, call: &Logged, told: Option<u64>) -> Result<KeptEntry, AllocError>
    ensures { IfOk result (IsEntryOf call.now) }
{
    let state = state_of(alloc, call, told)?;
    let copy = copied_call(alloc, &call.call)?;
    KeptEntry::new(
        alloc,
        Entry {
            session: call.session,
            call: copy,
            state,
        },
    )
}

/// What was told at a place, if anything.
fn told_at(told: &[Option<u64>], place: usize) -> Option<u64> {
    match told.get(place) {
        Some(told) => *told,
        None => None,
    }
}

/// The entries of the calls of some numbers.
pub(crate) fn entries_of(
    alloc: Global,
    calls: &[Logged],
    places: &[usize],
    told: &[Option<u64>],
) -> Result<Vec<KeptEntry>, AllocError>
    requires { AreNumbersOf calls.now places.now }
    ensures { IfOk result (λ entries. AreEntriesOf calls.now places.now entries.items) }
{
    let mut entries: Vec<KeptEntry> = Vec::new(alloc);
    for place in places {
        let number = *place;
        if entries.reserve(1).is_err() {
            return Err(AllocError);
        }
        let call = &calls[number];
        let entry = entry_of(alloc, call, told_at(told, entries.len()))?;
        entries.push_reserved(entry);
    }
    Ok(entries)
}

/// Whether numbers are below another.
fn are_below(count: usize, numbers: &[usize]) -> bool
    ensures { IsTrue result ↔ EachIndex numbers.now (λ k. slice_index numbers.now k < count) }
{
    numbers.iter().all(|number| *number < count)
}

/// Whether these are numbers of calls.
pub(crate) fn are_numbers(calls: &[Logged], places: &[usize]) -> bool
    ensures { result ≡ true → AreNumbersOf calls.now places.now }
{
    are_below(calls.len(), places)
}

/// So many flags, all of them false.
#[tactic(auto, using(crate::proofs::OrderLemmas::none_flagged))]
fn no_flags(alloc: Global, count: usize) -> Result<Vec<bool>, AllocError>
    ensures many { IfOk result (λ flags. length flags.items ≡ count) }
    ensures none { IfOk result (λ flags. (i : ℕ) → slice_index_or flags.items i false ≡ false) }
{
    vec![in alloc; false; count]
}

/// Whether there is a flag that is true.
fn is_set(seen: &[bool], number: usize) -> bool
    ensures { result ≡ slice_index_or seen.now number false }
{
    match seen.get(number) {
        Some(flag) => *flag,
        None => false,
    }
}

/// A flag for each call, which says whether it stands at some place; None where one stands twice.
fn seen_at(
    alloc: Global,
    calls: &[Logged],
    places: &[usize],
) -> Result<Option<Vec<bool>>, AllocError>
    requires { AreNumbersOf calls.now places.now }
    ensures { IfOk result (λ o. IfSome o (λ seen. IsMarked (length calls.now) places.now seen.items)) }
{
    let mut seen = no_flags(alloc, calls.len())?;
    for place in places {
        if is_set(seen.as_slice(), *place) {
            return Ok(None);
        }
        seen[*place] = true;
    }
    Ok(Some(seen))
}

/// Whether a call of known outcome has no flag.
fn is_missing(call: &Logged, seen: &Vec<bool>, number: usize) -> bool
    ensures { result ≡ false → is_known call.now ≡ true → slice_index_or seen.now.items number false ≡ true }
{
    call.reply.is_some() && !is_set(seen.as_slice(), number)
}

/// Whether each call of known outcome has a flag, which says that it stands at some place.
#[tactic(auto, using(crate::proofs::OrderLemmas::known_all))]
fn has_known(calls: &[Logged], places: &[usize], seen: &Vec<bool>) -> bool
    requires { IsMarked (length calls.now) places.now seen.now.items }
    ensures { result ≡ true → HasKnown calls.now places.now }
{
    for (number, call) in calls.iter().enumerate() {
        if is_missing(call, seen, number) {
            return false;
        }
    }
    true
}

/// Whether calls of these numbers are each once, and all those of known outcome.
pub(crate) fn are_each_once(
    alloc: Global,
    calls: &[Logged],
    places: &[usize],
) -> Result<bool, AllocError>
    requires { AreNumbersOf calls.now places.now }
    ensures { IfOk result (λ told. told ≡ true → StandOnce places.now × HasKnown calls.now places.now) }
{
    let marked = seen_at(alloc, calls, places)?;
    let Some(seen) = marked else {
        return Ok(false);
    };
    Ok(has_known(calls, places, &seen))
}

/// Whether a call of known outcome ended more than the slack before another began.
fn is_over(call: &Logged, slack: u64, start: u64) -> bool
    ensures { result ≡ false → is_known call.now ≡ true → start ≤ call.now.end + slack }
{
    match call.end.checked_add(slack) {
        Some(last) => call.reply.is_some() && last < start,
        None => false,
    }
}

/// The latest start of a call and those before it; None where it is of known outcome and ended more than the slack before
/// one of those began.
fn latest_with(call: &Logged, slack: u64, latest: u64) -> Option<u64>
    ensures { IfSome result (StartsOn call.now slack latest) }
{
    if is_over(call, slack, latest) {
        return None;
    }
    Some(latest.max(call.start))
}

/// Whether no call of known outcome ended more than the slack before one began that stands before it.
fn keeps_times(calls: &[Logged], places: &[usize], slack: u64) -> bool
    requires { AreNumbersOf calls.now places.now }
    ensures { result ≡ true → KeepsTimes slack calls.now places.now }
{
    let mut latest: u64 = 0;
    for place in places {
        let number = *place;
        let call = &calls[number];
        let Some(next) = latest_with(call, slack, latest) else {
            return false;
        };
        latest = next;
    }
    true
}

/// Whether calls stand as they have to by their times.
pub(crate) fn keeps_by(calls: &[Logged], places: &[usize], by: By) -> bool
    requires { AreNumbersOf calls.now places.now }
    ensures { result ≡ true → KeepsBy by calls.now places.now }
{
    match by {
        By::Times { slack } => keeps_times(calls, places, slack),
        By::Sessions => true,
    }
}

/// Whether a call of known outcome has a number below the one from which on those of its session come.
fn is_behind(call: &Logged, number: usize, from: usize) -> bool
    ensures { result ≡ false → is_known call.now ≡ true → from ≤ number }
{
    call.reply.is_some() && number < from
}

/// A number of a list, 0 where there is none.
fn number_at(numbers: &[usize], place: usize) -> usize
    ensures { result ≡ slice_index_or numbers.now place 0 }
{
    match numbers.get(place) {
        Some(number) => *number,
        None => 0,
    }
}

/// The greater of a number and the one after another.
fn above(first: usize, number: usize) -> usize
    requires { number + 1 < 2 ^ 64 }
    ensures { result ≡ max first (number + 1) }
{
    first.max(number + 1)
}

/// Raises the number from which on the calls of a call's session come to one above its own. False where the call is of
/// known outcome and has a number below, or where its session has none; nothing has changed then.
fn raise(call: &Logged, number: usize, from: &mut Vec<usize>) -> bool
    requires { number + 1 < 2 ^ 64 }
    ensures { result ≡ true → IsRaised call.now number from.old.items from.new.items }
{
    let session = call.session as usize;
    if session >= from.len() {
        return false;
    }
    let first = number_at(from.as_slice(), session);
    if is_behind(call, number, first) {
        return false;
    }
    from[session] = above(first, number);
    true
}

/// Whether no call of known outcome stands after a later one of its session.
pub(crate) fn keeps_sessions(
    alloc: Global,
    calls: &[Logged],
    places: &[usize],
) -> Result<bool, AllocError>
    requires { AreNumbersOf calls.now places.now }
    ensures { IfOk result (λ kept. kept ≡ true → KeepsSessions calls.now places.now) }
{
    let mut from = vec![in alloc; 0usize; MOST_SESSIONS + 1]?;
    for place in places {
        let number = *place;
        let call = &calls[number];
        if !raise(call, number, &mut from) {
            return Ok(false);
        }
    }
    Ok(true)
}
