//! The keys that a store gave become those of the plain list.

ghost use Rattle.std.specs.Prelude.{◌≡◌, ◌<◌, ◌+◌, codes, length, slice_get, slice_index, string_bytes, true, ◌↔◌, EachIndex, IfOk, IfSome, IsTrue, Some};
ghost use Rattle.std.specs.BTreeMap as tree;
ghost use Rattle.std.specs.List.{AllZip};
ghost use Rattle.std.specs.Ordering.{nat_cmp};
ghost use Rattle.sw_logs.specs.Orders.{StandOnce};
ghost use Rattle.sw_keys.specs.Renamings.{key_line, lines_of, row_line, AreAllPlaces, AreRowsAt, IfMade, IsRenamed, IsRenamedAnswer, IsRenamedCall, IsRenamedKey, IsRenamedOutcome, IsRenamedReply, IsNewKey, IsRenamedRow, IsRenamedRows, KeepsFirst, Renames};

use std::alloc::{AllocError, Global};
use std::collections::BTreeMap;
use sw_logs::{Logged, copied_call, copied_lines};
use sw_rows::{Call, Query, Want};
use sw_spine::Lines;

/// The place of each key among those of a store, the last where it has several.
pub(crate) fn places_of(alloc: Global, names: &[u64]) -> Result<BTreeMap<u64, usize>, AllocError> {
    let mut places = BTreeMap::new(alloc);
    for (place, name) in names.iter().enumerate() {
        places.insert(*name, place)?;
    }
    Ok(places)
}

/// Whether a key has a place.
fn has_place(places: &BTreeMap<u64, usize>, name: u64, place: usize) -> bool
    ensures { result ≡ true → tree.get nat_cmp places.now name ≡ Some place }
{
    match places.get(&name) {
        Some(found) => *found == place,
        None => false,
    }
}

/// Whether a store's keys are each once.
pub(crate) fn are_once(names: &[u64], places: &BTreeMap<u64, usize>) -> bool
    ensures { result ≡ true → StandOnce names.now }
{
    for (place, name) in names.iter().enumerate() {
        let found = has_place(places, *name, place);
        if !found {
            return false;
        }
    }
    true
}

/// Whether a key stands at a place.
fn is_at(names: &[u64], place: usize, key: u64) -> bool
    ensures { result ≡ true → slice_get names.now place ≡ Some key }
{
    match names.get(place) {
        Some(name) => *name == key,
        None => false,
    }
}

/// Whether the key at a place keeps its number.
fn is_own(names: &[u64], place: usize) -> bool
    ensures { result ≡ true → slice_get names.now place ≡ Some (place + 1) }
{
    place < usize::MAX && is_at(names, place, place as u64 + 1)
}

/// Whether the first of a store's keys keep their numbers.
pub(crate) fn keep_first(names: &[u64], count: usize) -> bool
    ensures { result ≡ true → KeepsFirst count names.now }
{
    for place in 0..count {
        let own = is_own(names, place);
        if !own {
            return false;
        }
    }
    true
}

/// Keys of a store, with the place of each.
#[derive(Clone, Copy)]
pub(crate) struct Names<'a> {
    pub(crate) keys: &'a [u64],
    pub(crate) places: &'a BTreeMap<u64, usize>,
}

/// The place of a key, if it has one.
fn place_of(places: &BTreeMap<u64, usize>, key: u64) -> Option<usize> {
    places.get(&key).copied()
}

/// The key that one becomes, if it is among those that are renamed.
fn new_key(names: &Names<'_>, key: u64) -> Option<u64>
    ensures { IfSome result (Renames names.now.keys.now key) }
{
    let Some(place) = place_of(names.places, key) else {
        return None;
    };
    let there = is_at(names.keys, place, key);
    if !there {
        return None;
    }
    if place == usize::MAX {
        return None;
    }
    Some(place as u64 + 1)
}

/// The line of a row, of which behind the key's colon the rest is given.
fn row_text(alloc: Global, key: u64, rest: &str) -> Result<String, AllocError>
    ensures { IfOk result (λ t. string_bytes t ≡ row_line key rest.now) }
{
    format!(in alloc; "{key}:{rest}")
}

/// Whether a line is that of a row.
fn is_row(alloc: Global, line: &str, key: u64, rest: &str) -> Result<bool, AllocError>
    ensures { IfOk result (λ told. told ≡ true → line.now ≡ row_line key rest.now) }
{
    let text = row_text(alloc, key, rest)?;
    Ok(text.as_str() == line)
}

/// The key of a line of a row, and what stands behind its colon.
fn parted(line: &str) -> Option<(u64, &str)> {
    let (key, rest) = line.split_once(':')?;
    match key.parse::<u64>() {
        Ok(key) => Some((key, rest)),
        Err(_) => None,
    }
}

/// The line of a row that has these parts, under its new key.
fn row_under(
    alloc: Global,
    names: &Names<'_>,
    line: &str,
    key: u64,
    rest: &str,
) -> Result<Option<String>, AllocError>
    ensures { IfMade result (λ t. IsRenamedRow names.now.keys.now line.now (string_bytes t)) }
{
    let same = is_row(alloc, line, key, rest)?;
    if !same {
        return Ok(None);
    }
    let Some(new) = new_key(names, key) else {
        return Ok(None);
    };
    let text = row_text(alloc, new, rest)?;
    Ok(Some(text))
}

/// A row's line under the new key; None where it is no line of a row, or its key is not renamed.
fn renamed_row(alloc: Global, names: &Names<'_>, line: &str) -> Result<Option<String>, AllocError>
    ensures { IfMade result (λ t. IsRenamedRow names.now.keys.now line.now (string_bytes t)) }
{
    match parted(line) {
        Some((key, rest)) => row_under(alloc, names, line, key, rest),
        None => Ok(None),
    }
}

/// The new key of a row's line, 0 where it has none.
fn rank(names: &Names<'_>, line: &str) -> u64 {
    match parted(line) {
        Some((key, _)) => new_key(names, key).unwrap_or(0),
        None => 0,
    }
}

/// The places of rows' lines, each with its new key.
fn ranks(alloc: Global, names: &Names<'_>, rows: &[String]) -> Result<Vec<(u64, u64)>, AllocError> {
    let mut ranks = Vec::with_capacity(alloc, rows.len())?;
    for (place, row) in rows.iter().enumerate() {
        ranks.push((rank(names, row.as_str()), place as u64))?;
    }
    Ok(ranks)
}

/// The places of rows' lines in the order of their new keys.
fn order_of(alloc: Global, names: &Names<'_>, rows: &[String]) -> Result<Vec<u64>, AllocError> {
    let mut ranked = ranks(alloc, names, rows)?;
    ranked.sort_unstable();
    let mut order = Vec::with_capacity(alloc, ranked.len())?;
    for (_, place) in &ranked {
        order.push(*place)?;
    }
    Ok(order)
}

/// Whether all of these are below a number.
fn are_below(count: u64, order: &[u64]) -> bool
    ensures { IsTrue result ↔ EachIndex order.now (λ k. slice_index order.now k < count) }
{
    order.iter().all(|place| *place < count)
}

/// Whether these are the places of so many things, each once.
fn are_all_places(alloc: Global, count: usize, order: &[u64]) -> Result<bool, AllocError>
    ensures { IfOk result (λ told. told ≡ true → AreAllPlaces count order.now) }
{
    if order.len() != count {
        return Ok(false);
    }
    let below = are_below(count as u64, order);
    if !below {
        return Ok(false);
    }
    let places = places_of(alloc, order)?;
    Ok(are_once(order, &places))
}

/// The lines of rows under their new keys, in an order of their places.
fn rows_in(
    alloc: Global,
    names: &Names<'_>,
    rows: &[String],
    order: &[u64],
) -> Result<Option<Vec<String>>, AllocError>
    requires { EachIndex order.now (λ k. slice_index order.now k < length rows.now) }
    ensures { IfMade result (λ new. AreRowsAt names.now.keys.now (lines_of rows.now) order.now (lines_of new.items)) }
{
    let mut new = Vec::with_capacity(alloc, rows.len())?;
    for place in order {
        let number = *place as usize;
        let row = &rows[number];
        let made = renamed_row(alloc, names, row.as_str())?;
        let Some(text) = made else {
            return Ok(None);
        };
        new.push(text)?;
    }
    Ok(Some(new))
}

/// The lines of a reply of rows under their new keys.
fn renamed_rows(
    alloc: Global,
    names: &Names<'_>,
    lines: &[String],
) -> Result<Option<Vec<String>>, AllocError>
    ensures { IfMade result (λ new. IsRenamedRows names.now.keys.now (lines_of lines.now) (lines_of new.items)) }
{
    let Some((last, rows)) = lines.split_last() else {
        return Ok(None);
    };
    let order = order_of(alloc, names, rows)?;
    let all = are_all_places(alloc, rows.len(), order.as_slice())?;
    if !all {
        return Ok(None);
    }
    let made = rows_in(alloc, names, rows, order.as_slice())?;
    let Some(mut new) = made else {
        return Ok(None);
    };
    let end = String::from_str(alloc, last.as_str())?;
    new.push(end)?;
    Ok(Some(new))
}

/// The line of the reply to an insert that was given a key.
fn key_text(alloc: Global, key: u64) -> Result<String, AllocError>
    ensures { IfOk result (λ t. string_bytes t ≡ key_line key) }
{
    format!(in alloc; "key {key}")
}

/// Whether a line tells that an insert was given a key.
fn is_key(alloc: Global, line: &str, key: u64) -> Result<bool, AllocError>
    ensures { IfOk result (λ told. told ≡ true → line.now ≡ key_line key) }
{
    let text = key_text(alloc, key)?;
    Ok(text.as_str() == line)
}

/// The key that a line tells.
fn key_in(line: &str) -> Option<u64> {
    let digits = line.strip_prefix("key ")?;
    match digits.parse::<u64>() {
        Ok(key) => Some(key),
        Err(_) => None,
    }
}

/// The line that tells this key, under the new one.
fn key_under(
    alloc: Global,
    names: &Names<'_>,
    line: &str,
    key: u64,
) -> Result<Option<String>, AllocError>
    ensures { IfMade result (λ t. IsNewKey names.now.keys.now line.now (string_bytes t)) }
{
    let same = is_key(alloc, line, key)?;
    if !same {
        return Ok(None);
    }
    let Some(new) = new_key(names, key) else {
        return Ok(None);
    };
    let text = key_text(alloc, new)?;
    Ok(Some(text))
}

/// The line of the reply to an insert under its new key.
fn renamed_key(alloc: Global, names: &Names<'_>, line: &str) -> Result<Option<String>, AllocError>
    ensures { IfMade result (λ t. IsNewKey names.now.keys.now line.now (string_bytes t)) }
{
    match key_in(line) {
        Some(key) => key_under(alloc, names, line, key),
        None => Ok(None),
    }
}

/// Whether a line tells that an insert found no room.
fn is_full(line: &str) -> bool
    ensures { result ≡ true → line.now ≡ codes "full" }
{
    line == "full"
}

/// The line of the reply to an insert, under its new key where it tells one.
fn renamed_line(alloc: Global, names: &Names<'_>, line: &str) -> Result<Option<String>, AllocError>
    ensures { IfMade result (λ t. IsRenamedKey names.now.keys.now line.now (string_bytes t)) }
{
    let full = is_full(line);
    if full {
        let same = String::from_str(alloc, line)?;
        return Ok(Some(same));
    }
    let made = renamed_key(alloc, names, line)?;
    let Some(text) = made else {
        return Ok(None);
    };
    Ok(Some(text))
}

/// The lines of the reply to an insert under the new key.
fn renamed_keys(
    alloc: Global,
    names: &Names<'_>,
    lines: &[String],
) -> Result<Option<Vec<String>>, AllocError>
    ensures { IfMade result (λ new. AllZip (IsRenamedKey names.now.keys.now) (lines_of lines.now) (lines_of new.items)) }
{
    let mut new = Vec::with_capacity(alloc, lines.len())?;
    for place in 0..lines.len() {
        let line = &lines[place];
        let made = renamed_line(alloc, names, line.as_str())?;
        let Some(text) = made else {
            return Ok(None);
        };
        new.push(text)?;
    }
    Ok(Some(new))
}

/// The lines of the reply to a query under the new keys.
fn renamed_answer(
    alloc: Global,
    names: &Names<'_>,
    query: &Query,
    lines: &Lines,
) -> Result<Option<Lines>, AllocError>
    ensures { IfMade result (IsRenamedAnswer names.now.keys.now query.now.want lines.now) }
{
    match &query.want {
        Want::Rows(_) => {
            let made = renamed_rows(alloc, names, lines.as_slice())?;
            let Some(texts) = made else {
                return Ok(None);
            };
            Ok(Some(Lines::of(texts)))
        }
        Want::Count | Want::Sum(_) | Want::Min(_) | Want::Max(_) => {
            let same = copied_lines(alloc, lines)?;
            Ok(Some(same))
        }
    }
}

/// The lines of the reply to a call under the new keys.
fn renamed_reply(
    alloc: Global,
    names: &Names<'_>,
    call: &Call,
    lines: &Lines,
) -> Result<Option<Lines>, AllocError>
    ensures { IfMade result (IsRenamedReply names.now.keys.now call.now lines.now) }
{
    match call {
        Call::Select(query) => renamed_answer(alloc, names, query, lines),
        Call::Insert(_) => {
            let made = renamed_keys(alloc, names, lines.as_slice())?;
            let Some(texts) = made else {
                return Ok(None);
            };
            Ok(Some(Lines::of(texts)))
        }
        Call::Delete(_) | Call::DeleteWhere(_) => {
            let same = copied_lines(alloc, lines)?;
            Ok(Some(same))
        }
    }
}

/// What is known of a call's outcome, under the new keys.
fn renamed_outcome(
    alloc: Global,
    names: &Names<'_>,
    call: &Call,
    reply: &Option<Lines>,
) -> Result<Option<Option<Lines>>, AllocError>
    ensures { IfMade result (IsRenamedOutcome names.now.keys.now call.now reply.now) }
{
    match reply {
        None => Ok(Some(None)),
        Some(lines) => {
            let made = renamed_reply(alloc, names, call, lines)?;
            let Some(new) = made else {
                return Ok(None);
            };
            Ok(Some(Some(new)))
        }
    }
}

/// A call with its key renamed.
fn renamed_call(alloc: Global, names: &Names<'_>, call: &Call) -> Result<Option<Call>, AllocError>
    ensures { IfMade result (IsRenamedCall names.now.keys.now call.now) }
{
    if let Call::Delete(key) = call {
        return Ok(match new_key(names, *key) {
            Some(new) => Some(Call::Delete(new)),
            None => None,
        });
    }
    let same = copied_call(alloc, call)?;
    Ok(Some(same))
}

/// A call of a log under the new keys.
fn renamed(alloc: Global, names: &Names<'_>, logged: &Logged) -> Result<Option<Logged>, AllocError>
    ensures { IfMade result (IsRenamed names.now.keys.now logged.now) }
{
    let made = renamed_call(alloc, names, &logged.call)?;
    let Some(call) = made else {
        return Ok(None);
    };
    let told = renamed_outcome(alloc, names, &logged.call, &logged.reply)?;
    let Some(reply) = told else {
        return Ok(None);
    };
    Ok(Some(Logged {
        session: logged.session,
        start: logged.start,
        end: logged.end,
        call,
        reply,
        origin: logged.origin,
    }))
}

/// The calls of logs under the new keys; None where a reply or a call has a key that is not renamed.
pub(crate) fn renamed_calls(
    alloc: Global,
    names: &Names<'_>,
    calls: &[Logged],
) -> Result<Option<Vec<Logged>>, AllocError>
    ensures { IfMade result (λ new. AllZip (IsRenamed names.now.keys.now) calls.now new.items) }
{
    let mut new: Vec<Logged> = Vec::with_capacity(alloc, calls.len())?;
    for place in 0..calls.len() {
        let call = &calls[place];
        if new.reserve(1).is_err() {
            return Err(AllocError);
        }
        let made = renamed(alloc, names, call)?;
        let Some(copy) = made else {
            return Ok(None);
        };
        new.push_reserved(copy);
    }
    Ok(Some(new))
}
