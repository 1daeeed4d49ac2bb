//! A file's object without its entries and its rows, which are passed over, and where they stand.

ghost use Rattle.std.specs.Prelude.{◌≡◌, ◌<◌, length, Err, None, IfOk, OnOk};
ghost use Rattle.serde_json.specs.Read.{read};
ghost use Rattle.sw_histories.specs.FromTokens.{data_from, items_from, members_from};
ghost use Rattle.sw_histories.specs.Outlines.{HasEmptied, HasOutlined, HasPassed, IsOutline, IsOutlineOf, NoObject, Passes, after_member, after_members, is_passed, items_entered, standing};

use crate::reading::values::{NoValue, read, read_from};
use json::{Reader, Scratch, Token};
use serde_json::{Map, Value};
use std::alloc::Global;
use sw_spine::MOST_ENTRIES;

/// Passes over a member of an object.
fn pass(reader: &mut Reader<'_>) -> Result<(), NoValue>
    ensures { Passes result (after_member reader.old) reader.new }
{
    match reader.next_key() {
        Ok(Some(_)) => match reader.skip_value(126) {
            Ok(()) => Ok(()),
            Err(_) => Err(NoValue::Invalid),
        },
        _ => Err(NoValue::Invalid),
    }
}

/// Passes over so many members of an object.
fn pass_all(reader: &mut Reader<'_>, count: usize) -> Result<(), NoValue>
    ensures { Passes result (after_members count reader.old) reader.new }
{
    let mut left = count;
    while left > 0 {
        if let Err(e) = pass(reader) {
            return Err(e);
        }
        left -= 1;
    }
    Ok(())
}

/// Goes to the items of the array that is the value of the member after so many others, in the object that comes next.
pub(crate) fn enter(reader: &mut Reader<'_>, place: usize) -> Result<(), NoValue>
    ensures { Passes result (items_entered place reader.old) reader.new }
{
    let Some(Token::BeginObject) = reader.next() else {
        return Err(NoValue::Invalid);
    };
    if let Err(e) = pass_all(reader, place) {
        return Err(e);
    }
    let Ok(Some(_)) = reader.next_key() else {
        return Err(NoValue::Invalid);
    };
    match reader.next() {
        Some(Token::BeginArray) => Ok(()),
        _ => Err(NoValue::Invalid),
    }
}

/// Counts the values of an array that was begun, up to its end. The count stops above the most entries of a history.
fn count_items(alloc: Global, reader: &mut Reader<'_>, depth: usize) -> Result<usize, NoValue>
    ensures ok { IfOk result (HasPassed depth reader.old reader.new) }
    ensures shorter { OnOk result (length reader.new < length reader.old) }
    ensures err { result ≡ Err NoValue.Invalid → items_from depth reader.old ≡ None }
{
    let mut count = 0usize;
    'items: while !reader.take_end_array() {
        let item = read(alloc, reader, depth)?;
        drop(item);
        if count <= MOST_ENTRIES {
            count += 1;
        }
    }
    Ok(count)
}

/// An array's number of values and the array without them, or another value as it is.
fn read_emptied(alloc: Global, reader: &mut Reader<'_>) -> Result<(Value, Option<usize>), NoValue>
    ensures ok { IfOk result (HasEmptied reader.old reader.new) }
    ensures shorter { OnOk result (length reader.new < length reader.old) }
    ensures err { result ≡ Err NoValue.Invalid → data_from 126 reader.old ≡ None }
{
    match reader.next() {
        Some(Token::BeginArray) => match count_items(alloc, reader, 125) {
            Ok(count) => Ok((Value::Array(Vec::new(alloc)), Some(count))),
            Err(e) => Err(e),
        },
        Some(token) => match read_from(alloc, reader, token, 126) {
            Ok(value) => Ok((value, None)),
            Err(e) => Err(e),
        },
        None => Err(NoValue::Invalid),
    }
}

/// Whether the items of the value of a member are passed over.
fn is_passed(name: &str) -> bool
    ensures { result ≡ is_passed name.now }
{
    name == "entries" || name == "rows"
}

/// The value of a member of this name, without its items where these are passed over, and how many they are.
fn read_member(
    alloc: Global,
    reader: &mut Reader<'_>,
    name: &str,
) -> Result<(Value, Option<usize>), NoValue>
    ensures ok { IfOk result (HasOutlined name.now reader.old reader.new) }
    ensures shorter { OnOk result (length reader.new < length reader.old) }
    ensures err { result ≡ Err NoValue.Invalid → data_from 126 reader.old ≡ None }
{
    if is_passed(name) {
        return read_emptied(alloc, reader);
    }
    match read(alloc, reader, 126) {
        Ok(value) => Ok((value, None)),
        Err(e) => Err(e),
    }
}

/// Where the items of an array stand, which is the value of the member after so many others; and how many they are, a
/// count that stops above the most entries of a history.
#[derive(Clone, Copy, Drop)]
pub(crate) struct ItemsAt {
    pub(crate) place: usize,
    pub(crate) count: usize,
}

/// An array of a text's object: the text, and where the array's items stand.
#[derive(Clone, Copy, Drop)]
pub(crate) struct ArrayOf<'t> {
    pub(crate) text: &'t str,
    pub(crate) at: ItemsAt,
}

/// An object without its entries and its rows.
#[derive(Drop)]
pub(crate) struct Outline {
    pub(crate) members: Map<String, Value>,
    pub(crate) entries: Option<ItemsAt>,
    pub(crate) rows: Option<ItemsAt>,
}

/// Where the items of the member that is sought stand, after the member after so many others.
fn standing(
    sought: &str,
    before: Option<ItemsAt>,
    name: &str,
    place: usize,
    counted: Option<usize>,
) -> Option<ItemsAt>
    ensures { result ≡ standing sought.now before name.now place counted }
{
    if name != sought {
        return before;
    }
    match counted {
        Some(count) => Some(ItemsAt { place, count }),
        None => None,
    }
}

/// The members of an object that was begun, up to its end, and the places of its entries and its rows.
fn outline_members(alloc: Global, reader: &mut Reader<'_>) -> Result<Outline, NoValue>
    ensures ok { IfOk result (IsOutline reader.old reader.new) }
    ensures err { result ≡ Err NoValue.Invalid → members_from 126 reader.old ≡ None }
{
    let mut found = Map::new(alloc);
    let mut entries = None;
    let mut rows = None;
    let mut place = 0usize;
    'members: while let Some(name) = reader.next_key()? {
        let key = String::from_str(alloc, name)?;
        let (member, counted) = read_member(alloc, reader, name)?;
        drop(found.insert(key, member)?);
        entries = standing("entries", entries, name, place, counted);
        rows = standing("rows", rows, name, place, counted);
        let Some(next) = place.checked_add(1) else {
            return Err(NoValue::Memory);
        };
        place = next;
    }
    Ok(Outline {
        members: found,
        entries,
        rows,
    })
}

/// The outline of a text's object. Refused `Invalid` where the text is no JSON of an object.
pub(crate) fn read_outline(
    alloc: Global,
    text: &str,
    scratch: &mut Scratch,
) -> Result<Outline, NoValue>
    ensures ok { IfOk result (IsOutlineOf text.now) }
    ensures err { result ≡ Err NoValue.Invalid → NoObject (read text.now) }
{
    let Ok(mut reader) = Reader::new(text, scratch) else {
        return Err(NoValue::Memory);
    };
    let Some(Token::BeginObject) = reader.next() else {
        return Err(NoValue::Invalid);
    };
    let outline = match outline_members(alloc, &mut reader) {
        Ok(outline) => outline,
        Err(e) => return Err(e),
    };
    match reader.next() {
        Some(_) => Err(NoValue::Invalid),
        None => Ok(outline),
    }
}
