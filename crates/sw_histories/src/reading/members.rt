//! Members of an object, and arrays of texts.

ghost use Rattle.std.specs.Prelude.{◌≡◌, [], map, option_and_then, option_map, IfOk};
ghost use Rattle.serde_json.specs.View.{view};
ghost use Rattle.sw_histories.specs.RecordReading.{array_at, has_members, in_range, number_at, text_at, texts_after};

use serde_json::Value;
use std::alloc::{AllocError, Global};

/// Whether a value is an object of so many members.
pub(super) fn has_members(value: &Value, count: usize) -> bool
    ensures { result ≡ has_members count (view value.now) }
{
    match value.as_object() {
        Some(members) => members.len() == count,
        None => false,
    }
}

/// The items of the array that is the member of a name.
pub(super) fn array_at<'a>(value: &'a Value, name: &str) -> Option<&'a [Value]>
    ensures { option_map (λ items. map view items.now) result ≡ array_at name.now (view value.now) }
{
    match value.get(name)?.as_array() {
        Some(items) => Some(items.as_slice()),
        None => None,
    }
}

/// The whole number that is the member of a name, where it is in a range.
pub(super) fn number_at(value: &Value, name: &str, least: u64, most: u64) -> Option<u64>
    ensures { result ≡ option_and_then (in_range least most) (number_at name.now (view value.now)) }
{
    let number = value.get(name)?.as_u64()?;
    if least <= number && number <= most {
        return Some(number);
    }
    None
}

/// The texts of an array; None where an item is no text.
pub(super) fn texts<'a>(
    alloc: Global,
    items: &'a [Value],
) -> Result<Option<Vec<&'a str>>, AllocError>
    ensures { IfOk result (λ o. option_map (λ v. map (λ t. t.now) v.items) o ≡ texts_after [] (map view items.now)) }
{
    let mut found = Vec::new(alloc);
    let mut rest = items;
    while let Some((value, later)) = rest.split_first() {
        match value.as_str() {
            Some(text) => found.push(text)?,
            None => return Ok(None),
        }
        rest = later;
    }
    Ok(Some(found))
}

pub(super) fn text_at<'a>(value: &'a Value, name: &str) -> Option<&'a str>
    ensures { option_map (λ t. t.now) result ≡ text_at name.now (view value.now) }
{
    value.get(name)?.as_str()
}
