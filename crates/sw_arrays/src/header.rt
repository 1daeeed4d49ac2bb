//! Attributes as they are given.

ghost use Rattle.std.specs.Prelude.{◌≡◌, [], map, option_map, string_bytes, IfOk, IfSome};
ghost use Rattle.sw_rows.specs.Cells.{HasPlaces};
ghost use Rattle.sw_rows.specs.Domains.{domain};
ghost use Rattle.sw_rows.specs.Gives.{Gives};
ghost use Rattle.sw_rows.specs.Header.{header_of};
ghost use Rattle.sw_arrays.specs.Columns.{columns_in, field_of, kind_numbered, kind_word};

use crate::columns::Cells;
use std::alloc::{AllocError, Global};
use sw_lang::kind_name;
use sw_rows::{Kind, Refusal, Schema, TextKey, is_name};

/// An attribute: its name; the number of its kind, 0 of int, 1 to 6 of fix1 to fix6, 7 of flag, 8 of text; and its cells.
#[repr(C)]
#[derive(Clone, Copy)]
pub struct Attribute<'a> {
    pub name: &'a [u8],
    pub kind: u32,
    pub cells: Cells<'a>,
}

/// The kind of a number.
fn kind_numbered(number: u32) -> Option<Kind>
    ensures value { option_map (domain []) result ≡ kind_numbered number }
    ensures places { IfSome result HasPlaces }
{
    match number {
        0 => Some(Kind::Int),
        1 | 2 | 3 | 4 | 5 | 6 => Some(Kind::Fix(number as u8)),
        7 => Some(Kind::Flag),
        8 => Some(Kind::Text),
        _ => None,
    }
}

/// The word of a kind's number, an empty one where no kind has it.
fn kind_word(number: u32) -> &'static str
    ensures { result.now ≡ kind_word (kind_numbered number) }
{
    match kind_numbered(number) {
        Some(kind) => kind_name(kind),
        None => "",
    }
}

/// The field of a header that an attribute spells.
fn field_of(alloc: Global, attribute: &Attribute<'_>) -> Result<String, AllocError>
    ensures { IfOk result (λ field. string_bytes field ≡ field_of attribute.now) }
{
    if !is_name(attribute.name) {
        return Ok(String::new(alloc));
    }
    let mut field = String::from_utf8_lossy(alloc, attribute.name)?;
    field.push_str(":")?;
    field.push_str(kind_word(attribute.kind))?;
    Ok(field)
}

/// The fields of a header, one for each attribute.
fn fields_of(alloc: Global, attributes: &[Attribute<'_>]) -> Result<Vec<String>, AllocError>
    ensures { IfOk result (λ fields. map (λ f. string_bytes f) fields.items ≡ map field_of attributes.now) }
{
    let mut fields = Vec::new(alloc);
    for attribute in attributes {
        fields.push(field_of(alloc, attribute)?)?;
    }
    Ok(fields)
}

/// The same, as they are read.
fn texts_of(alloc: Global, fields: &[String]) -> Result<Vec<&str>, AllocError>
    ensures { IfOk result (λ texts. map (λ t. t.now) texts.items ≡ map (λ f. string_bytes f) fields.now) }
{
    let mut texts = Vec::new(alloc);
    for field in fields {
        texts.push(field.as_str())?;
    }
    Ok(texts)
}

/// The attributes of a table, which know no texts yet.
pub(crate) fn schema_of(
    alloc: Global,
    key: TextKey,
    attributes: &[Attribute<'_>],
) -> Result<Schema, Refusal>
    ensures { Gives ⊥ (λ s. s) result (header_of (map field_of attributes.now)) }
{
    let Ok(fields) = fields_of(alloc, attributes) else {
        return Err(Refusal::NoMemory);
    };
    match texts_of(alloc, &fields) {
        Ok(texts) => Schema::of(alloc, key, &texts),
        Err(_) => Err(Refusal::NoMemory),
    }
}

/// The columns of attributes.
pub(crate) fn columns_in<'a>(
    alloc: Global,
    attributes: &[Attribute<'a>],
) -> Result<Vec<Cells<'a>>, AllocError>
    ensures { IfOk result (λ columns. columns.items ≡ columns_in attributes.now) }
{
    let mut columns = Vec::new(alloc);
    for attribute in attributes {
        columns.push(attribute.cells)?;
    }
    Ok(columns)
}
