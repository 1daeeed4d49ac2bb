//! What the values of an attribute are.

ghost use Rattle.std.specs.Prelude.{◌≡◌, ◌<◌, ℕ, List, length};
ghost use Rattle.sw_rows.specs.Cells.{HasPlaces};
ghost use Rattle.sw_rows.specs.Domains.{domain};
ghost use Rattle.sw_rows.specs.Spelling.{kind_text};
ghost use Rattle.sw_lang.specs.Replies.{kind_at};
ghost use Rattle.sw_lang.specs.Shown.{AreSound, domain_of};

use sw_rows::{Kind, Schema};

/// A kind as a header has it.
pub fn kind_name(kind: Kind) -> &'static str
    ensures { (texts : List (List ℕ)) → HasPlaces kind → result.now ≡ kind_text (domain texts kind) }
{
    match kind {
        Kind::Int => "int",
        Kind::Fix(1) => "fix1",
        Kind::Fix(2) => "fix2",
        Kind::Fix(3) => "fix3",
        Kind::Fix(4) => "fix4",
        Kind::Fix(5) => "fix5",
        Kind::Fix(_) => "fix6",
        Kind::Flag => "flag",
        Kind::Text => "text",
    }
}

/// The values of an attribute: numbers or flags of a kind, or the texts that a schema knows.
#[derive(Clone, Copy)]
pub(crate) enum AttrValues<'a> {
    Numbers(Kind),
    Texts(&'a Schema),
}

/// The values of an attribute.
pub(crate) fn attr_values(schema: &Schema, attr: usize) -> AttrValues<'_>
    requires { attr < length schema.now }
    ensures domain { domain_of result ≡ kind_at schema.now attr }
    ensures sound { AreSound result }
{
    match schema.kind(attr) {
        Kind::Text => AttrValues::Texts(schema),
        kind => AttrValues::Numbers(kind),
    }
}

/// The values of an attribute, or whole numbers where the table has no such attribute.
pub(crate) fn values_or_int(schema: &Schema, attr: usize) -> AttrValues<'_>
    ensures domain { domain_of result ≡ kind_at schema.now attr }
    ensures sound { AreSound result }
{
    if attr < schema.len() {
        attr_values(schema, attr)
    } else {
        AttrValues::Numbers(Kind::Int)
    }
}
