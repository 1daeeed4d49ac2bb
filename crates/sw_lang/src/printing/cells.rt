//! Cells and sums go out as text.

ghost use Rattle.std.specs.Prelude.{[], ◌≡◌, ◌<◌, ◌≤◌, ◌+◌, ◌^◌, ◌++◌, codes, decimal};
ghost use Rattle.sw_lang.specs.Replies.{cell_text, extreme_text, fixed_text, padded_digits, sum_text, with_point};
ghost use Rattle.sw_lang.specs.Sinks.{Wrote};
ghost use Rattle.sw_rows.specs.Domains.{domain};
ghost use Rattle.sw_rows.specs.Domains as kind;
ghost use Rattle.sw_rows.specs.Header.{texts_of};
ghost use Rattle.sw_lang.specs.Shown.{AreSound, domain_of};
ghost use Rattle.sw_lang.specs.declared.domain.AttrValues.TheVariants as values;

use crate::domain::AttrValues;
use crate::printing::sinks::{write_all, write_number};
use crate::printing::texts::write_quoted;
use sw_rows::{Kind, Refusal, Schema, Sink};

const POWERS_OF_TEN: [u128; 7] = [1, 10, 100, 1_000, 10_000, 100_000, 1_000_000];

/// Ten to a power.
fn power_of_ten(power: u8) -> u128
    requires { power ≤ 6 }
    ensures value { result ≡ 10 ^ power }
    ensures some { 1 ≤ result }
    ensures few { result ≤ 1000000 }
{
    POWERS_OF_TEN[power as usize]
}

/// A dot, and just so many decimals.
fn write_fraction<W: Sink>(places: u8, fraction: u64, out: &mut W) -> Result<(), Refusal>
    requires some { 1 ≤ places }
    requires few { places ≤ 6 }
    requires below { fraction < 10 ^ places }
    ensures { Wrote W.taken W.failed out.old out.new result (codes "." ++ padded_digits places (decimal fraction)) }
{
    let mut text = *b".000000";
    let end = places as usize + 1;
    itoa::write_digits(fraction, &mut text, end);
    write_all(out, &text[..end])
}

/// Units, of which ten to the power `places` are one: the whole part, a dot and the decimals.
fn write_with_point<W: Sink>(places: u8, units: u128, out: &mut W) -> Result<(), Refusal>
    requires some { 1 ≤ places }
    requires few { places ≤ 6 }
    ensures { Wrote W.taken W.failed out.old out.new result (with_point places units) }
{
    let one = power_of_ten(places);
    let fraction = (units % one) as u64;
    write_number(units / one, out)?;
    write_fraction(places, fraction, out)
}

/// The same below 0.
fn write_below_zero<W: Sink>(places: u8, units: u128, out: &mut W) -> Result<(), Refusal>
    requires some { 1 ≤ places }
    requires few { places ≤ 6 }
    ensures { Wrote W.taken W.failed out.old out.new result (codes "-" ++ with_point places units) }
{
    write_all(out, b"-")?;
    write_with_point(places, units, out)
}

/// A number of units with a sign.
fn write_fixed<W: Sink>(places: u8, units: i128, out: &mut W) -> Result<(), Refusal>
    requires some { 1 ≤ places }
    requires few { places ≤ 6 }
    ensures { Wrote W.taken W.failed out.old out.new result (fixed_text places units) }
{
    if units < 0 {
        write_below_zero(places, units.unsigned_abs(), out)
    } else {
        write_with_point(places, units.unsigned_abs(), out)
    }
}

/// Writes a number or a flag of a kind.
fn write_number_cell<W: Sink>(kind: Kind, cell: &i64, out: &mut W) -> Result<(), Refusal>
    requires { AreSound (values.Numbers kind) }
    ensures { Wrote W.taken W.failed out.old out.new result (cell_text (domain [] kind) cell.now) }
{
    match kind {
        Kind::Int => write_number(*cell, out),
        Kind::Fix(places) => write_fixed(places, i128::from(*cell), out),
        Kind::Flag if *cell == 1 => write_all(out, b"true"),
        Kind::Flag => write_all(out, b"false"),
        Kind::Text => unreachable!(),
    }
}

/// Writes the text of a code.
fn write_text_cell<W: Sink>(schema: &Schema, cell: &i64, out: &mut W) -> Result<(), Refusal>
    ensures { Wrote W.taken W.failed out.old out.new result (cell_text (kind.Text (texts_of schema.now)) cell.now) }
{
    match schema.text(*cell) {
        Some(text) => write_quoted(text.as_bytes(), out),
        None => write_quoted(b"", out),
    }
}

/// Writes a cell.
pub(crate) fn write_cell<W: Sink>(
    values: AttrValues,
    cell: &i64,
    out: &mut W,
) -> Result<(), Refusal>
    requires { AreSound values }
    ensures { Wrote W.taken W.failed out.old out.new result (cell_text (domain_of values.entry) cell.now) }
{
    match values {
        AttrValues::Numbers(kind) => write_number_cell(kind, cell, out),
        AttrValues::Texts(schema) => write_text_cell(schema, cell, out),
    }
}

/// Writes a sum; one of codes, for which no line asks, is a whole number.
pub(crate) fn write_sum<W: Sink>(values: AttrValues, sum: i128, out: &mut W) -> Result<(), Refusal>
    requires { AreSound values }
    ensures { Wrote W.taken W.failed out.old out.new result (sum_text (domain_of values.entry) sum) }
{
    match values {
        AttrValues::Numbers(Kind::Fix(places)) => write_fixed(places, sum, out),
        AttrValues::Numbers(Kind::Int | Kind::Flag | Kind::Text) | AttrValues::Texts(_) => {
            write_number(sum, out)
        }
    }
}

/// Writes the least or the greatest cell, if there is one.
pub(crate) fn write_extreme<W: Sink>(
    values: AttrValues,
    extreme: Option<i64>,
    out: &mut W,
) -> Result<(), Refusal>
    requires { AreSound values }
    ensures { Wrote W.taken W.failed out.old out.new result (extreme_text (domain_of values.entry) extreme) }
{
    match extreme {
        Some(cell) => write_cell(values, &cell, out),
        None => write_all(out, b"none"),
    }
}
