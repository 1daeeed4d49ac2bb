//! Cells: how a text is read as a number of a kind.

ghost use Rattle.std.specs.Prelude.{[], ◌==◌, ◌<◌, position, length, IfSome, ◌≡◌, ◌≤◌};
ghost use Rattle.sw_rows.specs.Domains.{domain};
ghost use Rattle.sw_rows.specs.Cells.{cell_value, decimal, digits_after, digits_number, fitting, magnitude, number_value, scaled, signed, flag_value, HasPlaces};

use crate::kind::Kind;
use crate::limits::MOST_NUMBER;

/// A number below this has room for one more digit.
const FEW: u64 = 1_844_674_407_370_955_161;

/// The number that digits write after those of `start`, where all are digits and it fits 64 bits.
#[tactic(auto, using(crate::proofs::Tables::CellLemmas::too_large, crate::proofs::Tables::CellLemmas::one_more))]
pub fn read_digits(start: u64, digits: &[u8]) -> Option<u64>
    ensures { result ≡ fitting (digits_after start digits.now) }
{
    let mut n = start;
    for digit in digits {
        if !digit.is_ascii_digit() {
            return None;
        }
        let value = u64::from(*digit - b'0');
        n = if n < FEW {
            n * 10 + value
        } else {
            n.checked_mul(10)?.checked_add(value)?
        };
    }
    Some(n)
}

const POWERS_OF_TEN: [u64; 7] = [1, 10, 100, 1_000, 10_000, 100_000, 1_000_000];

/// A number times ten to a power.
fn scale(n: u64, power: usize) -> Option<u64>
    requires { power ≤ 6 }
    ensures { result ≡ fitting (scaled power n) }
{
    n.checked_mul(POWERS_OF_TEN[power])
}

/// The number of one or more digits.
fn read_whole(text: &[u8]) -> Option<u64>
    ensures { result ≡ fitting (digits_number text.now) }
{
    if text.is_empty() {
        return None;
    }
    read_digits(0, text)
}

/// The value of digits, a dot and decimals, times ten to the power `places`.
#[tactic(auto, using(crate::proofs::Tables::CellLemmas::decimal_fits, crate::proofs::Tables::CellLemmas::decimal_none))]
fn read_decimal(places: usize, whole: &[u8], decimals: &[u8]) -> Option<u64>
    requires { places ≤ 6 }
    ensures { result ≡ fitting (decimal places whole.now decimals.now) }
{
    if decimals.is_empty() || decimals.len() > places {
        return None;
    }
    let n = read_whole(whole)?;
    let n = read_digits(n, decimals)?;
    scale(n, places - decimals.len())
}

/// Where the first dot is.
fn dot_at(text: &[u8]) -> Option<usize>
    ensures value { result ≡ position (λ c. c == 46) text.now }
    ensures within { IfSome result (λ dot. dot < length text.now) }
{
    text.iter().position(|c| *c == b'.')
}

/// The value of digits, and perhaps a dot and decimals, times ten to the power `places`.
#[tactic(auto, using(crate::proofs::Tables::CellLemmas::scaled_fits, crate::proofs::Tables::CellLemmas::whole_magnitude))]
fn read_magnitude(places: u8, text: &[u8]) -> Option<u64>
    requires { places ≤ 6 }
    ensures { result ≡ fitting (magnitude places text.now) }
{
    if places == 0 {
        return read_whole(text);
    }
    let places = places as usize;
    match dot_at(text) {
        None => scale(read_whole(text)?, places),
        Some(dot) => read_decimal(places, &text[..dot], &text[dot + 1..]),
    }
}

/// The number of a sign and a magnitude, where it has 64 bits.
fn with_sign(is_negative: bool, magnitude: u64) -> Option<i64>
    ensures { result ≡ signed is_negative magnitude }
{
    if !is_negative {
        return i64::try_from(magnitude).ok();
    }
    if magnitude == 1 << 63 {
        return Some(i64::MIN);
    }
    match i64::try_from(magnitude) {
        Ok(n) => Some(-n),
        Err(_) => None,
    }
}

fn read_number(places: u8, text: &[u8]) -> Option<i64>
    requires { places ≤ 6 }
    ensures { result ≡ number_value places text.now }
{
    if text.len() > MOST_NUMBER {
        return None;
    }
    match text {
        [b'-', rest @ ..] => with_sign(true, read_magnitude(places, rest)?),
        [b'+', rest @ ..] => with_sign(false, read_magnitude(places, rest)?),
        _ => with_sign(false, read_magnitude(places, text)?),
    }
}

fn read_flag(text: &[u8]) -> Option<i64>
    ensures { result ≡ flag_value text.now }
{
    match text {
        b"true" => Some(1),
        b"false" => Some(0),
        _ => None,
    }
}

/// The stored number of a cell's text, as `read_cell` gives it, of bytes that may be no text.
pub fn read_cell_bytes(kind: Kind, text: &[u8]) -> Option<i64>
    requires { HasPlaces kind }
    ensures { result ≡ cell_value (domain [] kind) text.now }
{
    match kind {
        Kind::Int => read_number(0, text),
        Kind::Fix(places) => read_number(places, text),
        Kind::Flag => read_flag(text),
        Kind::Text => None,
    }
}

/// The stored number of a cell's text, and None where the text is no cell of its kind.
///
/// An `Int` is an optional sign and one or more digits. A `Fix` may have a dot and 1 to as many decimals as its kind
/// has, and is stored as its number times ten to that power. Either has at most `MOST_NUMBER` bytes, and its stored
/// number has 64 signed bits. A `Flag` is `true`, stored as 1, or `false`, stored as 0. A `Text` has no number without
/// a schema that knows it: None.
pub fn read_cell(kind: Kind, text: &str) -> Option<i64>
    requires { HasPlaces kind }
    ensures { result ≡ cell_value (domain [] kind) text.now }
{
    read_cell_bytes(kind, text.as_bytes())
}
