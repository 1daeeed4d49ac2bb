//! What is written of a cell.

ghost use Rattle.std.specs.Prelude.{[], ◌≡◌, decimal, option_map, None, Some, if◌then◌else◌};
ghost use Rattle.std.specs.Fmt.{signed_decimal};
ghost use Rattle.std.specs.List.{list_all};
ghost use Rattle.std.specs.Str.{is_utf8};
ghost use Rattle.sw_rows.specs.Texts.{is_text};
ghost use Rattle.sw_import.specs.Forms.{flag_of};
ghost use Rattle.sw_import.specs.declared.forms.Form.TheVariants as form;
ghost use Rattle.sw_import.specs.declared.rules.Long.TheVariants as long;
ghost use Rattle.sw_import.specs.Made.{Refused, Written, cell_made, flag_text, if_some, is_plain_byte, long_cell, long_text, longest_text, outcome_of, value_cell};

use crate::dates::{days_of, seconds_of};
use crate::dictionary::Dictionary;
use crate::forms::{Form, flag_of, number_of};
use crate::rules::{Blank, Long, Rules};
use sw_rows::{MOST_BYTES_OF_TEXT, read_text};

/// What is written of a cell.
#[derive(Clone, Copy)]
pub(crate) enum Made<'c> {
    /// These bytes.
    Bytes(&'c [u8]),
    /// A number.
    Number(i64),
    /// The number of a text.
    Code(u64),
    /// Its row is left out.
    LeftOut,
    /// Nothing: it is no cell of its form.
    Refused,
}

/// A number that was found, or else a refusal.
fn number_or_refused<'c>(found: Option<i64>) -> Made<'c>
    ensures { outcome_of result ≡ if_some (option_map signed_decimal found) }
{
    match found {
        Some(number) => Made::Number(number),
        None => Made::Refused,
    }
}

/// The number of a text that was found, or else a refusal.
fn code_or_refused<'c>(found: Option<u64>) -> Made<'c>
    ensures { outcome_of result ≡ if_some (option_map (λ n. decimal n) found) }
{
    match found {
        Some(number) => Made::Code(number),
        None => Made::Refused,
    }
}

/// The bytes of a cell, where it is one, or else a refusal.
fn same_or_refused(is_cell: bool, cell: &[u8]) -> Made<'_>
    ensures { outcome_of result ≡ (if is_cell then Written cell.now else Refused) }
{
    if is_cell {
        Made::Bytes(cell)
    } else {
        Made::Refused
    }
}

/// What is written of a cell of flags.
fn flag_made<'c>(cell: &[u8]) -> Made<'c>
    ensures { outcome_of result ≡ if_some (option_map flag_text (flag_of cell.now)) }
{
    match flag_of(cell) {
        Some(true) => Made::Bytes(b"true"),
        Some(false) => Made::Bytes(b"false"),
        None => Made::Refused,
    }
}

/// Whether all bytes are of printed ASCII.
fn are_plain(bytes: &[u8]) -> bool
    ensures { result ≡ list_all is_plain_byte bytes.now }
{
    bytes.iter().all(|byte| *byte >= 32 && *byte < 127)
}

/// Whether bytes may be the text of a cell. Those of most texts are seen to be one at sight.
#[tactic(auto, using(crate::proofs::PlainLemmas::plain_text))]
pub(crate) fn is_text(cell: &[u8]) -> bool
    ensures { result ≡ is_text cell.now }
{
    if cell.len() <= MOST_BYTES_OF_TEXT && are_plain(cell) {
        return true;
    }
    read_text(cell).is_some()
}

/// The longest beginning of bytes that may be the text of a cell.
fn longest_text(cell: &[u8]) -> &[u8]
    ensures { result.now ≡ longest_text cell.now }
{
    let most = cell.len().min(MOST_BYTES_OF_TEXT);
    for cut in 0..most {
        let (front, _) = cell.split_at(most - cut);
        if is_text(front) {
            return front;
        }
    }
    &[]
}

/// What is written of a cell of UTF-8 that is too long for a text, or has bytes that no text has.
fn long_made(long: Long, cell: &[u8]) -> Made<'_>
    ensures { outcome_of result ≡ long_text long cell.now }
{
    match long {
        Long::Cut => Made::Bytes(longest_text(cell)),
        Long::Drop => Made::LeftOut,
        Long::Refuse | Long::Number => Made::Refused,
    }
}

/// What is written of a cell that is no text: one that is not UTF-8 is refused, whatever was chosen.
fn no_text_made(long: Long, cell: &[u8]) -> Made<'_>
    ensures { outcome_of result ≡ long_cell long cell.now }
{
    match utf8_of(cell) {
        Some(_) => long_made(long, cell),
        None => Made::Refused,
    }
}

/// What is written of a cell of texts.
fn text_made(long: Long, cell: &[u8]) -> Made<'_>
    ensures { outcome_of result ≡ value_cell long form.Text [] cell.now }
{
    if is_text(cell) {
        Made::Bytes(cell)
    } else {
        no_text_made(long, cell)
    }
}

/// Bytes as text, where they are UTF-8.
#[tactic(auto, using(crate::proofs::MadeLemmas::utf8_true, crate::proofs::MadeLemmas::utf8_false))]
fn utf8_of(cell: &[u8]) -> Option<&str>
    ensures { option_map (λ text. text.now) result ≡ (if is_utf8 cell.now then Some cell.now else None) }
{
    match str::from_utf8(cell) {
        Ok(text) => Some(text),
        Err(_) => None,
    }
}

/// What is written of a cell of texts for which numbers stand.
fn code_made<'c>(dictionary: &Dictionary, cell: &[u8]) -> Made<'c>
    ensures { outcome_of result ≡ value_cell long.Number form.Code dictionary.now cell.now }
{
    match utf8_of(cell) {
        Some(text) => code_or_refused(dictionary.number(text)),
        None => Made::Refused,
    }
}

/// What is written of a cell that has a value.
fn value_made<'c>(long: Long, form: Form, dictionary: &Dictionary, cell: &'c [u8]) -> Made<'c>
    ensures { outcome_of result ≡ value_cell long form dictionary.now cell.now }
{
    match form {
        Form::Number(places) => same_or_refused(number_of(places, cell).is_some(), cell),
        Form::Flag => flag_made(cell),
        Form::Seconds => number_or_refused(seconds_of(cell)),
        Form::Days => number_or_refused(days_of(cell)),
        Form::Text => text_made(long, cell),
        Form::Code => code_made(dictionary, cell),
    }
}

/// What is written of a cell of a form.
pub(crate) fn make<'c>(
    rules: &Rules<'c>,
    form: Form,
    dictionary: &Dictionary,
    cell: &'c [u8],
) -> Made<'c>
    ensures { outcome_of result ≡ cell_made rules.now form dictionary.now cell.now }
{
    if form.takes_blanks() || !rules.is_blank(cell) {
        return value_made(rules.long, form, dictionary, cell);
    }
    match rules.blank {
        Blank::Drop => Made::LeftOut,
        Blank::Value(value) => value_made(rules.long, form, dictionary, value),
        Blank::Refuse | Blank::Text => Made::Refused,
    }
}
