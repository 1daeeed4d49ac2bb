//! The call of a line.

ghost use Rattle.std.specs.Prelude.{◌≡◌, ◌<◌, ℤ, List, length, IfOk, IfSome, ◌==◌};
ghost use Rattle.sw_lang.specs.Shown.{AreSound, domain_of};
ghost use Rattle.sw_lang.specs.Agreement.{AnswersRelated};
ghost use Rattle.sw_lang.specs.Reading.{aggregate_at, asked, call_at, call_of, cells_at, delete_at, delete_key, delete_where, insert_at, is_comment, line_at, names_at, nothing_left, past_comma, refusal_of, refusal_over_known, refused, refused_over_known, select_at, term_at, terms_at, where_at, Answers, Gives, Tells, TellsNext, TellsRest};
ghost use Rattle.sw_lang.specs.Tokens.{tok, tokens};
ghost use Rattle.sw_lang.specs.Grammar.{IsLine};
ghost use Rattle.sw_lang.specs.Fits.{FitsCall};
ghost use Rattle.sw_rows.specs.Header.{IsSchema};

use crate::domain::{AttrValues, attr_values};
use crate::fault::{Fault, ParseError, bad};
use crate::reading::single::{is_comma, is_word, key_at, name_at, number_name_at, op_at, value_at};
use crate::reading::term::{Term, add_term};
use crate::reading::token::{Token, next_token, skip_blanks};
use std::alloc::Global;
use sw_rows::{Call, Conds, Names, Query, Refusal, Schema, Want, Why};

/// The greatest length of a line, in bytes.
pub const MOST_LINE: usize = 4096;

#[tactic(auto, unfolding(crate::specs::Reading::term_at))]
fn term_at<'a>(
    alloc: Global,
    schema: &Schema,
    text: &'a [u8],
) -> Result<(Term, &'a [u8]), ParseError>
    ensures gives { Gives (λ p. (p.0, tokens p.1.now)) result (term_at schema.now (tokens text.now)) }
    ensures shorter { IfOk result (λ p. length p.1.now < length text.now) }
{
    let (attr, rest) = name_at(alloc, schema, text)?;
    let values = attr_values(schema, attr);
    let (op, rest) = op_at(values, rest)?;
    let (value, rest) = value_at(values, rest)?;
    Ok((Term { attr, op, value }, rest))
}

/// Adds the conditions of terms with "and" between, up to the end.
fn add_terms(
    alloc: Global,
    schema: &Schema,
    text: &[u8],
    conds: &mut Conds,
) -> Result<(), ParseError>
    ensures { Gives (λ _. conds.new) result (terms_at schema.now conds.old (tokens text.now)) }
{
    let mut rest = text;
    loop {
        let (term, after) = term_at(alloc, schema, rest)?;
        add_term(conds, term)?;
        let Some((token, next)) = next_token(after) else {
            return Ok(());
        };
        if !is_word(token, b"and") {
            return Err(bad(Why::Word));
        }
        rest = next;
    }
}

#[tactic(auto, unfolding(crate::specs::Reading::where_at))]
fn where_at(alloc: Global, schema: &Schema, text: &[u8]) -> Result<Conds, ParseError>
    ensures { Gives (λ c. c) result (where_at schema.now (tokens text.now)) }
{
    let Some((token, rest)) = next_token(text) else {
        return Ok(Conds::new(alloc));
    };
    if !is_word(token, b"where") {
        return Err(bad(Why::Word));
    }
    let mut conds = Conds::new(alloc);
    add_terms(alloc, schema, rest, &mut conds)?;
    Ok(conds)
}

/// Adds the names with commas between, and answers the bytes after them.
fn add_names<'a>(
    alloc: Global,
    schema: &Schema,
    text: &'a [u8],
    names: &mut Names,
) -> Result<&'a [u8], ParseError>
    ensures { Gives (λ rest. (names.new, tokens rest.now)) result (names_at schema.now names.old (tokens text.now)) }
{
    let mut rest = text;
    loop {
        let (name, after) = name_at(alloc, schema, rest)?;
        let has_room = names.len() < 7;
        names.push(name)?;
        let Some((token, next)) = next_token(after) else {
            return Ok(after);
        };
        if !is_comma(token) {
            return Ok(after);
        }
        if !has_room {
            return Err(bad(Why::Word));
        }
        rest = next;
    }
}

fn asked(alloc: Global, schema: &Schema, want: Want, text: &[u8]) -> Result<Call, ParseError>
    ensures { Gives (λ c. c) result (asked schema.now want (tokens text.now)) }
{
    let conds = where_at(alloc, schema, text)?;
    Ok(Call::Select(Query { conds, want }))
}

#[tactic(auto, unfolding(crate::specs::Reading::select_at))]
fn select_at(alloc: Global, schema: &Schema, text: &[u8]) -> Result<Call, ParseError>
    ensures { Gives (λ c. c) result (select_at schema.now (tokens text.now)) }
{
    let mut names = Names::new(alloc);
    let rest = add_names(alloc, schema, text, &mut names)?;
    let call = asked(alloc, schema, Want::Rows(names), rest)?;
    Ok(call)
}

#[tactic(auto, unfolding(crate::specs::Reading::aggregate_at))]
fn sum_at(alloc: Global, schema: &Schema, text: &[u8]) -> Result<Call, ParseError>
    ensures { Gives (λ c. c) result (aggregate_at schema.now Want.Sum (tokens text.now)) }
{
    let (attr, rest) = number_name_at(alloc, schema, text)?;
    let call = asked(alloc, schema, Want::Sum(attr), rest)?;
    Ok(call)
}

#[tactic(auto, unfolding(crate::specs::Reading::aggregate_at))]
fn min_at(alloc: Global, schema: &Schema, text: &[u8]) -> Result<Call, ParseError>
    ensures { Gives (λ c. c) result (aggregate_at schema.now Want.Min (tokens text.now)) }
{
    let (attr, rest) = number_name_at(alloc, schema, text)?;
    let call = asked(alloc, schema, Want::Min(attr), rest)?;
    Ok(call)
}

#[tactic(auto, unfolding(crate::specs::Reading::aggregate_at))]
fn max_at(alloc: Global, schema: &Schema, text: &[u8]) -> Result<Call, ParseError>
    ensures { Gives (λ c. c) result (aggregate_at schema.now Want.Max (tokens text.now)) }
{
    let (attr, rest) = number_name_at(alloc, schema, text)?;
    let call = asked(alloc, schema, Want::Max(attr), rest)?;
    Ok(call)
}

/// The bytes past the comma that stands before a value, or all of them before the first.
#[tactic(auto, unfolding(crate::specs::Reading::past_comma))]
fn past_comma(is_first: bool, text: &[u8]) -> Result<&[u8], Fault>
    ensures gives { (zs : List ℤ) → is_first ≡ (length zs == 0) → TellsRest result (past_comma zs (tokens text.now)) }
{
    if is_first {
        return Ok(text);
    }
    let Some((token, rest)) = next_token(text) else {
        return Err(Fault::Bad(Why::End));
    };
    if !is_comma(token) {
        return Err(Fault::Bad(Why::Word));
    }
    Ok(rest)
}

#[tactic(auto, unfolding(crate::specs::Reading::next_value))]
fn next_value<'a>(
    is_first: bool,
    values: AttrValues,
    text: &'a [u8],
) -> Result<(i64, &'a [u8]), Fault>
    requires { AreSound values }
    ensures { (zs : List ℤ) → is_first ≡ (length zs == 0) → TellsNext zs (domain_of values.entry) text.now result }
{
    let rest = past_comma(is_first, text)?;
    let (value, rest) = value_at(values, rest)?;
    Ok((value, rest))
}

fn nothing_left(text: &[u8]) -> Result<(), Fault>
    ensures { Tells (λ u. u) result (nothing_left tt (tokens text.now)) }
{
    match next_token(text) {
        Some(_) => Err(Fault::Bad(Why::Word)),
        None => Ok(()),
    }
}

fn cells_at(schema: &Schema, text: &[u8]) -> Result<[i64; 8], Fault>
    ensures { Tells (λ cells. cells) result (cells_at schema.now (tokens text.now)) }
{
    let mut cells = [0; 8];
    let mut rest = text;
    for attr in 0..schema.len() {
        let (value, after) = next_value(attr == 0, attr_values(schema, attr), rest)?;
        cells[attr] = value;
        rest = after;
    }
    nothing_left(rest)?;
    Ok(cells)
}

fn insert_at(schema: &Schema, text: &[u8]) -> Result<Call, Fault>
    ensures { Tells (λ c. c) result (insert_at schema.now (tokens text.now)) }
{
    let cells = cells_at(schema, text)?;
    Ok(Call::Insert(cells))
}

#[tactic(auto, unfolding(crate::specs::Reading::delete_key))]
fn delete_key(text: &[u8]) -> Result<Call, Fault>
    ensures { Tells (λ c. c) result (delete_key (tokens text.now)) }
{
    let (key, rest) = key_at(text)?;
    nothing_left(rest)?;
    Ok(Call::Delete(key))
}

#[tactic(auto, unfolding(crate::specs::Reading::delete_where))]
fn delete_where(alloc: Global, schema: &Schema, text: &[u8]) -> Result<Call, ParseError>
    ensures { Gives (λ c. c) result (delete_where schema.now (tokens text.now)) }
{
    let mut conds = Conds::new(alloc);
    add_terms(alloc, schema, text, &mut conds)?;
    Ok(Call::DeleteWhere(conds))
}

#[tactic(auto, unfolding(crate::specs::Reading::delete_at))]
fn delete_at(alloc: Global, schema: &Schema, text: &[u8]) -> Result<Call, ParseError>
    ensures { Gives (λ c. c) result (delete_at schema.now (tokens text.now)) }
{
    let Some((token, rest)) = next_token(text) else {
        return Err(bad(Why::End));
    };
    if is_word(token, b"where") {
        return delete_where(alloc, schema, rest);
    }
    Ok(delete_key(text)?)
}

/// The call that begins with this token.
#[tactic(auto, unfolding(crate::specs::Reading::call_of))]
fn call_of(alloc: Global, schema: &Schema, first: Token, text: &[u8]) -> Result<Call, ParseError>
    ensures { Gives (λ c. c) result (call_of schema.now (tok first.entry) (tokens text.now)) }
{
    if is_word(first, b"select") {
        return select_at(alloc, schema, text);
    }
    if is_word(first, b"count") {
        return asked(alloc, schema, Want::Count, text);
    }
    if is_word(first, b"sum") {
        return sum_at(alloc, schema, text);
    }
    if is_word(first, b"min") {
        return min_at(alloc, schema, text);
    }
    if is_word(first, b"max") {
        return max_at(alloc, schema, text);
    }
    if is_word(first, b"insert") {
        return Ok(insert_at(schema, text)?);
    }
    if is_word(first, b"delete") {
        return delete_at(alloc, schema, text);
    }
    Err(bad(Why::Word))
}

#[tactic(auto, unfolding(crate::specs::Reading::call_at))]
fn call_at(alloc: Global, schema: &Schema, text: &[u8]) -> Result<Option<Call>, ParseError>
    ensures { Gives (λ c. c) result (call_at schema.now (tokens text.now)) }
{
    let Some((first, rest)) = next_token(text) else {
        return Ok(None);
    };
    let call = call_of(alloc, schema, first, rest)?;
    Ok(Some(call))
}

pub(crate) fn is_comment(text: &[u8]) -> bool
    ensures { result ≡ is_comment text.now }
{
    let Some((first, _)) = skip_blanks(text).split_first() else {
        return false;
    };
    *first == b'#'
}

#[tactic(auto, unfolding(crate::specs::Reading::line_at))]
fn line_at(alloc: Global, schema: &Schema, text: &[u8]) -> Result<Option<Call>, ParseError>
    ensures { Gives (λ c. c) result (line_at schema.now text.now) }
{
    if text.len() > MOST_LINE {
        return Err(bad(Why::Length));
    }
    if is_comment(text) {
        return Ok(None);
    }
    let call = call_at(alloc, schema, text)?;
    Ok(call)
}

/// The refusal of a fault in the line of this number.
fn refusal_of(line: u32, fault: Fault) -> Refusal
    ensures { result ≡ refusal_of line fault }
{
    match fault {
        Fault::Bad(why) => Refusal::BadLine { line, why },
        Fault::Unknown(name) => Refusal::UnknownAttribute { name },
        Fault::Excess(limit) => Refusal::TooMany { limit },
    }
}

/// The same where no text becomes known: one that is not is no value.
fn refusal_over_known(line: u32, fault: Fault) -> Refusal
    ensures { result ≡ refusal_over_known line fault }
{
    match fault {
        Fault::Excess(_) => Refusal::BadLine {
            line,
            why: Why::Value,
        },
        fault => refusal_of(line, fault),
    }
}

/// The call of a line whose texts became known, as far as there was room.
pub(crate) fn parse_learned(
    alloc: Global,
    schema: &Schema,
    line: u32,
    text: &str,
) -> Result<Option<Call>, Refusal>
    ensures reading { Answers result (refused line (line_at schema.now text.now)) }
    ensures grammar { IfOk result (IsLine schema.now text.now) }
    ensures only { IsSchema schema.now → AnswersRelated result (IsLine schema.now text.now) }
    ensures fits { IfOk result (λ call. IfSome call (FitsCall schema.now)) }
{
    match line_at(alloc, schema, text.as_bytes()) {
        Ok(call) => Ok(call),
        Err(ParseError::Memory) => Err(Refusal::NoMemory),
        Err(ParseError::Fault(fault)) => Err(refusal_of(line, fault)),
    }
}

/// The call of a line over the texts that the schema knows, as `parse_line` reads it; for a table that is open, whose
/// schema stays as it is. A quoted text that the schema does not know is no value, `BadLine` with why `Value`.
pub fn parse_known(
    alloc: Global,
    schema: &Schema,
    line: u32,
    text: &str,
) -> Result<Option<Call>, Refusal>
    ensures reading { Answers result (refused_over_known line (line_at schema.now text.now)) }

    // a value comes just where the grammar relates it to the line
    ensures grammar { IfOk result (IsLine schema.now text.now) }
    ensures only { IsSchema schema.now → AnswersRelated result (IsLine schema.now text.now) }

    ensures fits { IfOk result (λ call. IfSome call (FitsCall schema.now)) }
{
    match line_at(alloc, schema, text.as_bytes()) {
        Ok(call) => Ok(call),
        Err(ParseError::Memory) => Err(Refusal::NoMemory),
        Err(ParseError::Fault(fault)) => Err(refusal_over_known(line, fault)),
    }
}
