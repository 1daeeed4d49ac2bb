//! Readings of one token.

ghost use Rattle.std.specs.Prelude.{◌≡◌, ◌<◌, length, IfOk, MatchOption, true, false};
ghost use Rattle.sw_rows.specs.Domains.{is_of_texts};
ghost use Rattle.sw_rows.specs.Domains as kind;
ghost use Rattle.sw_rows.specs.Header.{texts_of};
ghost use Rattle.sw_lang.specs.Shown.{AreSound, domain_of};
ghost use Rattle.sw_rows.specs.Header.{is_name};
ghost use Rattle.sw_lang.specs.Reading.{attr_of, first_by, is_comma, is_word, key_of, key_value, name_of, number_name, op_for, op_of, quoted_value, value_of, word_value, Gives, Tells, TellsThen};
ghost use Rattle.sw_lang.specs.Tokens.{tok, tokens, undoubled};

use crate::domain::{AttrValues, attr_values};
use crate::fault::{Fault, ParseError, bad};
use crate::reading::quotes::undoubled;
use crate::reading::token::{Op, Token, next_token};
use std::alloc::Global;
use sw_rows::{
    Kind, MOST_BYTES_OF_TEXT, MOST_TEXTS, Name, Schema, Why, is_name, read_cell_bytes, read_digits,
    read_text,
};

/// The word as text, where it may be a name.
fn as_name(word: &[u8]) -> Option<&str>
    ensures { MatchOption result (is_name word.now ≡ false)
        (λ name. (name.now ≡ word.now) × (is_name word.now ≡ true)) }
{
    if !is_name(word) {
        return None;
    }
    std::str::from_utf8(word).ok()
}

/// The attribute of a name; a text that is no name is refused with the given why.
pub(crate) fn attr_of(
    alloc: Global,
    schema: &Schema,
    word: &[u8],
    malformed: Why,
) -> Result<usize, ParseError>
    ensures gives { Gives (λ i. i) result (attr_of schema.now malformed word.now) }
    ensures within { IfOk result (λ i. i < length schema.now) }
{
    let Some(name) = as_name(word) else {
        return Err(bad(malformed));
    };
    match schema.find(name) {
        Some(attr) => Ok(attr),
        None => {
            let name = Name::copied(alloc, name)?;
            Err(ParseError::Fault(Fault::Unknown(name)))
        }
    }
}

#[tactic(auto, unfolding(crate::specs::Reading::name_of))]
fn name_of(alloc: Global, schema: &Schema, token: Token) -> Result<usize, ParseError>
    ensures gives { Gives (λ i. i) result (name_of schema.now (tok token.entry)) }
    ensures within { IfOk result (λ i. i < length schema.now) }
{
    let Token::Word(word) = token else {
        return Err(bad(Why::Word));
    };
    let attr = attr_of(alloc, schema, word, Why::Word)?;
    Ok(attr)
}

/// The attribute that a token names, which is not of texts.
#[tactic(auto, unfolding(crate::specs::Reading::number_name))]
fn number_name(alloc: Global, schema: &Schema, token: Token) -> Result<usize, ParseError>
    ensures { Gives (λ i. i) result (number_name schema.now (tok token.entry)) }
{
    let attr = name_of(alloc, schema, token)?;
    if are_texts(attr_values(schema, attr)) {
        return Err(bad(Why::Word));
    }
    Ok(attr)
}

#[tactic(auto, unfolding(crate::specs::Reading::op_of))]
fn op_of(token: Token) -> Result<Op, Fault>
    ensures { result ≡ op_of (tok token.entry) }
{
    match token {
        Token::Op(op) => Ok(op),
        _ => Err(Fault::Bad(Why::Word)),
    }
}

/// Whether values are texts.
pub(crate) fn are_texts(values: AttrValues) -> bool
    ensures { result ≡ is_of_texts (domain_of values.entry) }
{
    match values {
        AttrValues::Numbers(Kind::Text) | AttrValues::Texts(_) => true,
        AttrValues::Numbers(_) => false,
    }
}

/// An operator that serves these values: texts are compared by equality alone.
#[tactic(auto, unfolding(crate::specs::Reading::op_for))]
fn op_for(values: AttrValues, token: Token) -> Result<Op, Fault>
    ensures { result ≡ op_for (domain_of values.entry) (tok token.entry) }
{
    let op = op_of(token)?;
    if are_texts(values) && op != Op::Eq {
        return Err(Fault::Bad(Why::Word));
    }
    Ok(op)
}

/// The cell that a word is.
pub(crate) fn read_word(values: AttrValues, word: &[u8]) -> Option<i64>
    requires { AreSound values }
    ensures { result ≡ word_value (domain_of values.entry) word.now }
{
    match values {
        AttrValues::Numbers(kind) => read_cell_bytes(kind, word),
        AttrValues::Texts(_) => None,
    }
}

/// The cell of a text that a schema knows; where it may be one and is not known, there are texts enough already.
fn text_value(schema: &Schema, text: &[u8]) -> Result<i64, Fault>
    ensures { result ≡ quoted_value (kind.Text (texts_of schema.now)) text.now }
{
    let Some(text) = read_text(text) else {
        return Err(Fault::Bad(Why::Value));
    };
    match schema.code(text) {
        Some(code) => Ok(code),
        None => Err(Fault::Excess(MOST_TEXTS)),
    }
}

/// The cell of a quoted text, of its bytes between the quotes.
fn quoted_value(values: AttrValues, raw: &[u8]) -> Result<i64, Fault>
    requires { AreSound values }
    ensures { result ≡ quoted_value (domain_of values.entry) (undoubled raw.now) }
{
    let AttrValues::Texts(schema) = values else {
        return Err(Fault::Bad(Why::Value));
    };
    let mut buffer = [0; MOST_BYTES_OF_TEXT];
    match undoubled(raw, &mut buffer) {
        Some(text) => text_value(schema, text),
        None => Err(Fault::Bad(Why::Value)),
    }
}

#[tactic(auto, unfolding(crate::specs::Reading::value_of))]
fn value_of(values: AttrValues, token: Token) -> Result<i64, Fault>
    requires { AreSound values }
    ensures { result ≡ value_of (domain_of values.entry) (tok token.entry) }
{
    match token {
        Token::Word(word) => match read_word(values, word) {
            Some(value) => Ok(value),
            None => Err(Fault::Bad(Why::Value)),
        },
        Token::Quoted(raw) => quoted_value(values, raw),
        Token::Op(_) | Token::Comma | Token::Stray => Err(Fault::Bad(Why::Word)),
    }
}

fn read_key(word: &[u8]) -> Option<u64>
    ensures { result ≡ key_value word.now }
{
    if word.is_empty() || word.len() > 20 {
        return None;
    }
    read_digits(0, word)
}

#[tactic(auto, unfolding(crate::specs::Reading::key_of))]
fn key_of(token: Token) -> Result<u64, Fault>
    ensures { result ≡ key_of (tok token.entry) }
{
    match token {
        Token::Word(word) => read_key(word).ok_or(Fault::Bad(Why::Value)),
        Token::Quoted(_) => Err(Fault::Bad(Why::Value)),
        _ => Err(Fault::Bad(Why::Word)),
    }
}

/// Whether a token is this word.
pub(crate) fn is_word(token: Token, word: &[u8]) -> bool
    ensures { result ≡ is_word word.now (tok token.entry) }
{
    match token {
        Token::Word(found) => found == word,
        _ => false,
    }
}

pub(crate) fn is_comma(token: Token) -> bool
    ensures { result ≡ is_comma (tok token.entry) }
{
    match token {
        Token::Comma => true,
        _ => false,
    }
}

/// The attribute that the first token names, and the bytes after it.
#[tactic(auto, unfolding(crate::specs::Reading::first_by))]
pub(crate) fn name_at<'a>(
    alloc: Global,
    schema: &Schema,
    text: &'a [u8],
) -> Result<(usize, &'a [u8]), ParseError>
    ensures gives { Gives (λ p. (p.0, tokens p.1.now)) result (first_by (name_of schema.now) (tokens text.now)) }
    ensures within { IfOk result (λ p. p.0 < length schema.now) }
    ensures shorter { IfOk result (λ p. length p.1.now < length text.now) }
{
    let Some((token, rest)) = next_token(text) else {
        return Err(bad(Why::End));
    };
    let attr = name_of(alloc, schema, token)?;
    Ok((attr, rest))
}

/// The attribute that the first token names, which is not of texts, and the bytes after it.
#[tactic(auto, unfolding(crate::specs::Reading::first_by))]
pub(crate) fn number_name_at<'a>(
    alloc: Global,
    schema: &Schema,
    text: &'a [u8],
) -> Result<(usize, &'a [u8]), ParseError>
    ensures gives { Gives (λ p. (p.0, tokens p.1.now)) result (first_by (number_name schema.now) (tokens text.now)) }
{
    let Some((token, rest)) = next_token(text) else {
        return Err(bad(Why::End));
    };
    let attr = number_name(alloc, schema, token)?;
    Ok((attr, rest))
}

#[tactic(auto, unfolding(crate::specs::Reading::first_by))]
pub(crate) fn op_at<'a>(values: AttrValues, text: &'a [u8]) -> Result<(Op, &'a [u8]), Fault>
    ensures gives { TellsThen result (first_by (op_for (domain_of values.entry)) (tokens text.now)) }
    ensures shorter { IfOk result (λ p. length p.1.now < length text.now) }
{
    let Some((token, rest)) = next_token(text) else {
        return Err(Fault::Bad(Why::End));
    };
    let op = op_for(values, token)?;
    Ok((op, rest))
}

#[tactic(auto, unfolding(crate::specs::Reading::first_by))]
pub(crate) fn value_at<'a>(values: AttrValues, text: &'a [u8]) -> Result<(i64, &'a [u8]), Fault>
    requires { AreSound values }
    ensures gives { TellsThen result (first_by (value_of (domain_of values.entry)) (tokens text.now)) }
    ensures shorter { IfOk result (λ p. length p.1.now < length text.now) }
{
    let Some((token, rest)) = next_token(text) else {
        return Err(Fault::Bad(Why::End));
    };
    let value = value_of(values, token)?;
    Ok((value, rest))
}

#[tactic(auto, unfolding(crate::specs::Reading::first_by))]
pub(crate) fn key_at(text: &[u8]) -> Result<(u64, &[u8]), Fault>
    ensures { Tells (λ p. (p.0, tokens p.1.now)) result (first_by key_of (tokens text.now)) }
{
    let Some((token, rest)) = next_token(text) else {
        return Err(Fault::Bad(Why::End));
    };
    let key = key_of(token)?;
    Ok((key, rest))
}
