//! Faults of a script, in words.

use crate::choices::{Beginning, choices_behind, read_beginning};
use crate::shown::{pointed, shown};
use crate::tokens::token_from;
use std::alloc::{AllocError, Global};
use sw_lang::{MOST_LINE, parse_line};
use sw_rows::{Refusal, Schema};

/// A line without its end, its number, from 1, and the bytes behind it.
#[derive(Clone, Copy)]
pub(crate) struct Line<'a> {
    pub(crate) bytes: &'a [u8],
    pub(crate) number: u32,
}

/// The first line of some bytes, and those behind its end.
fn split_line(bytes: &[u8]) -> (&[u8], &[u8]) {
    let len = bytes.iter().take_while(|byte| **byte != b'\n').count();
    let Some((line, rest)) = bytes.split_at_checked(len) else {
        return (bytes, &[]);
    };
    match rest.split_first() {
        Some((_, rest)) => (without_return(line), rest),
        None => (line, rest),
    }
}

/// A line that ends with a line feed, without a carriage return before that.
fn without_return(line: &[u8]) -> &[u8] {
    match line.split_last() {
        Some((b'\r', front)) => front,
        _ => line,
    }
}

/// Whether a line divides blocks.
fn is_divider(line: &[u8]) -> bool {
    match line.strip_prefix(b"---".as_slice()) {
        Some(rest) => line.len() <= MOST_LINE && rest.iter().all(|b| *b == b' ' || *b == b'\t'),
        None => false,
    }
}

/// Whether a line is refused, as it is read: its length first, then whether it is UTF-8, then its tokens. Its texts become
/// known.
fn is_refused(alloc: Global, schema: &mut Schema, line: &[u8]) -> Result<bool, AllocError> {
    if line.len() > MOST_LINE {
        return Ok(true);
    }
    let Ok(text) = str::from_utf8(line) else {
        return Ok(true);
    };
    match parse_line(alloc, schema, 1, text) {
        Ok(_) => Ok(false),
        Err(Refusal::NoMemory) => Err(AllocError),
        Err(_) => Ok(true),
    }
}

/// The first line of a script that is refused.
pub(crate) fn first_refused<'s>(
    alloc: Global,
    schema: &mut Schema,
    script: &'s [u8],
) -> Result<Option<Line<'s>>, AllocError> {
    let mut rest = script;
    let mut number = 0u32;
    for _ in 0..script.len() {
        if rest.is_empty() {
            break;
        }
        let (line, after) = split_line(rest);
        number = number.saturating_add(1);
        if !is_divider(line) && is_refused(alloc, schema, line)? {
            return Ok(Some(Line {
                bytes: line,
                number,
            }));
        }
        rest = after;
    }
    Ok(None)
}

/// The bytes as text, of which it is known that they are.
fn text_of(bytes: &[u8]) -> &str {
    match str::from_utf8(bytes) {
        Ok(text) => text,
        Err(_) => "",
    }
}

/// How far a line is read before it is refused: what stands before the token at fault, and that token; where the line ends
/// too early, all of it and no token.
#[derive(Clone, Copy)]
struct Place<'a> {
    front: &'a str,
    token: &'a str,
}

impl Place<'_> {
    /// What is wrong there.
    fn wrong(&self, alloc: Global) -> Result<String, AllocError> {
        if self.token.is_empty() {
            return String::from_str(alloc, "the line ends too early");
        }
        let token = shown(alloc, self.token.as_bytes())?;
        format!(in alloc; "{token} cannot stand there")
    }
}

/// The token of a line at which it is refused: the first with which its beginning is refused.
fn place_of<'a>(
    alloc: Global,
    schema: &mut Schema,
    line: &'a str,
) -> Result<Place<'a>, AllocError> {
    let bytes = line.as_bytes();
    let mut from = 0usize;
    for _ in 0..=MOST_LINE {
        let Some(token) = token_from(bytes, from) else {
            break;
        };
        if read_beginning(alloc, schema, text_of(token.with))? == Beginning::Refused {
            let (front, token) = split_text(line, token.front.len(), token.with.len());
            return Ok(Place { front, token });
        }
        from = token.with.len();
    }
    Ok(Place {
        front: line,
        token: "",
    })
}

/// What stands in a text before a place, and from there to another one.
fn split_text(text: &str, from: usize, to: usize) -> (&str, &str) {
    let bytes = text.as_bytes();
    let Some((with, _)) = bytes.split_at_checked(to) else {
        return (text, "");
    };
    match with.split_at_checked(from) {
        Some((front, token)) => (text_of(front), text_of(token)),
        None => (text, ""),
    }
}

/// What is wrong with a line's token, and what may stand in its place; with the line and a caret.
fn wrong_token(
    alloc: Global,
    schema: &mut Schema,
    at: &str,
    line: &str,
) -> Result<String, AllocError> {
    let place = place_of(alloc, schema, line)?;
    let choices = choices_behind(alloc, schema, place.front)?;
    let wrong = place.wrong(alloc)?;
    let column = place.front.chars().count();
    let picture = pointed(alloc, line, column)?;
    let column = column.saturating_add(1);
    format!(in alloc; "{at}, column {column}: {wrong}, wanted {choices}\n{picture}")
}

/// What is wrong with a line that is refused, of which `at` tells where it is: a line of words, and below it the line with a caret
/// where that shows more.
///
/// The one error is that there is no memory.
pub fn wrong_line(
    alloc: Global,
    schema: &mut Schema,
    at: &str,
    line: &[u8],
) -> Result<String, AllocError> {
    if line.len() > MOST_LINE {
        return format!(in alloc; "{at}: {} bytes, at most {MOST_LINE}\n", line.len());
    }
    match str::from_utf8(line) {
        Ok(text) => wrong_token(alloc, schema, at, text),
        Err(_) => {
            let line = shown(alloc, line)?;
            format!(in alloc; "{at}: not UTF-8: {line}\n")
        }
    }
}

/// How many lines of a script divide blocks, and how many are calls, as far as their first bytes tell.
fn counts(script: &[u8]) -> (u64, u64) {
    let mut rest = script;
    let mut dividers = 0u64;
    let mut calls = 0u64;
    for _ in 0..script.len() {
        if rest.is_empty() {
            break;
        }
        let (line, after) = split_line(rest);
        if is_divider(line) {
            dividers = dividers.saturating_add(1);
        } else if is_call(line) {
            calls = calls.saturating_add(1);
        }
        rest = after;
    }
    (dividers, calls)
}

/// The numbers of the lines of a script that are calls, as far as their first bytes tell: no divider of blocks, no comment
/// and no line of blanks.
///
/// The one error is that there is no memory.
pub fn call_lines(alloc: Global, script: &[u8]) -> Result<Vec<u32>, AllocError> {
    let mut rest = script;
    let mut number = 0u32;
    let mut lines = Vec::new(alloc);
    for _ in 0..script.len() {
        if rest.is_empty() {
            break;
        }
        let (line, after) = split_line(rest);
        number = number.saturating_add(1);
        if !is_divider(line) && is_call(line) {
            lines.push(number)?;
        }
        rest = after;
    }
    Ok(lines)
}

/// Whether a script has more calls than a number.
pub(crate) fn has_more_calls(script: &[u8], most: u64) -> bool {
    counts(script).1 > most
}

/// Whether a script has more blocks than a number.
pub(crate) fn has_more_blocks(script: &[u8], most: u64) -> bool {
    counts(script).0 >= most
}

/// Whether a line is a call, as far as its first byte tells.
fn is_call(line: &[u8]) -> bool {
    match line.iter().find(|byte| **byte != b' ' && **byte != b'\t') {
        Some(byte) => *byte != b'#',
        None => false,
    }
}
