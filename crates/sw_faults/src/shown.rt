//! Bytes of a file as they are shown on a terminal.

use std::alloc::{AllocError, Global};

/// How many bytes of a cell are shown.
const MOST_SHOWN: usize = 40;

/// Whether a character takes no place on a terminal, or turns the order of those behind it: a byte order mark is one.
fn is_hidden(c: char) -> bool {
    (c >= '\u{200b}' && c <= '\u{200f}') || (c >= '\u{2028}' && c <= '\u{202e}') || c == '\u{feff}'
}

/// Whether a character would change what a terminal shows, or not show there: a control character, also one of the upper ones,
/// or a hidden one.
fn is_control(c: char) -> bool {
    c < ' ' || c == '\u{7f}' || (c >= '\u{80}' && c < '\u{a0}') || is_hidden(c)
}

/// Adds a byte that is not shown as it is.
fn add_escaped(text: &mut String, byte: u8) -> Result<(), AllocError> {
    match byte {
        b'\n' => text.push_str("\\n"),
        b'\r' => text.push_str("\\r"),
        b'\t' => text.push_str("\\t"),
        _ => {
            let shown = format!(in *text.allocator(); "\\x{byte:02x}")?;
            text.push_str(shown.as_str())
        }
    }
}

/// Adds a character, escaped where a terminal would not show it.
fn add_char(text: &mut String, c: char) -> Result<(), AllocError> {
    let mut buffer = [0u8; 4];
    let shown = c.encode_utf8(&mut buffer);
    if !is_control(c) {
        return text.push_str(shown);
    }
    for byte in shown.as_bytes() {
        add_escaped(text, *byte)?;
    }
    Ok(())
}

/// Adds a text, of which so many bytes are shown at most; whether it was cut.
fn add_text(text: &mut String, shown: &str) -> Result<bool, AllocError> {
    let mut left = MOST_SHOWN;
    for c in shown.chars() {
        let size = c.len_utf8();
        if size > left {
            return Ok(true);
        }
        left -= size;
        add_char(text, c)?;
    }
    Ok(false)
}

/// Adds bytes that are no text, of which so many are shown at most; whether they were cut.
fn add_bytes(text: &mut String, bytes: &[u8]) -> Result<bool, AllocError> {
    for byte in bytes.iter().take(MOST_SHOWN) {
        if *byte >= b' ' && *byte < 127 {
            text.push(char::from(*byte))?;
        } else {
            add_escaped(text, *byte)?;
        }
    }
    Ok(bytes.len() > MOST_SHOWN)
}

/// Bytes between two quotes: at most 40 of them, control characters and what is no UTF-8 escaped, and `..` where more
/// follow.
fn between(alloc: Global, quote: &str, bytes: &[u8]) -> Result<String, AllocError> {
    let mut text = String::from_str(alloc, quote)?;
    let is_cut = match str::from_utf8(bytes) {
        Ok(shown) => add_text(&mut text, shown)?,
        Err(_) => add_bytes(&mut text, bytes)?,
    };
    if is_cut {
        text.push_str("..")?;
    }
    text.push_str(quote)?;
    Ok(text)
}

/// A cell's bytes between single quotes, as `between` has them.
pub(crate) fn shown(alloc: Global, bytes: &[u8]) -> Result<String, AllocError> {
    between(alloc, "'", bytes)
}

/// A member's name between double quotes, as `between` has its bytes.
pub(crate) fn named(alloc: Global, name: &str) -> Result<String, AllocError> {
    between(alloc, "\"", name.as_bytes())
}

/// What a character of a script's line is shown as: itself, or a blank.
fn in_line(c: char) -> char {
    if is_control(c) { ' ' } else { c }
}

/// How many characters of a script's line are shown before and behind the place that is pointed at.
const BEFORE: usize = 60;

const BEHIND: usize = 40;

/// Adds the characters of a script's line that are shown, from the one of a number on.
fn add_line(text: &mut String, line: &str, from: usize) -> Result<(), AllocError> {
    for c in line.chars().skip(from).take(BEFORE + BEHIND) {
        text.push(in_line(c))?;
    }
    Ok(())
}

/// Adds so many blanks.
fn add_blanks(text: &mut String, many: usize) -> Result<(), AllocError> {
    for _ in 0..many {
        text.push(' ')?;
    }
    Ok(())
}

/// A line of a script with a caret under its character of a number, from 0: two lines, each with its end. Of a long line
/// what stands about that place is shown.
pub(crate) fn pointed(alloc: Global, line: &str, column: usize) -> Result<String, AllocError> {
    let from = column.saturating_sub(BEFORE);
    let mut text = String::from_str(alloc, if from > 0 { "  .." } else { "  " })?;
    add_line(&mut text, line, from)?;
    text.push_str(if from > 0 { "\n    " } else { "\n  " })?;
    add_blanks(&mut text, column.min(BEFORE))?;
    text.push_str("^\n")?;
    Ok(text)
}
