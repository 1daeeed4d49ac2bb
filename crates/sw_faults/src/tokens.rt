//! Where the tokens of a line stand.

fn is_word_byte(byte: u8) -> bool {
    byte.is_ascii_alphanumeric() || byte == b'_' || byte == b'.' || byte == b'+' || byte == b'-'
}

fn is_blank(byte: u8) -> bool {
    byte == b' ' || byte == b'\t'
}

/// How many bytes a quoted text takes that begins with its first quote; all, where nothing closes it.
fn quoted_len(text: &[u8]) -> usize {
    let mut len = 0usize;
    let mut is_open = false;
    for byte in text {
        if *byte == b'\'' {
            is_open = !is_open;
        } else if !is_open {
            return len;
        }
        len = len.saturating_add(1);
    }
    len
}

/// How many bytes the comparison takes that begins with this byte.
fn comparison_len(first: u8, text: &[u8]) -> usize {
    match text.get(1) {
        Some(b'=') if first != b'=' => 2,
        _ => 1,
    }
}

/// How many bytes the character takes at the front: the first byte, and those behind it that begin none.
fn char_len(text: &[u8]) -> usize {
    let rest = text.iter().skip(1);
    let more = rest.take_while(|b| **b >= 0x80 && **b < 0xC0).count();
    more.saturating_add(1)
}

/// How many bytes the token takes at the front, where no blank stands.
fn token_len(text: &[u8]) -> usize {
    let Some(first) = text.first() else {
        return 0;
    };
    match *first {
        b'\'' => quoted_len(text),
        b'<' | b'>' | b'=' => comparison_len(*first, text),
        byte if is_word_byte(byte) => text.iter().take_while(|b| is_word_byte(**b)).count(),
        _ => char_len(text),
    }
}

/// A token of a line: the bytes before it, and those of the token.
#[derive(Clone, Copy)]
pub(crate) struct Token<'a> {
    /// What stands before it.
    pub(crate) front: &'a [u8],
    /// What stands before it, and the token.
    pub(crate) with: &'a [u8],
}

/// The first token of a line from a place on.
pub(crate) fn token_from(line: &[u8], from: usize) -> Option<Token<'_>> {
    let (_, rest) = line.split_at_checked(from)?;
    let blanks = rest.iter().take_while(|b| is_blank(**b)).count();
    let begin = from.saturating_add(blanks);
    let (front, rest) = line.split_at_checked(begin)?;
    let len = token_len(rest);
    if len == 0 {
        return None;
    }
    let (with, _) = line.split_at_checked(begin.saturating_add(len))?;
    Some(Token { front, with })
}
