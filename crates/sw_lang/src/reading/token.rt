//! The tokens of a line.

ghost use Rattle.std.specs.Prelude.{◌≡◌, ◌<◌, ◌≤◌, [], ◌∷◌, length, slice_index, false, take_while, MatchOption, IfSome};
ghost use Rattle.sw_lang.specs.Tokens.{tok, tokens, after_blanks, is_word_byte, is_blank, or_equal, op, inside, tokens_after};

use crate::reading::quotes::raw_len;

/// A comparison of a cell with a value.
#[derive(Clone, Copy, Debug, PartialEq, Eq)]
pub enum Op {
    Lt,
    Le,
    Eq,
    Ge,
    Gt,
}

/// A part of a line that stands for itself.
#[derive(Clone, Copy)]
pub(crate) enum Token<'a> {
    /// A longest run of letters, digits, `_`, `.`, `+` and `-`.
    Word(&'a [u8]),
    Op(Op),
    Comma,
    /// What stands between the quotes of a text, each quote of the text twice.
    Quoted(&'a [u8]),
    /// A byte of no other token, or a text whose quotes are not closed.
    Stray,
}

fn is_word_byte(byte: u8) -> bool
    ensures { result ≡ is_word_byte byte }
{
    byte.is_ascii_alphanumeric() || byte == b'_' || byte == b'.' || byte == b'+' || byte == b'-'
}

fn is_blank(byte: u8) -> bool
    ensures { result ≡ is_blank byte }
{
    byte == b' ' || byte == b'\t'
}

/// The text from its first byte on that is no space and no tab.
pub(crate) fn skip_blanks(text: &[u8]) -> &[u8]
    ensures text { result.now ≡ after_blanks text.now }
    ensures front { is_blank (slice_index result.now 0) ≡ false }
    ensures tokens { tokens result.now ≡ tokens text.now }
    ensures shorter { length result.now ≤ length text.now }
{
    let mut rest = text;
    while let [first, after @ ..] = rest {
        if !is_blank(*first) {
            return rest;
        }
        rest = after;
    }
    rest
}

/// How long the word at the front is.
fn word_len(text: &[u8]) -> usize
    ensures { result ≡ length (take_while is_word_byte text.now) }
{
    text.iter().take_while(|b| is_word_byte(**b)).count()
}

/// A comparison that an `=` may follow, and the bytes after it.
fn or_equal(short: Op, long: Op, rest: &[u8]) -> (Op, &[u8])
    ensures tokens { op result.0 ∷ tokens result.1.now
        ≡ or_equal short long (slice_index rest.now 0) (tokens rest.now) }
    ensures shorter { length result.1.now ≤ length rest.now }
{
    let Some((first, after)) = rest.split_first() else {
        return (short, rest);
    };
    if *first == b'=' {
        return (long, after);
    }
    (short, rest)
}

/// The quoted text that begins behind this quote, and the bytes after it; all bytes are stray where no quote closes it.
fn behind_quote(text: &[u8]) -> (Token<'_>, &[u8])
    ensures tokens { tokens_after (inside []) text.now ≡ tok result.0 ∷ tokens result.1.now }
    ensures shorter { length result.1.now ≤ length text.now }
{
    let Some(len) = raw_len(text) else {
        return (Token::Stray, &text[text.len()..]);
    };
    let (raw, _) = text.split_at(len);
    let (_, rest) = text.split_at(len + 1);
    (Token::Quoted(raw), rest)
}

/// The token at the front, where no blank stands, and the bytes after it.
fn front_token(text: &[u8]) -> Option<(Token<'_>, &[u8])>
    requires { is_blank (slice_index text.now 0) ≡ false }
    ensures tokens { MatchOption result (tokens text.now ≡ []) (λ p. tokens text.now ≡ tok p.0 ∷ tokens p.1.now) }
    ensures shorter { IfSome result (λ p. length p.1.now < length text.now) }
{
    let Some((first, rest)) = text.split_first() else {
        return None;
    };
    let first = *first;
    if is_word_byte(first) {
        let (word, rest) = text.split_at(word_len(text));
        return Some((Token::Word(word), rest));
    }
    if first == b',' {
        return Some((Token::Comma, rest));
    }
    if first == b'=' {
        return Some((Token::Op(Op::Eq), rest));
    }
    if first == b'<' {
        let (op, rest) = or_equal(Op::Lt, Op::Le, rest);
        return Some((Token::Op(op), rest));
    }
    if first == b'>' {
        let (op, rest) = or_equal(Op::Gt, Op::Ge, rest);
        return Some((Token::Op(op), rest));
    }
    if first == b'\'' {
        return Some(behind_quote(rest));
    }
    Some((Token::Stray, rest))
}

/// The first token and the bytes after it.
pub(crate) fn next_token(text: &[u8]) -> Option<(Token<'_>, &[u8])>
    ensures tokens { MatchOption result (tokens text.now ≡ []) (λ p. tokens text.now ≡ tok p.0 ∷ tokens p.1.now) }
    ensures shorter { IfSome result (λ p. length p.1.now < length text.now) }
{
    front_token(skip_blanks(text))
}
