//! Quoted texts: the bytes between the quotes of one, where each quote of the text stands twice.

ghost use Rattle.std.specs.Prelude.{◌≡◌, ◌<◌, ◌≤◌, ◌==◌, ◌&&◌, slice_index, take, length, MatchOption, IfSome};
ghost use Rattle.sw_lang.specs.Tokens.{undoubled, IsClosedAt, IsTooLong, IsUnclosed};
ghost use Rattle.sw_rows.specs.declared.schema.texts.TheConstants.{MOST_BYTES_OF_TEXT};

use sw_rows::MOST_BYTES_OF_TEXT;

/// Whether a quote stands there.
fn is_quote(text: &[u8], at: usize) -> bool
    ensures { result ≡ (slice_index text.now at == 39) }
{
    match text.get(at) {
        Some(byte) => *byte == b'\'',
        None => false,
    }
}

/// How many bytes stand before the quote that closes a text, which begins behind its first quote.
#[tactic(auto, using(crate::proofs::Parsing::Quotes::pair_read, crate::proofs::Parsing::Quotes::closed_at))]
pub(crate) fn raw_len(text: &[u8]) -> Option<usize>
    ensures tokens { MatchOption result (IsUnclosed text.now) (λ n. IsClosedAt text.now n) }
    ensures within { IfSome result (λ n. n < length text.now) }
{
    let mut at = 0;
    while at < text.len() {
        if !is_quote(text, at) {
            at += 1;
        } else if is_quote(text, at + 1) {
            at += 2;
        } else {
            return Some(at);
        }
    }
    None
}

/// Whether a byte is the second of two quotes, where `held` tells that the first stands before it.
fn is_second(held: bool, byte: u8) -> bool
    ensures { result ≡ (held && byte == 39) }
{
    held && byte == b'\''
}

/// Puts a quoted text's text at the buffer's front and answers how long it is, and None where it does not fit.
fn fill(raw: &[u8], buffer: &mut [u8; MOST_BYTES_OF_TEXT]) -> Option<usize>
    ensures text { MatchOption result (IsTooLong raw.now) (λ n. take n buffer.new ≡ undoubled raw.now) }
    ensures within { IfSome result (λ n. n ≤ MOST_BYTES_OF_TEXT) }
{
    let mut len = 0;
    let mut held = false;
    let mut rest = raw;
    while let [first, after @ ..] = rest {
        rest = after;
        if is_second(held, *first) {
            held = false;
        } else if len == MOST_BYTES_OF_TEXT {
            return None;
        } else {
            buffer[len] = *first;
            len += 1;
            held = *first == b'\'';
        }
    }
    Some(len)
}

/// The text of a quoted text's bytes between its quotes, in this buffer, and None where it is longer than the text of a
/// cell may be.
pub(crate) fn undoubled<'b>(
    raw: &[u8],
    buffer: &'b mut [u8; MOST_BYTES_OF_TEXT],
) -> Option<&'b [u8]>
    ensures { MatchOption result (IsTooLong raw.now) (λ text. text.now ≡ undoubled raw.now) }
{
    let len = fill(raw, buffer)?;
    Some(&buffer[..len])
}
