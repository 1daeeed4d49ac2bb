//! Texts go out between quotes.

ghost use Rattle.std.specs.Prelude.{◌≡◌, ◌<◌, ◌++◌, ◌==◌, codes, length, position, IfSome};
ghost use Rattle.sw_lang.specs.Replies.{doubled, quoted_text};
ghost use Rattle.sw_lang.specs.Sinks.{Wrote};

use crate::printing::sinks::write_all;
use sw_rows::{Refusal, Sink};

/// Where the first quote stands.
fn quote_at(text: &[u8]) -> Option<usize>
    ensures place { result ≡ position (λ b. b == 39) text.now }
    ensures within { IfSome result (λ place. place < length text.now) }
{
    text.iter().position(|byte| *byte == b'\'')
}

/// Bytes and two quotes.
fn write_run<W: Sink>(run: &[u8], out: &mut W) -> Result<(), Refusal>
    ensures { Wrote W.taken W.failed out.old out.new result (run.now ++ codes "''") }
{
    write_all(out, run)?;
    write_all(out, b"''")
}

/// Bytes, each quote twice.
fn write_doubled<W: Sink>(text: &[u8], out: &mut W) -> Result<(), Refusal>
    ensures { Wrote W.taken W.failed out.old out.new result (doubled text.now) }
{
    let mut rest = text;
    while let Some(place) = quote_at(rest) {
        let (run, after) = rest.split_at(place);
        write_run(run, out)?;
        let (_, after) = after.split_at(1);
        rest = after;
    }
    write_all(out, rest)
}

/// The same and the quote behind it.
fn write_closed<W: Sink>(text: &[u8], out: &mut W) -> Result<(), Refusal>
    ensures { Wrote W.taken W.failed out.old out.new result (doubled text.now ++ codes "'") }
{
    write_doubled(text, out)?;
    write_all(out, b"'")
}

/// Writes a text between quotes, each of its own quotes twice.
pub(crate) fn write_quoted<W: Sink>(text: &[u8], out: &mut W) -> Result<(), Refusal>
    ensures { Wrote W.taken W.failed out.old out.new result (quoted_text text.now) }
{
    write_all(out, b"'")?;
    write_closed(text, out)
}
