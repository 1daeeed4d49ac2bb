//! Whole texts and numbers go out to a sink that takes parts.

ghost use Rattle.sw_lang.specs.Sinks.{Wrote};

use itoa::{Buffer, Integer};
use sw_rows::{Refusal, Sink};

/// Writes all of the bytes.
///
/// Refused `Output` where the sink fails; then a beginning of the bytes went out.
pub fn write_all<W: Sink>(out: &mut W, bytes: &[u8]) -> Result<(), Refusal>
    ensures { Wrote W.taken W.failed out.old out.new result bytes.now }
{
    let mut rest = bytes;
    while !rest.is_empty() {
        match out.write_some(rest) {
            Ok(n) => {
                let (_, after) = rest.split_at(n);
                rest = after;
            }
            Err(_) => return Err(Refusal::Output),
        }
    }
    Ok(())
}

/// Writes a whole number: `-` if it is below 0, and its digits without leading zeros.
///
/// Refused `Output` where the sink fails; then a beginning of the text went out.
pub fn write_number<N: Integer, W: Sink>(number: N, out: &mut W) -> Result<(), Refusal>
    ensures { Wrote W.taken W.failed out.old out.new result (N.text number) }
{
    let mut buffer = Buffer::new();
    write_all(out, buffer.format(number).as_bytes())
}
