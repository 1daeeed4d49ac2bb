//! What came of a call, told at once.

ghost use Rattle.sw_cli.specs.Outcomes.{told_bytes};
ghost use Rattle.sw_lang.specs.Sinks.{Wrote};

use std::alloc::Global;
use sw_cli::write_told;
use sw_lang::write_all;
use sw_rows::{Call, Counted, Refusal, Reply, Schema, Sink};

/// Writes the lines of what came of a call in one piece; piece by piece where there is no memory for them.
pub(crate) fn write_at_once<W: Sink>(
    alloc: Global,
    schema: &Schema,
    call: &Call,
    told: &Result<Reply, Refusal>,
    out: &mut W,
) -> Result<(), Refusal>
    ensures { Wrote W.taken W.failed out.old out.new result (told_bytes schema.now call.now told.now) }
{
    let mut text = Counted::new(Vec::new(alloc));
    match write_told(schema, call, told, &mut text) {
        Ok(()) => write_all(out, text.inner.as_slice()),
        Err(_) => write_told(schema, call, told, out),
    }
}
