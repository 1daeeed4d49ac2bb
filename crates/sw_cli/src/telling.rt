//! The lines of what came of calls.

ghost use Rattle.std.specs.Prelude.{◌≡◌, length};
ghost use Rattle.sw_lang.specs.Sinks.{Wrote};
ghost use Rattle.sw_cli.specs.Outcomes.{AreTold, block_bytes, blocks_told, line_before, outcomes_of, refused_line, text_of, told_bytes};

use crate::script::Block;
use std::marker::Model;
use sw_lang::{write_all, write_reply};
use sw_rows::{Call, Refusal, Reply, Schema, Sink};

/// Writes the line of a call that was refused: the number of the refusal. It is 10 where the history is full, else 1.
fn write_refused<W: Sink>(refusal: &Refusal, out: &mut W) -> Result<(), Refusal>
    ensures { Wrote W.taken W.failed out.old out.new result (refused_line refusal.now) }
{
    match refusal {
        Refusal::HistoryFull { .. } => write_all(out, b"refused 10\n"),
        _ => write_all(out, b"refused 1\n"),
    }
}

/// Writes the lines of what came of a call: those of its reply, or `refused` and the number of the refusal.
///
/// Refused `Output` where the sink fails; then a beginning of the lines went out.
pub fn write_told<W: Sink>(
    schema: &Schema,
    call: &Call,
    told: &Result<Reply, Refusal>,
    out: &mut W,
) -> Result<(), Refusal>
    ensures { Wrote W.taken W.failed out.old out.new result (told_bytes schema.now call.now told.now) }
{
    match told {
        Ok(reply) => write_reply(schema, call, reply, out),
        Err(e) => write_refused(e, out),
    }
}

/// Writes the line before a block that comes after so many others: none before the first.
pub(crate) fn write_divider<W: Sink>(before: usize, out: &mut W) -> Result<(), Refusal>
    ensures { Wrote W.taken W.failed out.old out.new result (line_before before) }
{
    if before == 0 {
        return Ok(());
    }
    write_all(out, b"---\n")
}

/// What came of the calls of a block, in turn. Contracts see a list.
#[derive(Drop)]
pub(crate) struct BlockTold {
    pub(crate) told: Vec<Result<Reply, Refusal>>,
}

impl Model for BlockTold {
    ghost use Rattle.std.specs.Prelude.{List};
    ghost use Rattle.sw_cli.specs.Outcomes.{Told};

    ghost Value = { List Told };

    ghost view = { λ b. b.told.items };
}

impl BlockTold {
    /// What came of each call.
    fn told(&self) -> &[Result<Reply, Refusal>]
        ensures { result.now ≡ self.now }
    {
        self.told.as_slice()
    }
}

/// Writes the lines of what came of calls.
fn write_block<W: Sink>(
    schema: &Schema,
    calls: &[Call],
    told: &[Result<Reply, Refusal>],
    out: &mut W,
) -> Result<(), Refusal>
    requires { length told.now ≡ length calls.now }
    ensures { Wrote W.taken W.failed out.old out.new result (block_bytes schema.now (outcomes_of calls.now told.now)) }
{
    for place in 0..calls.len() {
        write_told(schema, &calls[place], &told[place], out)?;
    }
    Ok(())
}

/// Writes the lines of what came of blocks, one after another, with a line `---` between two.
pub(crate) fn write_blocks<W: Sink>(
    schema: &Schema,
    blocks: &[Block],
    told: &[BlockTold],
    out: &mut W,
) -> Result<(), Refusal>
    requires { AreTold blocks.now told.now }
    ensures { Wrote W.taken W.failed out.old out.new result (text_of schema.now (blocks_told blocks.now told.now)) }
{
    for place in 0..blocks.len() {
        write_divider(place, out)?;
        write_block(schema, blocks[place].calls(), told[place].told(), out)?;
    }
    Ok(())
}
