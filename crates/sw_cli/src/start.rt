//! What a run starts from: a table, a script and cuts, read to their ends.

ghost use Rattle.std.specs.Prelude.{◌≡◌, length, IfErr, IfOk, OnOk};
ghost use Rattle.sw_lang.specs.Cuts.{FitCuts};
ghost use Rattle.sw_rows.specs.Gives.{Raised};
ghost use Rattle.sw_histories.specs.Told.{Reads, TellsText};
ghost use Rattle.sw_cli.specs.Run.{cuts_of};
ghost use Rattle.sw_cli.specs.Script.{AreBlocks, spelled};
ghost use Rattle.sw_cli.specs.Sides.{FailedBy, HeldBy, source_by};
ghost use Rattle.sw_cli.specs.Starts.{IsStart, ReadsScript, StartsBy, TellsStart, start_seen};

use crate::running::Options;
use crate::script::{Block, read_blocks};
use std::alloc::Global;
use std::thread::Threads;
use sw_lang::{Cuts, parse_cuts};
use sw_rows::{MOST_BYTES, PackedRows, Refusal, Schema, Source, load_in_parts, read_all};

/// A table, a script and cuts that were read.
#[derive(Drop)]
pub struct Inputs {
    /// The attributes, with the texts that are known after the script.
    pub schema: Schema,
    /// The rows, with the keys 1, 2, 3 and so on.
    pub rows: PackedRows,
    /// The calls of the script, block after block.
    pub blocks: Vec<Block>,
    /// Where heads are cut into areas.
    pub cuts: Cuts,
}

/// Reads a script from its source. The schema is handed on with the texts of the script.
fn read_script<S: Source>(
    alloc: Global,
    schema: Schema,
    script: &mut S,
) -> Result<(Schema, Vec<Block>), Refusal>
    ensures spelled { ReadsScript schema
        (source_by S.Source script.old script.new)
        (λ p. spelled p.0 p.1.items) result }
    ensures width { IfOk result (λ p. length p.0 ≡ length schema) }
    ensures sound { IfOk result (λ p. AreBlocks (length schema) p.1.items) }
    ensures told { IfErr result (TellsStart (Raised (S.failed script.old) (S.failed script.new))) }
    ensures steady { OnOk result (S.failed script.new ≡ S.failed script.old) }
{
    match read_all(alloc, script, MOST_BYTES) {
        Ok(text) => match read_blocks(alloc, schema, &text) {
            Ok(read) => Ok(read),
            Err(e) => Err(e),
        },
        Err(e) => Err(e),
    }
}

/// Reads the text of the cuts.
fn read_cuts(alloc: Global, schema: &Schema, text: &str) -> Result<Cuts, Refusal>
    ensures answers { Reads (λ cuts. cuts) result (cuts_of schema.now text.now) }
    ensures fits { IfOk result (FitCuts schema.now) }
    ensures why { IfErr result TellsText }
{
    parse_cuts(alloc, schema, text)
}

/// Reads a table, a long one by threads, then a script, then the text of the cuts, and holds the rows against the
/// limit. Refused as `run_with` is before its first call.
pub fn read_start<R: Threads + Sync, T: Source, S: Source>(
    rt: &R,
    alloc: Global,
    table: &mut T,
    script: &mut S,
    options: &Options<'_>,
) -> Result<Inputs, Refusal>
    ensures spelled { StartsBy options.now
        T.Source table.old table.new S.Source script.old script.new result }
    ensures sound { IfOk result (λ o. IsStart options.now.limit (start_seen o)) }
    ensures told { IfErr result (TellsStart (FailedBy
        T.Source table.old table.new S.Source script.old script.new)) }
    ensures steady { OnOk result (HeldBy
        T.Source table.old table.new S.Source script.old script.new) }
{
    let Options {
        limit,
        cuts,
        key,
        ..
    } = *options;
    let (schema, rows) = match load_in_parts(rt, alloc, key, table) {
        Ok(found) => found,
        Err(e) => return Err(e),
    };
    let (schema, blocks) = match read_script(alloc, schema, script) {
        Ok(read) => read,
        Err(e) => return Err(e),
    };
    let cuts = match read_cuts(alloc, &schema, cuts) {
        Ok(cuts) => cuts,
        Err(e) => return Err(e),
    };
    if rows.len() as u64 > limit {
        return Err(Refusal::TooMany { limit });
    }
    Ok(Inputs {
        schema,
        rows,
        blocks,
        cuts,
    })
}
