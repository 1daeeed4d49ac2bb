//! What each head tells of itself after a run, as a table.

ghost use Rattle.sw_lang.specs.Sinks.{Wrote};
ghost use Rattle.sw_cli.specs.Stats.{after_areas, after_entries, after_maps, after_scans, numbers_text, stats_line, stats_title};

use crate::fault::{write_labelled, write_pair};
use sw_engine::HeadStats;
use sw_lang::write_all;
use sw_rows::{Refusal, Sink};

/// The milliseconds, and the line's end.
fn write_after_scans<W: Sink>(millis: u64, out: &mut W) -> Result<(), Refusal>
    ensures { Wrote W.taken W.failed out.old out.new result (after_scans millis) }
{
    write_labelled(b" ", millis, out)?;
    write_all(out, b"\n")
}

/// The cells of the leases, how many areas scanned, and what comes after.
fn write_after_maps<W: Sink>(stats: &HeadStats, millis: u64, out: &mut W) -> Result<(), Refusal>
    ensures { Wrote W.taken W.failed out.old out.new result (after_maps stats.now millis) }
{
    write_pair(b" ", stats.figures.cells, b" ", stats.scans, out)?;
    write_after_scans(millis, out)
}

/// How often areas were begun anew, how many maps there are, and what comes after.
fn write_after_entries<W: Sink>(stats: &HeadStats, millis: u64, out: &mut W) -> Result<(), Refusal>
    ensures { Wrote W.taken W.failed out.old out.new result (after_entries stats.now millis) }
{
    write_pair(b" ", stats.figures.restarts, b" ", stats.figures.maps, out)?;
    write_after_maps(stats, millis, out)
}

/// The pieces, the entries of the tapes, and what comes after.
fn write_after_areas<W: Sink>(stats: &HeadStats, millis: u64, out: &mut W) -> Result<(), Refusal>
    ensures { Wrote W.taken W.failed out.old out.new result (after_areas stats.now millis) }
{
    write_pair(b" ", stats.figures.pieces, b" ", stats.figures.entries, out)?;
    write_after_entries(stats, millis, out)
}

/// The queries, the areas, and what comes after.
fn write_numbers<W: Sink>(stats: &HeadStats, millis: u64, out: &mut W) -> Result<(), Refusal>
    ensures { Wrote W.taken W.failed out.old out.new result (numbers_text stats.now millis) }
{
    write_pair(b" ", stats.queries, b" ", stats.figures.areas, out)?;
    write_after_areas(stats, millis, out)
}

/// Writes the first line of the table: the names of its columns.
///
/// Takes no memory. Refused `Output` where the sink fails; then a beginning of the line went out.
pub fn write_stats_title<W: Sink>(out: &mut W) -> Result<(), Refusal>
    ensures { Wrote W.taken W.failed out.old out.new result stats_title }
{
    write_all(
        out,
        b"head queries areas pieces entries restarts maps cells scans ms\n",
    )
}

/// Writes the line of a head: the name of its attribute, its numbers in the order of the first line, and the
/// milliseconds that the caller measured.
///
/// Takes no memory. Refused `Output` where the sink fails; then a beginning of the line went out.
pub fn write_stats_line<W: Sink>(
    name: &[u8],
    stats: &HeadStats,
    millis: u64,
    out: &mut W,
) -> Result<(), Refusal>
    ensures { Wrote W.taken W.failed out.old out.new result (stats_line name.now stats.now millis) }
{
    write_all(out, name)?;
    write_numbers(stats, millis, out)
}
