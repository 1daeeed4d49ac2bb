//! Runs of a table and a script over maps that wait for one another, whose users wait for one another, or that count.

use crate::boxes::{Sights, Signals, Watching, crossed, watching};
use crate::running::cleared;
use crate::told::{Telling, held, tell_file};
use std::alloc::{AllocError, Global};
use std::sync::Wait;
use std::sync::atomic::Ordering;
use std::thread::Threads;
use sw_cli::{Means, Nobody, Options, run_shared, run_with};
use sw_engine::HeadStats;
use sw_rows::{Counted, Refusal, TextKey};
use sw_spine::Record;

/// How often each of two blocks makes a select.
const SELECTS: usize = 3000;

/// How many turns a select waits for one of the other block: for less time than that one waits to share a head that is taken alone.
const PATIENCE: u64 = 60_000;

const SCHEMA_AND_ROWS: &[u8] = b"a:int,b:int,c:int\n12,7,1\n3,8,0\n12,5,1\n20,2,0\n";

/// The lines of a script, which are divided by |.
fn script(alloc: Global, lines: &str) -> Result<Vec<u8>, AllocError> {
    let mut bytes = Vec::new(alloc);
    for &byte in lines.as_bytes() {
        bytes.push(if byte == b'|' { b'\n' } else { byte })?;
    }
    bytes.push(b'\n')?;
    Ok(bytes)
}

/// Adds bytes of lines to a text, in which / stands for the end of a line.
fn add_lines(text: &mut String, bytes: &[u8]) -> Result<(), AllocError> {
    for &byte in bytes {
        text.push(if byte == b'\n' { '/' } else { byte as char })?;
    }
    Ok(())
}

/// Tells what a run with threads writes over maps, which are made blank and dealt out from the last, and answers its record.
fn tell_run<R: Threads + Wait + Sync>(
    telling: &mut Telling<'_, R>,
    script: &[u8],
    cuts: &str,
    maps: Vec<Watching>,
) -> Result<Record, Refusal> {
    let options = Options {
        limit: 1000,
        cuts,
        threads: true,
        key: TextKey::fixed(),
    };
    let (rt, alloc) = (telling.rt, telling.alloc);
    let maps = cleared(alloc, maps)?;
    let mut out = Counted::new(Vec::new(alloc));
    let mut table = Counted::new(SCHEMA_AND_ROWS);
    let mut script = Counted::new(script);
    let record = run_with(rt, alloc, &mut table, &mut script, &mut out, &options, maps)?;
    held(add_lines(telling.text, out.inner.as_slice()))?;
    Ok(record)
}

/// Two blocks, of which each one's map waits in its first step for that of the other. Tells what was written, the check of the
/// record's file, and whether a wait came to its limit.
pub(crate) fn met_in_run<R: Threads + Wait + Sync>(
    telling: &mut Telling<'_, R>,
) -> Result<(), Refusal> {
    let alloc = telling.alloc;
    let sights = held(Sights::new(alloc, 0))?;
    let signals = held(Signals::new(alloc, false))?;
    let maps = crossed(alloc, &signals, &sights)?;
    let script = b"count where a >= 10\n---\ncount where b >= 6\n";
    let record = tell_run(telling, script.as_slice(), "", maps)?;
    tell_file(alloc, telling.text, &record)?;
    if sights.overran.load(Ordering::SeqCst) {
        return held(telling.text.push_str("late"));
    }
    Ok(())
}

/// Tells how many queries the heads answered.
fn tell_queries(text: &mut String, heads: &[HeadStats]) -> Result<(), AllocError> {
    let mut queries = 0u64;
    for head in heads {
        queries = queries.saturating_add(head.queries);
    }
    write!(text, ", {queries} queries")
}

/// Two blocks that make one select again and again in a head that they share. Tells whether two selects were ever in its map at a
/// time, how many the heads counted, those that were answered together too, and the check of the record's file.
pub(crate) fn shared<R: Threads + Wait + Sync>(
    telling: &mut Telling<'_, R>,
) -> Result<(), Refusal> {
    let alloc = telling.alloc;
    let sights = held(Sights::new(alloc, PATIENCE))?;
    let maps = watching(alloc, 1, &held(Signals::new(alloc, true))?, &sights)?;
    let maps = cleared(alloc, maps)?;
    let block = held("count where a >= 10\n".repeat(alloc, SELECTS))?;
    let script = held(format!(in alloc; "{block}---\n{block}"))?;
    let options = Options {
        limit: 1000,
        cuts: "",
        threads: true,
        key: TextKey::fixed(),
    };
    let means = Means {
        alloc,
        options: &options,
        maps,
        onlooker: &Nobody,
    };
    let mut out = Counted::new(Vec::new(alloc));
    let mut table = Counted::new(SCHEMA_AND_ROWS);
    let mut script = Counted::new(script.as_bytes());
    let after = run_shared(telling.rt, means, &mut table, &mut script, &mut out)?;
    let met = sights.counts.met.load(Ordering::SeqCst);
    held(telling.text.push_str(if met { "met" } else { "never met" }))?;
    held(tell_queries(telling.text, after.stats.as_slice()))?;
    tell_file(alloc, telling.text, &after.history)
}

/// Tells what a run writes over so many counting maps, and how often they were begun.
pub(crate) fn begun<R: Threads + Wait + Sync>(
    telling: &mut Telling<'_, R>,
    many: usize,
    cuts: &str,
    lines: &str,
) -> Result<(), Refusal> {
    let alloc = telling.alloc;
    let sights = held(Sights::new(alloc, 0))?;
    let maps = watching(alloc, many, &held(Signals::new(alloc, true))?, &sights)?;
    let script = held(script(alloc, lines))?;
    let _record = tell_run(telling, script.as_slice(), cuts, maps)?;
    let begins = sights.counts.begins.load(Ordering::SeqCst);
    held(write!(telling.text, " {begins} begun"))
}
