//! A run over files.

ghost use Rattle.std.specs.Prelude.{◌≡◌, ◌⊎◌, IfOk, if◌then◌else◌};

use crate::logging::{Times, Watch, keep_log};
use std::alloc::Global;
use std::io;
use std::random::RandomSource;
use std::rt::{Clock, Files};
use std::sync::Wait;
use std::thread::Threads;
use sw_cli::{
    AfterRun, Means, Noting, Onlooker, Options, blank_boxes, run_shared, write_out_record,
    write_record, write_stats_line, write_stats_title,
};
use sw_commands::{
    Asking, Clash, Failure, Form, Keeping, Keeps, Kept, LinesSeen, Outflow, Place, Script, Seen,
    Settings, Sights, What, are_ample, is_read_once, of_form, of_output, open_script, open_table,
    script_bytes, shape, words,
};
use sw_files::begin_file;
use sw_lang::write_all;
use sw_map::PairMap;
use sw_rows::{Counted, Refusal, Sink, Source, TextKey};
use sw_spine::Record;

/// A run that is asked for: its files, what it is told, and what is to be seen of it.
#[derive(Clone, Copy)]
pub struct Run<'a> {
    /// Where the table is.
    pub table: Place<'a>,
    /// The header that stands in place of the table's first record, if one is given.
    pub header: Option<&'a str>,
    /// Where the calls come from.
    pub script: Script<'a>,
    /// Where the history goes, if anywhere.
    pub history: Option<&'a str>,
    /// Where the log of its calls goes, if anywhere.
    pub log: Option<&'a str>,
    /// What it is told in numbers and flags.
    pub settings: Settings<'a>,
    /// What is to be seen of it.
    pub sights: Sights,
    /// The form in which its replies go out.
    pub form: Form,
}

/// What a run leaves, and whether a call of it was refused.
#[derive(Drop)]
struct Ended {
    run: AfterRun,
    has_refused: bool,
}

/// Runs a script over a table, of which both are open.
fn run_open<R: Threads + Wait + Sync, O: Onlooker, T: Source, S: Source, W: Sink + Drop>(
    rt: &R,
    means: Means<'_, PairMap, O>,
    table: &mut T,
    script: &mut S,
    out: W,
) -> Result<Ended, Refusal> {
    let mut noting = Noting::new(out);
    let run = run_shared(rt, means, table, script, &mut noting)?;
    Ok(Ended {
        run,
        has_refused: noting.has_refused(),
    })
}

/// The sources of a run, of which what can be read only once is kept.
#[derive(Drop)]
struct Sources<T: Source + Drop, S: Source + Drop> {
    table: Keeping<T>,
    script: Keeping<S>,
}

/// Makes the boxes of a run whose files are open, and runs it.
fn run_between<
    R: Files + RandomSource + Clock + Print + Eprint + Threads + Wait + Sync,
    T: Source + Drop,
    S: Source + Drop,
>(
    rt: &R,
    alloc: Global,
    run: &Run<'_>,
    sources: &mut Sources<T, S>,
    watch: &Watch<'_, '_, R>,
) -> Result<Ended, Refusal> {
    let settings = &run.settings;
    let maps = blank_boxes(alloc, settings.budget, settings.maps)?;
    let options = Options {
        limit: settings.limit.rows,
        cuts: settings.cuts,
        threads: settings.threads && are_ample(rt, alloc),
        key: TextKey::new(rt)?,
    };
    let means = Means {
        alloc,
        options: &options,
        maps,
        onlooker: watch,
    };
    if run.form == Form::Lines {
        let out = Counted::new(Outflow::new(io::writer(rt), watch.seen.reader()));
        return run_open(rt, means, &mut sources.table, &mut sources.script, out);
    }
    let out = Counted::new(io::sink());
    run_open(rt, means, &mut sources.table, &mut sources.script, out)
}

/// What came of a run, and what was kept of its table and its script.
#[derive(Drop)]
struct Came {
    ended: Result<Ended, Refusal>,
    kept: Keeps,
}

/// What is to be kept of the script of a run: all of it also where the lines of its calls are to be told.
fn keeping_script<R: Files>(rt: &R, alloc: Global, run: &Run<'_>) -> Kept {
    match run.script {
        Script::At(place) => {
            let is_told = run.form != Form::Lines;
            Kept::new(alloc, is_told || is_read_once(rt, place))
        }
        Script::Given(_) => Kept::new(alloc, false),
    }
}

/// Runs over what is read of a table and a script.
fn run_keeping<
    R: Files + RandomSource + Clock + Print + Eprint + Threads + Wait + Sync,
    T: Source + Drop,
    S: Source + Drop,
>(
    rt: &R,
    alloc: Global,
    run: &Run<'_>,
    mut sources: Sources<T, S>,
    watch: &Watch<'_, '_, R>,
) -> Came {
    let came = run_between(rt, alloc, run, &mut sources, watch);
    let Sources { table, script } = sources;
    let ended = match came {
        Ok(ended) => Ok(ended),
        Err(refusal) => Err(script.why(table.why(refusal))),
    };
    let kept = Keeps {
        table: table.into_kept(),
        script: script.into_kept(),
    };
    Came { ended, kept }
}

/// What comes of a run whose table or script cannot be opened.
fn unopened(refusal: Refusal) -> Came {
    Came {
        ended: Err(refusal),
        kept: Keeps {
            table: Kept::Often,
            script: Kept::Often,
        },
    }
}

/// Opens the table, then the script, and runs.
fn run_named<R: Files + RandomSource + Clock + Print + Eprint + Input + Threads + Wait + Sync>(
    rt: &R,
    alloc: Global,
    run: &Run<'_>,
    watch: &Watch<'_, '_, R>,
) -> Came {
    let table = match open_table(rt, alloc, run.table, run.header) {
        Ok(table) => {
            let table = Counted::new(table);
            LinesSeen::new(table, watch.seen, What::Table)
        }
        Err(refusal) => return unopened(refusal),
    };
    let script = match open_script(rt, run.script) {
        Ok(script) => Counted::new(script),
        Err(refusal) => return unopened(refusal),
    };
    let sources = Sources {
        table: Keeping::new(table, Kept::new(alloc, is_read_once(rt, run.table))),
        script: Keeping::new(script, keeping_script(rt, alloc, run)),
    };
    run_keeping(rt, alloc, run, sources, watch)
}

/// Writes a record to the file of a path; the record stays.
fn keep_whole<R: Files>(
    rt: &R,
    alloc: Global,
    history: &Record,
    path: &str,
) -> Result<(), Refusal> {
    let mut file = begin_file(rt, alloc, path)?;
    let written = write_record(alloc, history, &mut file);
    file.end(rt, written)
}

/// Writes a record to the file of a path; its entries go meanwhile, so that not both stand whole.
fn give_out<R: Files>(
    rt: &R,
    alloc: Global,
    history: &mut Record,
    path: &str,
) -> Result<(), Refusal> {
    let mut file = begin_file(rt, alloc, path)?;
    let written = write_out_record(alloc, history, &mut file);
    file.end(rt, written)
}

/// What came of writing the file of a path: done, or why not.
fn done_or_unwritten<R: Files>(
    rt: &R,
    alloc: Global,
    path: &str,
    written: Result<(), Refusal>,
) -> Result<(), Failure> {
    match written {
        Ok(()) => Ok(()),
        Err(refusal) => Err(Failure::of_unwritten(rt, alloc, path, refusal)),
    }
}

/// Writes a record to the file of a path, if there is one, and its entries go. Where that is refused the failure's words tell why.
pub(crate) fn keep<R: Files>(
    rt: &R,
    alloc: Global,
    history: &mut Record,
    path: Option<&str>,
) -> Result<(), Failure> {
    let Some(path) = path else {
        return Ok(());
    };
    let written = give_out(rt, alloc, history, path);
    done_or_unwritten(rt, alloc, path, written)
}

/// Writes what each head tells of itself, on standard error.
fn tell<R: Clock + Eprint, E: Sink>(
    ended: &Ended,
    seen: &Seen<'_, R>,
    errors: &mut E,
) -> Result<(), Refusal> {
    let stats = &ended.run.stats;
    let schema = &ended.run.history.schema;
    write_stats_title(errors)?;
    for head in 0..schema.len().min(stats.len()) {
        let name = schema.name(head).as_bytes();
        write_stats_line(name, &stats[head], seen.millis(head), errors)?;
    }
    Ok(())
}

/// What is told where calls were refused, and their lines stand nowhere.
const REFUSED: &[u8] = b"sideways: calls were refused; --output lines shows which\n";

/// What is left to do after a run whose files were written: to tell of refused calls that have no line, and what the heads tell where
/// that is asked. Answers the exit status: 3 where a call was refused, else 0.
fn finish<R: Clock + Eprint, E: Sink>(
    run: &Run<'_>,
    ended: &Ended,
    seen: &Seen<'_, R>,
    errors: &mut E,
) -> Result<u8, Failure>
    ensures { IfOk result (λ status. status ≡ (if ended.now.has_refused then 3 else 0)) }
{
    if ended.has_refused && run.form != Form::Lines {
        write_all(errors, REFUSED)?;
    }
    if run.sights.heads {
        tell(ended, seen, errors)?;
    }
    Ok(if ended.has_refused { 3 } else { 0 })
}

impl Run<'_> {
    /// What the history or the log would be written over: another file of the run, if any. Such a run is not to be made.
    pub fn clash<R: Files>(&self, rt: &R) -> Option<Clash> {
        Clash::of(rt, self.table, self.script, self.history).or_else(|| Clash::of_log(
            rt,
            self.table,
            self.script,
            self.history,
            self.log,
        ))
    }

    /// What is asked by it.
    fn asking(&self) -> Asking<'_> {
        Asking {
            table: self.table,
            header: self.header,
            script: Some(self.script),
            cuts: self.settings.cuts,
            faults: self.sights.faults,
        }
    }

    /// The failure of the run that this refusal ended, whose words tell why it was not made.
    fn failure<R: Files + RandomSource + Clock + Eprint>(
        &self,
        alloc: Global,
        seen: &Seen<'_, R>,
        refusal: Refusal,
        kept: Keeps,
    ) -> Failure {
        let words = match &refusal {
            Refusal::Output => of_output(alloc, seen.reader(), &refusal),
            _ => words(seen.rt(), alloc, &self.asking(), &refusal, kept),
        };
        Failure { refusal, words }
    }

    /// Writes the replies in the form that is asked, where they did not go out as lines. Where that is refused the failure's words
    /// tell why.
    fn shape<R: Clock + Print + Eprint>(
        &self,
        alloc: Global,
        seen: &Seen<'_, R>,
        history: &Record,
        script: Option<&[u8]>,
    ) -> Result<(), Failure> {
        let out = Outflow::new(io::writer(seen.rt()), seen.reader());
        match shape(alloc, self.form, history, script, out) {
            Ok(()) => Ok(()),
            Err(refusal) => {
                let words = match &refusal {
                    Refusal::Output => of_output(alloc, seen.reader(), &refusal),
                    _ => of_form(alloc, &refusal, self.script),
                };
                Err(Failure { refusal, words })
            }
        }
    }

    /// Writes what the run leaves in files: its history, then the log of its calls. Where one is refused the failure's words tell
    /// which, and why. The record may have no entries behind it.
    fn leave<R: Files>(
        &self,
        rt: &R,
        alloc: Global,
        history: &mut Record,
        times: Option<Times>,
    ) -> Result<(), Failure> {
        let (Some(times), Some(log)) = (times, self.log) else {
            return keep(rt, alloc, history, self.history);
        };
        if let Some(path) = self.history {
            let written = keep_whole(rt, alloc, history, path);
            done_or_unwritten(rt, alloc, path, written)?;
        }
        let written = keep_log(rt, alloc, history, times, log);
        done_or_unwritten(rt, alloc, log, written)
    }

    /// Makes the run: the replies go to standard output, then the history and the log to their files, then what the heads
    /// tell to `errors`. Answers the exit status: 0 where all calls were answered, else 3. Refused as `run_with` is, `Input` where
    /// the table or the script cannot be opened or the system gives no random bytes for the key of texts, and `Output` where
    /// the history, the log or `errors` cannot be written.
    ///
    /// The failure's words tell what the refusal means, as lines, where words can be found: where it is, what is wrong there,
    /// and what was wanted.
    pub fn make<
        R: Files + RandomSource + Clock + Print + Eprint + Input + Threads + Wait + Sync,
        E: Sink,
    >(&self, rt: &R, alloc: Global, errors: &mut E) -> Result<u8, Failure>
        ensures { IfOk result (λ status. (status ≡ 0) ⊎ (status ≡ 3)) }
    {
        let seen = Seen::new(rt, self.sights, self.log.is_some());
        let is_last_alone = self.form == Form::Table;
        let watch = Watch::new(alloc, &seen, self.log.is_some(), is_last_alone);
        let Came { ended, kept } = run_named(rt, alloc, self, &watch);
        let mut ended = match ended {
            Ok(ended) => ended,
            Err(refusal) => return Err(self.failure(alloc, &seen, refusal, kept)),
        };
        watch.answers_last()?;
        let script = script_bytes(self.script, &kept.script);
        self.shape(alloc, &seen, &ended.run.history, script)?;
        self.leave(rt, alloc, &mut ended.run.history, watch.into_times())?;
        finish(self, &ended, &seen, errors)
    }
}
