//! A shell over the table of a file, whose lines come from standard input.

ghost use Rattle.std.specs.Prelude.{◌≡◌, IfOk};

use crate::running::keep;
use crate::terminal::Terminal;
use std::alloc::Global;
use std::io;
use std::io::BufReader;
use std::random::RandomSource;
use std::rt::{Clock, Files};
use std::sync::Wait;
use std::thread::Threads;
use sw_cli::{Options, blank_boxes};
use sw_commands::{
    Asking, Clash, Failure, Inflow, Keeping, Keeps, Kept, Outflow, Place, Reader, Script, Seen,
    Settings, Sights, is_read_once, open_table, words,
};
use sw_headers::Headed;
use sw_lang::write_all;
use sw_rows::{Counted, Refusal, Schema, Sink, Source, TextKey, load_in_parts};
use sw_shell::{Console, Ended, converse};

/// A table that is open, of which is kept what can be read only once.
type Table<F, I> = Keeping<Counted<Headed<Inflow<'static, F, I>>>>;

/// A shell that is asked for.
#[derive(Clone, Copy)]
pub struct Shell<'a> {
    /// Where the table is.
    pub table: Place<'a>,
    /// The header that stands in place of the table's first record, if one is given.
    pub header: Option<&'a str>,
    /// Where the history goes, if anywhere.
    pub history: Option<&'a str>,
    /// What it is told in numbers and flags.
    pub settings: Settings<'a>,
    /// Whether all faults of a table that is refused are told, in place of the first.
    pub faults: bool,
    /// Whether lines are awaited with a prompt.
    pub prompts: bool,
}

/// The words that a line may have besides the names of attributes.
const WORDS: &str = "select\ncount\nsum\nmin\nmax\ninsert\ndelete\nwhere\nand\ntrue\nfalse\n\
.help\n.names\n.stats\n.times\n.write\n.history\n.quit\n";

/// Writes the names of attributes, and the words that a line may have, one a line.
fn write_words<W: Sink>(schema: &Schema, out: &mut W) -> Result<(), Refusal> {
    for attr in 0..schema.len() {
        write_all(out, schema.name(attr).as_bytes())?;
        write_all(out, b"\n")?;
    }
    write_all(out, WORDS.as_bytes())
}

impl Shell<'_> {
    /// What the history would be written over: the table, or where the replies or errors go, if anything. Such a shell is not to
    /// be begun.
    pub fn clash<R: Files>(&self, rt: &R) -> Option<Clash> {
        Clash::of(rt, self.table, Script::Given(&[]), self.history)
    }

    /// What is asked by it.
    fn asking(&self) -> Asking<'_> {
        Asking {
            table: self.table,
            header: self.header,
            script: None,
            cuts: self.settings.cuts,
            faults: self.faults,
        }
    }

    /// The failure of a shell that was refused before its first line, of whose table this was kept.
    fn failure<R: Files + RandomSource>(
        &self,
        rt: &R,
        alloc: Global,
        refusal: Refusal,
        kept: Kept,
    ) -> Failure {
        let kept = Keeps {
            table: kept,
            script: Kept::Often,
        };
        let words = words(rt, alloc, &self.asking(), &refusal, kept);
        Failure { refusal, words }
    }

    /// The same where its table was open.
    fn failure_over<R: Files + RandomSource, T: Source + Drop>(
        &self,
        rt: &R,
        alloc: Global,
        refusal: Refusal,
        table: Keeping<T>,
    ) -> Failure {
        let refusal = table.why(refusal);
        self.failure(rt, alloc, refusal, table.into_kept())
    }

    /// Opens the table. Refused `Input` where that cannot be done, of which the failure's words tell why, and `NoMemory`.
    fn open<R: Files + RandomSource + Input>(
        &self,
        rt: &R,
        alloc: Global,
    ) -> Result<Table<R::File, R::Reader>, Failure> {
        match open_table(rt, alloc, self.table, self.header) {
            Ok(source) => {
                let kept = Kept::new(alloc, is_read_once(rt, self.table));
                Ok(Keeping::new(Counted::new(source), kept))
            }
            Err(refusal) => Err(self.failure(rt, alloc, refusal, Kept::Often)),
        }
    }

    /// What is left to do when no more lines are taken: the history is kept, in the file that a line named or else in the shell's own,
    /// also where a failure ended the shell, by which it is refused then.
    fn finish<R: Files + Clock + Eprint>(
        &self,
        seen: &Seen<'_, R>,
        alloc: Global,
        mut ended: Ended,
        named: Option<String>,
    ) -> Result<(), Failure> {
        let path = match &named {
            Some(path) => Some(path.as_str()),
            None => self.history,
        };
        keep(seen.rt(), alloc, &mut ended.history, path)?;
        let Ended { failure: why, .. } = ended;
        let Some(refusal) = why else {
            return Ok(());
        };
        Err(match refusal {
            Refusal::Input => Failure::of_unread(seen.rt(), alloc, Place::new("-"), refusal),
            _ => Failure::of_output(alloc, seen.reader(), refusal),
        })
    }

    /// Begins the shell: reads the table, and then answers each line of standard input when it is entered, on standard output;
    /// what is wrong with one goes to `errors`. At the end the history is written to its file, if there is one.
    ///
    /// Answers the exit status: 0 where all was answered and obeyed; 3 where a call or a file that was to be written was refused;
    /// else 2, where a line was. Refused as a run is before its first call, and where standard input, standard output or the
    /// history's file fails; the failure's words tell what that means, where they can be found.
    pub fn make<
        R: Files + RandomSource + Clock + Print + Eprint + Input + Threads + Wait + Sync,
        E: Sink,
    >(&self, rt: &R, alloc: Global, errors: &mut E) -> Result<u8, Failure> {
        let key = TextKey::new(rt)?;
        let mut table = self.open(rt, alloc)?;
        let maps = blank_boxes(alloc, self.settings.budget, self.settings.maps)?;
        let options = Options {
            limit: self.settings.limit.rows,
            cuts: self.settings.cuts,
            threads: false,
            key,
        };
        let Ok(lines) = BufReader::new(alloc, rt.reader()) else {
            return Err(Failure::from(Refusal::NoMemory));
        };
        let seen = Seen::new(rt, Sights::of_progress(false), false);
        let mut console = Console {
            lines,
            out: Counted::new(Outflow::new(io::writer(rt), seen.reader())),
            host: Terminal::new(&seen, alloc, key, self, errors),
        };
        let ended = converse(rt, alloc, &mut table, &options, maps, &mut console);
        let Console { host, .. } = console;
        let (named, status) = host.into_end();
        match ended {
            Ok(ended) => {
                self.finish(&seen, alloc, ended, named)?;
                Ok(status)
            }
            Err(refusal) => Err(self.failure_over(rt, alloc, refusal, table)),
        }
    }

    /// Writes the names of the table's attributes to standard output, and the words that a line may have, one a line, for programs
    /// that complete them. Answers 0, and is refused as a description is.
    pub fn names<R: Files + RandomSource + Print + Input + Threads + Sync>(
        &self,
        rt: &R,
        alloc: Global,
    ) -> Result<u8, Failure>
        ensures { IfOk result (λ status. status ≡ 0) }
    {
        let key = TextKey::new(rt)?;
        let mut table = self.open(rt, alloc)?;
        match load_in_parts(rt, alloc, key, &mut table) {
            Ok((schema, _)) => print_words(rt, alloc, &schema),
            Err(refusal) => Err(self.failure_over(rt, alloc, refusal, table)),
        }
    }
}

/// Writes the words that a line may have to standard output. Answers 0. Where that is refused the failure's words tell why.
fn print_words<R: Print>(rt: &R, alloc: Global, schema: &Schema) -> Result<u8, Failure>
    ensures { IfOk result (λ status. status ≡ 0) }
{
    let reader = Reader::new();
    let mut out = Counted::new(Outflow::new(io::writer(rt), &reader));
    match write_words(schema, &mut out) {
        Ok(()) => Ok(0),
        Err(refusal) => Err(Failure::of_output(alloc, &reader, refusal)),
    }
}
