//! Who stands around a shell: a terminal, or a pipe and files.

use crate::shelling::Shell;
use std::alloc::{AllocError, Global};
use std::io;
use std::rt::{Clock, Files};
use std::time::{Duration, Instant};
use sw_cli::{HeadStats, head_of, status, write_fault, write_stats_line, write_stats_title};
use sw_commands::{Clash, Outflow, Place, Reader, Script, Seen, is_output, of_unwritten};
use sw_faults::wrong_line;
use sw_files::begin_file;
use sw_lang::{kind_name, write_all, write_number};
use sw_outputs::{Told, write_table};
use sw_rows::{Call, Counted, Refusal, Reply, Schema, Sink, TextKey};
use sw_shell::{Errand, Host, Line};

/// What stands before a line that is awaited.
const PROMPT: &[u8] = b"sideways> ";

/// What is told before the first line.
const GREETING: &[u8] = b"A call a line; .help lists the commands.\n";

const HELP: &[u8] = b"\
A line is a call, as in a script: select, count, sum, min, max, insert, delete; as select a, b where c >= 5.
.names          the attributes, with their kinds
.stats          what each head tells of itself, as run --stats does
.times          tells on standard error what each call takes, in nanoseconds; again: no more
.write FILE     writes the live rows to a file as a table, without their keys
.history FILE   keeps the history in a file, which is written when the shell ends
.help           this list
.quit           ends the shell, as the end of the lines does
";

/// The nanoseconds of a millisecond.
const MILLISECOND: u64 = 1_000_000;

/// The nanoseconds of a time; the greatest number where they are more.
fn nanos_of(time: Duration) -> u64 {
    time.as_secs()
        .saturating_mul(1_000_000_000)
        .saturating_add(u64::from(time.subsec_nanos()))
}

/// What a shell's calls took.
#[derive(Clone, Copy)]
struct Times {
    begun: Option<Instant>,
    are_told: bool,
    calls: u64,
    nanos: [u64; 8],
}

impl Times {
    /// No call was made.
    fn new() -> Times {
        Times {
            begun: None,
            are_told: false,
            calls: 0,
            nanos: [0; 8],
        }
    }

    /// A call ended, that took so long.
    fn add(&mut self, call: &Call, nanos: u64) {
        self.calls = self.calls.saturating_add(1);
        if let Call::Select(query) = call {
            if let Some(all) = self.nanos.get_mut(head_of(query)) {
                *all = all.saturating_add(nanos);
            }
        }
    }

    /// The milliseconds that selects of a head took.
    fn millis(&self, head: usize) -> u64 {
        match self.nanos.get(head) {
            Some(nanos) => *nanos / MILLISECOND,
            None => 0,
        }
    }
}

/// A terminal, or a pipe: replies and what commands tell go to standard output, and what is wrong to `errors`.
#[derive(Drop)]
pub(crate) struct Terminal<'t, 'p, 'o, 'e, R: Files + Clock + Print + Eprint, E: Sink> {
    rt: &'t R,
    alloc: Global,
    key: TextKey,
    table: Place<'p>,
    reader: &'o Reader,
    errors: &'e mut E,
    prompts: bool,
    greeted: bool,
    times: Times,
    /// The file that a line named for the history, if one did.
    named: Option<String>,
    status: u8,
}

/// The attributes as a header has them: the name of each with its kind.
fn fields_of(alloc: Global, schema: &Schema) -> Result<Vec<String>, AllocError> {
    let mut fields = Vec::new(alloc);
    for attr in 0..schema.len() {
        let kind = kind_name(schema.kind(attr));
        fields.push(format!(in alloc; "{}:{kind}", schema.name(attr))?)?;
    }
    Ok(fields)
}

/// The attributes alone, without the texts that are known.
fn bare(alloc: Global, key: TextKey, schema: &Schema) -> Result<Option<Schema>, AllocError> {
    let owned = fields_of(alloc, schema)?;
    let mut fields = Vec::new(alloc);
    for field in &owned {
        fields.push(field.as_str())?;
    }
    Ok(Schema::of(alloc, key, fields.as_slice()).ok())
}

/// The command that the word of a line names without its dot, and what it does.
fn command_named(word: &str) -> Option<&'static str> {
    match word {
        "quit" | "exit" | "q" => Some(".quit ends the shell"),
        "help" | "?" => Some(".help lists the commands"),
        "names" => Some(".names writes the attributes"),
        "stats" => Some(".stats tells of the heads"),
        "times" => Some(".times tells what calls take"),
        "write" => Some(".write FILE writes the live rows"),
        "history" => Some(".history FILE keeps the history"),
        _ => None,
    }
}

/// The command that a line is for but for its dot, if it is for one.
fn command_of(line: Line<'_>) -> Option<&'static str> {
    let text = str::from_utf8(line.bytes).ok()?.trim_ascii();
    match text.split_once(' ') {
        Some((word, _)) => command_named(word),
        None => command_named(text),
    }
}

/// What is wrong with a line, in words; nothing where none are found.
fn words_of(
    alloc: Global,
    key: TextKey,
    schema: &Schema,
    line: Line<'_>,
) -> Result<String, AllocError> {
    let Some(mut schema) = bare(alloc, key, schema)? else {
        return Ok(String::new(alloc));
    };
    let at = format!(in alloc; "line {}", line.number)?;
    let mut words = wrong_line(alloc, &mut schema, at.as_str(), line.bytes)?;
    if let Some(command) = command_of(line) {
        words.push_str(format!(in alloc; "{at}: {command}\n")?.as_str())?;
    }
    Ok(words)
}

/// Writes the attributes, one a line, with their kinds.
fn write_names<W: Sink>(schema: &Schema, out: &mut W) -> Result<(), Refusal> {
    for attr in 0..schema.len() {
        write_all(out, schema.name(attr).as_bytes())?;
        write_all(out, b":")?;
        write_all(out, kind_name(schema.kind(attr)).as_bytes())?;
        write_all(out, b"\n")?;
    }
    Ok(())
}

impl<'t, 'p, 'o, 'e, R: Files + Clock + Print + Eprint, E: Sink> Terminal<'t, 'p, 'o, 'e, R, E> {
    /// What stands around a shell, of which no line was taken yet.
    pub(crate) fn new(
        seen: &'o Seen<'t, R>,
        alloc: Global,
        key: TextKey,
        shell: &Shell<'p>,
        errors: &'e mut E,
    ) -> Terminal<'t, 'p, 'o, 'e, R, E> {
        Terminal {
            rt: seen.rt(),
            alloc,
            key,
            table: shell.table,
            reader: seen.reader(),
            errors,
            prompts: shell.prompts,
            greeted: false,
            times: Times::new(),
            named: None,
            status: 0,
        }
    }

    /// The file that a line named for the history, if one did, and the greatest status of what was refused.
    pub(crate) fn into_end(self) -> (Option<String>, u8) {
        let Terminal { named, status, .. } = self;
        (named, status)
    }

    /// Standard output.
    fn out(&self) -> Counted<Outflow<'o, io::Printer<'t, R>>> {
        Counted::new(Outflow::new(io::writer(self.rt), self.reader))
    }

    /// Writes a text to standard output.
    fn print(&self, text: &[u8]) -> Result<(), Refusal> {
        write_all(&mut self.out(), text)
    }

    /// A command is wrong: tells its line, and why.
    fn wrong(&mut self, line: Line<'_>, why: &[u8]) -> Result<(), Refusal> {
        self.status = self.status.max(2);
        write_all(self.errors, b"sideways: line ")?;
        write_number(line.number, self.errors)?;
        write_all(self.errors, why)
    }

    /// Tells a refusal, and counts its status.
    fn tell(&mut self, refusal: &Refusal) -> Result<(), Refusal> {
        self.status = self.status.max(status(refusal));
        write_fault(refusal, self.errors)
    }

    /// Writes what each head tells of itself.
    fn print_stats(&self, schema: &Schema, stats: &[HeadStats]) -> Result<(), Refusal> {
        let mut out = self.out();
        write_stats_title(&mut out)?;
        for head in 0..schema.len().min(stats.len()) {
            let name = schema.name(head).as_bytes();
            write_stats_line(name, &stats[head], self.times.millis(head), &mut out)?;
        }
        Ok(())
    }

    /// Writes rows to a file as a table.
    fn write_rows(
        &self,
        schema: &Schema,
        file: &str,
        call: &Call,
        reply: &Reply,
    ) -> Result<(), Refusal> {
        let told = Told {
            number: 1,
            block: 1,
            line: None,
            call,
            reply: Some(reply),
        };
        let mut out = begin_file(self.rt, self.alloc, file)?;
        let written = write_table(self.alloc, schema, &told, &mut out);
        out.end(self.rt, written)
    }

    /// Writes rows to a file as a table, and tells where that is refused.
    fn keep_rows(
        &mut self,
        schema: &Schema,
        file: &str,
        call: &Call,
        reply: &Reply,
    ) -> Result<(), Refusal> {
        let Err(refusal) = self.write_rows(schema, file, call, reply) else {
            return Ok(());
        };
        self.tell(&refusal)?;
        match of_unwritten(self.rt, self.alloc, file, &refusal) {
            Some(words) => write_all(self.errors, words.as_bytes()),
            None => Ok(()),
        }
    }

    /// The history is to be kept in a file, unless it would be written over another one.
    fn keep_history(&mut self, line: Line<'_>, file: &str) -> Result<(), Refusal> {
        if let Some(clash) = Clash::of(self.rt, self.table, Script::Given(&[]), Some(file)) {
            let Ok(why) = format!(in self.alloc; ": {}\n", clash.text()) else {
                return self.tell(&Refusal::NoMemory);
            };
            return self.wrong(line, why.as_bytes());
        }
        match String::from_str(self.alloc, file) {
            Ok(file) => {
                self.named = Some(file);
                Ok(())
            }
            Err(_) => self.tell(&Refusal::NoMemory),
        }
    }

    /// What calls take is told from now on, or no more.
    fn turn_times(&mut self) -> Result<(), Refusal> {
        self.times.are_told = !self.times.are_told;
        let told: &[u8] = if self.times.are_told {
            b"times are told\n"
        } else {
            b"times are not told\n"
        };
        write_all(self.errors, told)
    }

    /// Tells what the call took that ended, where that is asked.
    fn tell_time(&mut self, nanos: u64) {
        if self.times.are_told {
            let _ = eprintln!(self.rt; "{} {nanos}", self.times.calls);
        }
    }
}

impl<R: Files + Clock + Print + Eprint, E: Sink> Host for Terminal<'_, '_, '_, '_, R, E> {
    fn awaits(&mut self) -> Result<(), Refusal> {
        if !self.prompts {
            return Ok(());
        }
        if !self.greeted {
            self.greeted = true;
            self.print(GREETING)?;
        }
        self.print(PROMPT)
    }

    fn begins(&mut self) {
        self.times.begun = Instant::now(self.rt).ok();
    }

    fn ended(&mut self, call: &Call, is_answered: bool) {
        let nanos = match self.times.begun {
            Some(begun) => match begun.elapsed(self.rt) {
                Ok(time) => nanos_of(time),
                Err(_) => 0,
            },
            None => 0,
        };
        self.times.add(call, nanos);
        self.tell_time(nanos);
        if !is_answered {
            self.status = 3;
        }
    }

    fn refused(
        &mut self,
        schema: &Schema,
        line: Line<'_>,
        refusal: &Refusal,
    ) -> Result<(), Refusal> {
        self.tell(refusal)?;
        match words_of(self.alloc, self.key, schema, line) {
            Ok(words) => write_all(self.errors, words.as_bytes()),
            Err(_) => Ok(()),
        }
    }

    fn obeys(
        &mut self,
        schema: &Schema,
        line: Line<'_>,
        errand: Errand<'_>,
    ) -> Result<(), Refusal> {
        match errand {
            Errand::Help => self.print(HELP),
            Errand::Names => write_names(schema, &mut self.out()),
            Errand::Times => self.turn_times(),
            Errand::Stats(stats) => self.print_stats(schema, stats),
            Errand::Write { file, .. } if is_output(self.rt, file) => {
                self.wrong(line, b": the rows would be written over the replies\n")
            }
            Errand::Write { file, call, reply } => self.keep_rows(schema, file, call, reply),
            Errand::History(file) => self.keep_history(line, file),
            Errand::Nameless => self.wrong(line, b": the command wants the name of a file\n"),
            Errand::Unknown => self.wrong(line, b": no such command; .help lists them\n"),
            Errand::Refused(refusal) => self.tell(refusal),
        }
    }
}
