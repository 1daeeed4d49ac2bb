//! The program `sideways`: a table and a script go in, reply lines come out, and perhaps a history file; or the history
//! of such a file is checked; or a refusal is explained.
//!
//! The exit status is 0 where all was answered, 1 where a history is not legal, 2 where the command line or what is
//! read is refused, and 3 where a call, the output or memory is.
#![tactic(auto)]

mod import;
mod order;

use crate::import::{NO_DELIMITER, import_of};
use crate::order::ordering_of;
use clap::error::ErrorKind;
use clap::{ArgMatches, Error};
use std::alloc::{AllocError, Global};
use std::fs::File;
use std::io;
use std::io::{IsTerminal, Read};
use std::process::ExitCode;
use std::random::RandomSource;
use std::rt::{Clock, Env, Files};
use std::sync::Wait;
use std::thread::Threads;
use sw_program::{
    Description, Failure, Form, Limit, Place, Refusal, Run, Script, Settings, Shell, Sights,
    Telling, check_path, explain, status, write_fault, write_text,
};
use sw_rows::{Counted, Sink};
use sw_usage::{command, command_named};

/// Standard error: the sink to it, and whether it is a terminal. And whether lines are entered at a terminal and answered there.
#[derive(Drop)]
struct Errors<E: Sink + Drop> {
    sink: E,
    is_terminal: bool,
    prompts: bool,
}

/// The limit of rows that is given.
fn limit_of(given: &ArgMatches<'_>) -> Option<Limit> {
    Limit::new(given.get_one::<u64>("limit")?)
}

/// What a run is told in numbers and flags.
fn settings_of<'a>(given: &ArgMatches<'a>) -> Option<Settings<'a>> {
    Some(Settings {
        limit: limit_of(given)?,
        budget: given.get_one::<u64>("budget")?,
        maps: given.get_one::<u64>("maps")?,
        cuts: given.get_str("cuts")?,
        threads: given.get_flag("threads"),
    })
}

/// What is to be seen of a run.
fn sights_of(given: &ArgMatches<'_>, is_terminal: bool) -> Sights {
    Sights {
        heads: given.get_flag("stats"),
        progress: is_terminal && !given.get_flag("quiet"),
        calls: given.get_flag("times"),
        faults: given.get_flag("all-faults"),
    }
}

/// What is wrong with words that clap took: a call has no line end, and two inputs are not standard input.
const LONG_CALL: &str = "a call of -e is one line";

const ODD_HEADER: &str = "a header of --header has no quotes and no line ends";

const BOTH_STANDARD: &str = "the table and the script cannot both be standard input";

const LINES_STANDARD: &str = "the lines come from standard input, so the table cannot";

/// The lines of the calls that are given, a line feed behind each.
fn lines_of(alloc: Global, calls: &[&str]) -> Result<Vec<u8>, AllocError> {
    let mut lines = Vec::new(alloc);
    for call in calls {
        lines.extend_from_slice(call.as_bytes())?;
        lines.push(b'\n')?;
    }
    Ok(lines)
}

/// The calls that are given.
fn calls_of<'g, 'a>(given: &'g ArgMatches<'a>) -> &'g [&'a str] {
    given.get_strs("call").unwrap_or_default()
}

/// Where the calls come from: the script that is named, or else the lines that are given.
fn script_of<'s, 'a: 's>(given: &ArgMatches<'a>, lines: &'s [u8]) -> Script<'s> {
    match given.get_str("script") {
        Some(name) => Script::At(Place::new(name)),
        None => Script::Given(lines),
    }
}

/// The run that the words ask for, its calls in these lines where no script is named.
fn run_of<'r, 'a: 'r>(
    given: &ArgMatches<'a>,
    lines: &'r [u8],
    is_terminal: bool,
) -> Option<Run<'r>> {
    Some(Run {
        table: Place::new(given.get_str("table")?),
        header: given.get_str("header"),
        script: script_of(given, lines),
        history: given.get_str("history"),
        log: given.get_str("log"),
        settings: settings_of(given)?,
        sights: sights_of(given, is_terminal),
        form: Form::named(given.get_str("output")?)?,
    })
}

/// Prints what the words are answered with in place of a call: the help, the version, or what is wrong with them.
fn print_error<R: Print + Eprint>(rt: &R, error: &Error) -> Result<u8, Failure> {
    if error.kind() == ErrorKind::OutOfMemory {
        return Err(Failure::from(Refusal::NoMemory));
    }
    let is_printed = error.print(rt).is_ok();
    match error.exit_code() {
        0 if is_printed => Ok(0),
        0 => Err(Failure::from(Refusal::Output)),
        _ => Ok(2),
    }
}

/// Refuses words of a command that clap took, as clap refuses others of it.
fn refuse_words<R: Print + Eprint>(
    rt: &R,
    alloc: Global,
    verb: &str,
    why: &str,
) -> Result<u8, Failure> {
    let Ok(mut command) = command_named(alloc, verb) else {
        return Err(Failure::from(Refusal::NoMemory));
    };
    match command.error(ErrorKind::ArgumentConflict, why) {
        Ok(error) => print_error(rt, &error),
        Err(_) => Err(Failure::from(Refusal::NoMemory)),
    }
}

/// Whether a header would be divided otherwise than at its commas.
fn is_odd_header(header: Option<&str>) -> bool {
    match header {
        Some(text) => text
            .as_bytes()
            .iter()
            .any(|byte| *byte == b'"' || *byte == b'\n' || *byte == b'\r'),
        None => false,
    }
}

/// What is wrong with the inputs of a run, if anything: a call of more than one line, an odd header, both of standard input, or a history
/// or a log that would be written over another of its files.
fn wrong_with<R: Files>(rt: &R, run: &Run<'_>, calls: &[&str]) -> Option<&'static str> {
    if calls.iter().any(|call| call.as_bytes().contains(&b'\n')) {
        return Some(LONG_CALL);
    }
    if is_odd_header(run.header) {
        return Some(ODD_HEADER);
    }
    if run.table.is_standard() && run.script.is_standard() {
        return Some(BOTH_STANDARD);
    }
    Some(run.clash(rt)?.text())
}

/// Makes a run, unless something is wrong with its inputs.
fn make_run<
    R: Files + RandomSource + Clock + Print + Eprint + Input + Threads + Wait + Sync,
    E: Sink + Drop,
>(rt: &R, alloc: Global, given: &ArgMatches<'_>, errors: &mut Errors<E>) -> Result<u8, Failure> {
    let calls = calls_of(given);
    let Ok(lines) = lines_of(alloc, calls) else {
        return Err(Failure::from(Refusal::NoMemory));
    };
    let Some(run) = run_of(given, lines.as_slice(), errors.is_terminal) else {
        return Ok(2);
    };
    match wrong_with(rt, &run, calls) {
        Some(why) => refuse_words(rt, alloc, "run", why),
        None => run.make(rt, alloc, &mut errors.sink),
    }
}

/// What is told of a history beside the verdict.
fn telling_of<'g>(given: &'g ArgMatches<'_>) -> Telling<'g> {
    Telling {
        explains: given.get_flag("explain"),
        origins: given.get_str("from-logs"),
    }
}

/// Checks the history file that the words name.
fn make_check<R: Files + RandomSource + Print>(
    rt: &R,
    alloc: Global,
    given: &ArgMatches<'_>,
) -> Result<u8, Failure> {
    match given.get_str("file") {
        Some(path) => check_path(rt, alloc, path, telling_of(given)),
        None => Ok(2),
    }
}

/// Describes the table that the words name.
fn make_description<R: Files + RandomSource + Print + Eprint + Input + Threads + Sync>(
    rt: &R,
    alloc: Global,
    given: &ArgMatches<'_>,
) -> Result<u8, Failure> {
    let (Some(table), Some(form)) = (given.get_str("file"), given.get_str("output")) else {
        return Ok(2);
    };
    let description = Description {
        table: Place::new(table),
        header: given.get_str("header"),
        is_json: form == "json",
        faults: given.get_flag("all-faults"),
    };
    if is_odd_header(description.header) {
        return refuse_words(rt, alloc, "describe", ODD_HEADER);
    }
    description.make(rt, alloc)
}

/// The shell that the words ask for.
fn shell_of<'a>(given: &ArgMatches<'a>, prompts: bool) -> Option<Shell<'a>> {
    Some(Shell {
        table: Place::new(given.get_str("file")?),
        header: given.get_str("header"),
        history: given.get_str("history"),
        settings: Settings {
            limit: limit_of(given)?,
            budget: given.get_one::<u64>("budget")?,
            maps: given.get_one::<u64>("maps")?,
            cuts: given.get_str("cuts")?,
            threads: false,
        },
        faults: given.get_flag("all-faults"),
        prompts,
    })
}

/// What is wrong with the files of a shell, if anything: an odd header, a table on standard input, where the lines come from, or a history
/// that would be written over another of its files.
fn wrong_with_shell<R: Files>(rt: &R, shell: &Shell<'_>) -> Option<&'static str> {
    if is_odd_header(shell.header) {
        return Some(ODD_HEADER);
    }
    if shell.table.is_standard() {
        return Some(LINES_STANDARD);
    }
    Some(shell.clash(rt)?.text())
}

/// Begins a shell, or prints the names for one, unless something is wrong with its files.
fn make_shell<
    R: Files + RandomSource + Clock + Print + Eprint + Input + Threads + Wait + Sync,
    E: Sink + Drop,
>(rt: &R, alloc: Global, given: &ArgMatches<'_>, errors: &mut Errors<E>) -> Result<u8, Failure> {
    let Some(shell) = shell_of(given, errors.prompts) else {
        return Ok(2);
    };
    if let Some(why) = wrong_with_shell(rt, &shell) {
        return refuse_words(rt, alloc, "shell", why);
    }
    if given.get_flag("names") {
        return shell.names(rt, alloc);
    }
    shell.make(rt, alloc, &mut errors.sink)
}

/// Looks for the order that the words ask for, unless the list of origins would be written over another of its files.
fn make_order<
    R: Files + RandomSource + Clock + Print + Eprint + Threads + Wait + Sync,
    E: Sink + Drop,
>(rt: &R, alloc: Global, given: &ArgMatches<'_>, errors: &mut Errors<E>) -> Result<u8, Failure> {
    let Some(ordering) = ordering_of(given, errors.is_terminal) else {
        return Ok(2);
    };
    match ordering.clash(rt) {
        Some(why) => refuse_words(rt, alloc, "order", why),
        None => ordering.make(rt, alloc, &mut errors.sink),
    }
}

/// Makes the table that the words ask for, unless their delimiter is none, or the dictionary would be written over another of its files.
fn make_import<
    R: Files + RandomSource + Clock + Print + Eprint + Input + Threads + Sync,
    E: Sink + Drop,
>(rt: &R, alloc: Global, given: &ArgMatches<'_>, errors: &mut Errors<E>) -> Result<u8, Failure> {
    let Some(import) = import_of(given, errors.is_terminal) else {
        return refuse_words(rt, alloc, "import", NO_DELIMITER);
    };
    match import.clash(rt) {
        Some(why) => refuse_words(rt, alloc, "import", why),
        None => import.make(rt, alloc, &mut errors.sink),
    }
}

/// Makes what the words ask for, a command an arm.
fn make_command<
    R: Files + RandomSource + Clock + Print + Eprint + Input + Threads + Wait + Sync,
    E: Sink + Drop,
>(rt: &R, alloc: Global, matches: &ArgMatches<'_>, errors: &mut Errors<E>) -> Result<u8, Failure> {
    match matches.subcommand() {
        Some(("check", given)) => make_check(rt, alloc, given),
        Some(("describe", given)) => make_description(rt, alloc, given),
        Some(("order", given)) => make_order(rt, alloc, given, errors),
        Some(("import", given)) => make_import(rt, alloc, given, errors),
        Some(("shell", given)) => make_shell(rt, alloc, given, errors),
        Some(("explain", given)) => explain(rt, alloc, given.get_one::<u64>("number")),
        Some((_, given)) => make_run(rt, alloc, given, errors),
        None => Ok(2),
    }
}

/// Reads the words of the command line, and makes what they ask for.
fn read_words<
    R: Files + RandomSource + Clock + Print + Eprint + Input + Threads + Wait + Sync,
    E: Sink + Drop,
>(rt: &R, alloc: Global, words: &[String], errors: &mut Errors<E>) -> Result<u8, Failure> {
    let Ok(command) = command(alloc) else {
        return Err(Failure::from(Refusal::NoMemory));
    };
    match command.try_get_matches_from(words) {
        Ok(matches) => make_command(rt, alloc, &matches, errors),
        Err(error) => print_error(rt, &error),
    }
}

/// The words of the command line. One that is not UTF-8 cannot be read.
fn words_of<R: Env>(rt: &R, alloc: Global) -> Result<Vec<String>, Refusal> {
    match std::env::args(&(rt, alloc)) {
        Ok(words) => match words.collect(alloc) {
            Ok(words) => Ok(words),
            Err(_) => Err(Refusal::NoMemory),
        },
        Err(error) if error.kind() == io::ErrorKind::OutOfMemory => Err(Refusal::NoMemory),
        Err(_) => Err(Refusal::Input),
    }
}

/// Takes the command line and answers the exit status.
fn answer<
    R: Env + Files + RandomSource + Clock + Print + Eprint + Input + Threads + Wait + Sync,
    E: Sink + Drop,
>(rt: &R, alloc: Global, errors: &mut Errors<E>) -> Result<u8, Failure> {
    let words = words_of(rt, alloc)?;
    read_words(rt, alloc, words.as_slice(), errors)
}

/// Tells a failure on standard error: its refusal, and what that means in words, where there are any. The exit status is that of
/// the refusal.
fn tell_failure<E: Sink>(failure: &Failure, errors: &mut E) -> u8 {
    let _ = write_fault(&failure.refusal, errors);
    if let Some(words) = &failure.words {
        let _ = write_text(errors, words.as_bytes());
    }
    status(&failure.refusal)
}

/// The topmost folder as a file that is open, which can neither be read nor written; none where the system opens none.
fn top<R: Files>(rt: &R) -> Option<R::File> {
    File::open(rt, "/").ok()
}

/// How many bytes of the stack are taken at a time.
const PAGE: usize = 4096;

/// How many times they are taken: a run was seen to take 196 KiB, 16 of them before.
const PAGES: usize = 52;

/// Takes so many pages of the stack while there is room for them: where address space is wanting the system ends a program
/// whose stack is to grow, and refuses nothing. A folder cannot be read, so nothing comes; it is asked so that a page is there.
fn take_stack<F: Read>(folder: &mut F, pages: usize) {
    let mut page = [0u8; PAGE];
    if pages > 1 {
        take_stack(folder, pages - 1);
    }
    let _ = folder.read(&mut page);
}

fn main(rt: HostRuntime) -> ExitCode {
    // A file that is opened gets the least number that is free. So the folder takes those of standard streams that are closed, and
    // no other file is read or written in their place.
    let mut held = [top(&rt), top(&rt), top(&rt)];
    if let Some(folder) = &mut held[0] {
        take_stack(folder, PAGES);
    }
    let mut errors = Errors {
        sink: Counted::new(rt.stderr()),
        is_terminal: rt.stderr().is_terminal(),
        prompts: rt.stdin().is_terminal() && rt.stdout().is_terminal(),
    };
    ExitCode::from(match answer(&rt, rt.alloc(), &mut errors) {
        Ok(code) => code,
        Err(failure) => tell_failure(&failure, &mut errors.sink),
    })
}
