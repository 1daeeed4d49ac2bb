//! The words of the command line that the program takes.

use crate::args::{
    ALL_FAULTS, BUDGET, CUTS, HEADER, HISTORY, LIMIT, MAPS, Takes, Verb, Word, command_of, with,
};
use crate::import::IMPORT;
use crate::order::order_command;
use crate::shell::SHELL;
use clap::{Arg, ArgAction, ArgGroup, Command};
use std::alloc::{AllocError, Global};

/// The version of the program.
const VERSION: &str = "0.1.0";

/// The version, and the logic by which it is proved, which `rt version` tells behind the name of the kit.
const LONG_VERSION: &str = "0.1.0\nproved with logic dac8208d650f15bf";

/// What ends the help of each command.
const EXAMPLES: &str = "\
Examples:
  sideways import data.csv > t.csv
  sideways describe t.csv
  sideways run --table t.csv -e 'count where a >= 10'
  sideways run --help
  sideways explain 2

Exit status:
  0  each call was answered, the history is legal, or an order was found
  1  the history is not legal, or there is no order; nothing else ends so
  2  the command line, a file that is read, or a line of a shell was refused
  3  a call, the output, a file that is written or memory was refused, or a search was given up";

const EXAMPLES_OF_RUN: &str = "\
Examples:
  sideways run --table t.csv -e 'count' -e 'select b where a >= 10'
  sideways run --table t.csv --script calls.txt --history h.json
  sideways run --table data.csv --header 'price:fix2,-,city:text' -e 'max price'
  zcat t.csv.gz | sideways run --table - -e 'sum b where a < 20' --stats

A call is one of: select a, b; count; sum a; min a; max a, each perhaps with where, as where a >= 1 and b = 'Oslo'; insert 1, 'Oslo'; \
delete 3, by a row's key; delete where a < 5. Rows come with their keys, which count from 1.

Status 0: each call was answered; 2: the command line, the table or the script was refused; 3: a call, the output, a file or memory was.";

const EXAMPLES_OF_DESCRIBE: &str = "\
Examples:
  sideways describe t.csv
  zcat t.csv.gz | sideways describe - --output json";

const EXAMPLES_OF_CHECK: &str = "\
Examples:
  sideways run --table t.csv --script calls.txt --history h.json
  sideways check h.json

Status 0: the history is legal; 1: it is not; 2: the command line or the file was refused; 3: the output or memory was.";

const EXAMPLES_OF_EXPLAIN: &str = "\
Examples:
  sideways explain 2
  sideways explain";

/// The forms in which replies go out.
const FORMS: &[&str] = &["lines", "csv", "json", "table"];

/// The words of `run` before the calls.
const RUN: Verb = Verb {
    name: "run",
    about: "Answers the calls of a script over a table, a reply line each",
    examples: EXAMPLES_OF_RUN,
    words: &[
        Word {
            name: "table",
            of: "FILE",
            takes: Takes::Needed,
            usual: None,
            help: "The table: comma-separated values, of which the first record names the attributes; - is standard input",
        },
        HEADER,
    ],
};

/// The words of `run` behind the calls.
const MORE: &[Word] = &[
    BUDGET,
    MAPS,
    CUTS,
    LIMIT,
    Word {
        name: "threads",
        of: "",
        takes: Takes::Nothing,
        usual: None,
        help: "Gives each block of the script a thread of its own; the replies still come in the order of the script",
    },
    Word {
        name: "stats",
        of: "",
        takes: Takes::Nothing,
        usual: None,
        help: "Writes a table to standard error after the run, a line for each attribute: its queries, areas, pieces, tape entries, restarts, maps, cells and scans, and the milliseconds that its queries took; without it nothing",
    },
    Word {
        name: "times",
        of: "",
        takes: Takes::Nothing,
        usual: None,
        help: "Writes a line to standard error for each call when it has ended: its number among those that have ended, and the nanoseconds that it took",
    },
    Word {
        name: "quiet",
        of: "",
        takes: Takes::Nothing,
        usual: None,
        help: "Leaves out the lines that tell on standard error, where that is a terminal, how far the run is: one a second, after the first second",
    },
    ALL_FAULTS,
    Word {
        name: "output",
        of: "FORM",
        takes: Takes::OneOf(FORMS),
        usual: Some("lines"),
        help: "The form of the replies: lines; csv, records under a header; json, a line of JSON each; table, the last reply alone as a table, where it is that of a select",
    },
    HISTORY,
    Word {
        name: "log",
        of: "FILE",
        takes: Takes::Text,
        usual: None,
        help: "Where a log of the calls is written after the replies, as sideways order reads it: of each call its block, the nanoseconds from the run's beginning at which it began and ended, and its reply",
    },
];

/// The forms of a description.
const DESCRIPTIONS: &[&str] = &["table", "json"];

/// The words of `describe`.
const DESCRIBE: Verb = Verb {
    name: "describe",
    about: "Says what the columns of a table have: how many distinct cells, the least and the greatest, the most frequent texts",
    examples: EXAMPLES_OF_DESCRIBE,
    words: &[
        Word {
            name: "file",
            of: "FILE",
            takes: Takes::Place,
            usual: None,
            help: "The table; - is standard input",
        },
        HEADER,
        Word {
            name: "output",
            of: "FORM",
            takes: Takes::OneOf(DESCRIPTIONS),
            usual: Some("table"),
            help: "The form of the description: a table to read, or json, one line of it",
        },
        ALL_FAULTS,
    ],
};

/// The words of `check` but the last.
const CHECK: Verb = Verb {
    name: "check",
    about: "Says whether a history is that of one thread over a plain list of rows",
    examples: EXAMPLES_OF_CHECK,
    words: &[
        Word {
            name: "file",
            of: "FILE",
            takes: Takes::Place,
            usual: None,
            help: "The history file; - is standard input",
        },
        Word {
            name: "explain",
            of: "",
            takes: Takes::Nothing,
            usual: None,
            help: "Tells after the verdict why a history is not legal: the entry, its reply and the one that it should have at the first line where they differ, and the entries that changed its rows last",
        },
    ],
};

fn script<'a>(alloc: Global) -> Arg<'a> {
    Arg::new(alloc, "script")
        .long("script")
        .value_name("FILE")
        .help("The script: a call a line; a line --- divides blocks; - is standard input")
        .action(ArgAction::Set)
}

fn call<'a>(alloc: Global) -> Arg<'a> {
    Arg::new(alloc, "call")
        .short('e')
        .value_name("CALL")
        .help("A call, in place of a script; given again, a line each")
        .action(ArgAction::Append)
        .allow_hyphen_values(true)
}

/// Where the calls come from: one of the two, so that what is missing is told with both.
fn calls<'a>(alloc: Global) -> Result<ArgGroup<'a>, AllocError> {
    let group = ArgGroup::new(alloc, "calls").arg("script")?.arg("call")?;
    Ok(group.required(true))
}

/// A run with its script or its calls.
fn with_calls<'a>(alloc: Global, run: Command<'a>) -> Result<Command<'a>, AllocError> {
    let calls = calls(alloc)?;
    run.arg(script(alloc))?.arg(call(alloc))?.group(calls)
}

fn run_command<'a>(alloc: Global) -> Result<Command<'a>, AllocError> {
    let run = with_calls(alloc, command_of(alloc, &RUN)?)?;
    with(alloc, run, MORE)
}

/// Where the origins are that a check tells of.
fn from_logs<'a>(alloc: Global) -> Result<Arg<'a>, AllocError> {
    Arg::new(alloc, "from-logs")
        .long("from-logs")
        .value_name("FILE")
        .help(
            "What sideways order --where wrote: tells of each entry that --explain names from which log and record it came",
        )
        .action(ArgAction::Set)
        .requires_arg("explain")
}

fn check_command<'a>(alloc: Global) -> Result<Command<'a>, AllocError> {
    let origins = from_logs(alloc)?;
    command_of(alloc, &CHECK)?.arg(origins)
}

fn explain_command<'a>(alloc: Global) -> Result<Command<'a>, AllocError> {
    Command::new(alloc, "explain")
        .about("Says what the number after `refused` means, and what to do about it")
        .after_help(EXAMPLES_OF_EXPLAIN)
        .arg(
            Arg::new(alloc, "number")
                .value_name("N")
                .help("The number: 1 to 14; all of them where it is left out")
                .value_parser(clap::value_parser!(u64).range(1..=14))
                .action(ArgAction::Set),
        )
}

/// The names of all commands, in the order of help.
const COMMANDS: &[&str] = &[
    "run", "shell", "check", "describe", "order", "import", "explain",
];

/// A command by itself: that of a name, and `run` for any other.
fn command_alone<'a>(alloc: Global, name: &str) -> Result<Command<'a>, AllocError> {
    match name {
        "shell" => command_of(alloc, &SHELL),
        "check" => check_command(alloc),
        "describe" => command_of(alloc, &DESCRIBE),
        "order" => order_command(alloc),
        "import" => command_of(alloc, &IMPORT),
        "explain" => explain_command(alloc),
        _ => run_command(alloc),
    }
}

/// The program with no command.
fn program<'a>(alloc: Global) -> Command<'a> {
    Command::new(alloc, "sideways")
        .about("A column engine in memory that answers ranges by database cracking")
        .version(VERSION)
        .long_version(LONG_VERSION)
        .after_help(EXAMPLES)
        .subcommand_required(true)
}

/// The command lines that are taken: `run` with its files and flags, `shell`, `check`, `describe`, `import` and `order` with their
/// files, and `explain` with a number.
pub fn command<'a>(alloc: Global) -> Result<Command<'a>, AllocError> {
    let mut all = program(alloc);
    for name in COMMANDS {
        all = all.subcommand(command_alone(alloc, *name)?)?;
    }
    Ok(all)
}

/// The command of a name, for what is wrong with its words.
pub fn command_named<'a>(alloc: Global, name: &str) -> Result<Command<'a>, AllocError> {
    let whole = format!(in alloc; "sideways {name}")?;
    command_alone(alloc, name)?.bin_name(whole.as_str())
}
