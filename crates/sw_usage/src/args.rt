//! Arguments as data: what each goes by, what it takes, and what help says of it.

use clap::builder::ValueParser;
use clap::{Arg, ArgAction, Command};
use std::alloc::{AllocError, Global};
use sw_rows::MOST_ROWS;

/// The greatest budget of cells.
const MOST_CELLS: i64 = 1_099_511_627_776;

/// The greatest number of maps at a time.
const MOST_MAPS: i64 = 4096;

/// What an argument takes.
#[derive(Clone, Copy)]
pub(crate) enum Takes {
    /// Nothing: it is a flag.
    Nothing,
    /// A file, which goes by its place and has to be given.
    Place,
    /// A text that has to be given.
    Needed,
    /// A text.
    Text,
    /// A text that may begin with a hyphen.
    AnyText,
    /// A text each time.
    Texts,
    /// One of these words.
    OneOf(&'static [&'static str]),
    /// A number.
    Number,
    /// A number from one to another.
    Within(i64, i64),
}

/// An argument.
#[derive(Clone, Copy)]
pub(crate) struct Word {
    /// What it goes by, behind two hyphens.
    pub(crate) name: &'static str,
    /// What help calls its value.
    pub(crate) of: &'static str,
    pub(crate) takes: Takes,
    /// The value that it has where it is left out.
    pub(crate) usual: Option<&'static str>,
    pub(crate) help: &'static str,
}

/// A command, and its arguments in the order of help.
#[derive(Clone, Copy)]
pub(crate) struct Verb {
    pub(crate) name: &'static str,
    pub(crate) about: &'static str,
    /// What ends its help.
    pub(crate) examples: &'static str,
    pub(crate) words: &'static [Word],
}

/// What a use of an argument does.
fn action_of(takes: Takes) -> ArgAction {
    match takes {
        Takes::Nothing => ArgAction::SetTrue,
        Takes::Texts => ArgAction::Append,
        _ => ArgAction::Set,
    }
}

/// What a value has to be, where it is not any text.
fn parser_of<'a>(takes: Takes) -> Option<ValueParser<'a>> {
    match takes {
        Takes::OneOf(words) => Some(ValueParser::Names(words)),
        Takes::Number => Some(clap::value_parser!(u64)),
        Takes::Within(least, most) => Some(clap::value_parser!(u64).range(least..=most)),
        _ => None,
    }
}

/// An argument that takes this.
fn taking<'a>(arg: Arg<'a>, takes: Takes) -> Arg<'a> {
    let arg = arg
        .action(action_of(takes))
        .required(matches!(takes, Takes::Place | Takes::Needed))
        .allow_hyphen_values(matches!(takes, Takes::AnyText));
    match parser_of(takes) {
        Some(parser) => arg.value_parser(parser),
        None => arg,
    }
}

/// The argument of a word.
fn arg_of<'a>(alloc: Global, word: &Word) -> Arg<'a> {
    let arg = Arg::new(alloc, word.name).help(word.help);
    let arg = match word.takes {
        Takes::Place => arg.value_name(word.of),
        Takes::Nothing => arg.long(word.name),
        _ => arg.long(word.name).value_name(word.of),
    };
    let arg = match word.usual {
        Some(usual) => arg.default_value(usual),
        None => arg,
    };
    taking(arg, word.takes)
}

/// A command with further arguments.
pub(crate) fn with<'a>(
    alloc: Global,
    command: Command<'a>,
    words: &[Word],
) -> Result<Command<'a>, AllocError> {
    let mut command = command;
    for word in words {
        command = command.arg(arg_of(alloc, word))?;
    }
    Ok(command)
}

/// The command of a verb.
pub(crate) fn command_of<'a>(alloc: Global, verb: &Verb) -> Result<Command<'a>, AllocError> {
    let command = Command::new(alloc, verb.name)
        .about(verb.about)
        .after_help(verb.examples);
    with(alloc, command, verb.words)
}

pub(crate) const HEADER: Word = Word {
    name: "header",
    of: "HEADER",
    takes: Takes::AnyText,
    usual: None,
    help: "A header in place of the first record of the table, as a:int,-,b:fix2: names with kinds, or - for a column that is passed by",
};

pub(crate) const HISTORY: Word = Word {
    name: "history",
    of: "FILE",
    takes: Takes::Text,
    usual: None,
    help: "Where the history is written after the replies: the calls in order, each with its reply",
};

pub(crate) const LIMIT: Word = Word {
    name: "limit",
    of: "ROWS",
    takes: Takes::Within(1, MOST_ROWS as i64),
    usual: Some("1048576"),
    help: "How many rows are ever inserted at most, those of the table included: 1 to 1048576",
};

pub(crate) const BUDGET: Word = Word {
    name: "budget",
    of: "CELLS",
    takes: Takes::Within(0, MOST_CELLS),
    usual: Some("16777216"),
    help: "How many pairs of cells all maps together may hold, a pair for each row of a map: 0 to 1099511627776; with 0 every query scans",
};

pub(crate) const MAPS: Word = Word {
    name: "maps",
    of: "MAPS",
    takes: Takes::Within(0, MOST_MAPS),
    usual: Some("64"),
    help: "How many maps there may be at a time, dealt out to the attributes in turn: 0 to 4096; with 0 every query scans",
};

pub(crate) const CUTS: Word = Word {
    name: "cuts",
    of: "TEXT",
    takes: Takes::Text,
    usual: Some(""),
    help: "Where attributes are cut into areas that are kept apart, as name=value;name=value with rising values, at most 15 of an attribute; an attribute of kind text takes none",
};

pub(crate) const ALL_FAULTS: Word = Word {
    name: "all-faults",
    of: "",
    takes: Takes::Nothing,
    usual: None,
    help: "Where a row of the table is refused, lists each bad cell of the table on standard error, up to a thousand, and how many there are",
};
