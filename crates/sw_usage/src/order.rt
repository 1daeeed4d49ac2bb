//! The words of `order`.

use crate::args::{LIMIT, Takes, Verb, Word, command_of, with};
use clap::{Arg, ArgAction, Command};
use std::alloc::{AllocError, Global};

/// The greatest number of states.
const MOST_STATES: i64 = 1_000_000_000;

/// What stands behind the flags in the help.
const EXAMPLES: &str = "\
A log is a text of comma-separated values with the columns session, start, end, call and reply, in any order; others are
passed by. A reply without a byte says that its outcome is unknown.

Examples:
  sideways order --table t.csv one.csv two.csv > h.json
      an order in which a call that ended before another began stands before it (linearizable)
  sideways order --table t.csv --by sessions log.csv > h.json
      one in which each session's calls stand in their order, and no more (sequentially consistent)
  sideways order --table t.csv --slack 2000 --where w.csv log.csv > h.json
      clocks may differ by 2000; w.csv tells from which record each entry came
  sideways order --table t.csv --keys any log.csv > h.json
      keys may skip numbers and come in any order; the history has 1, 2, 3 and so on in their place
  sideways check h.json
      says that the history is legal

Status 0: found; 1: none, with nothing left to try, and why; 2: the table or a log is refused; 3: given up.
";

/// Which calls may have to stand before which.
const BY: &[&str] = &["times", "sessions"];

/// Which keys inserts may be given.
const KEYS: &[&str] = &["counted", "any"];

/// The words of `order` before the logs.
const ORDER: Verb = Verb {
    name: "order",
    about: "Looks for an order of the calls in sessions' logs in which a plain list of rows gives each reply, and writes it as a history",
    examples: EXAMPLES,
    words: &[Word {
        name: "table",
        of: "FILE",
        takes: Takes::Needed,
        usual: None,
        help: "The table that the calls were made on; its rows have the keys 1, 2, 3 and so on",
    }],
};

/// The words of `order` behind the logs.
const MORE: &[Word] = &[
    Word {
        name: "by",
        of: "WHAT",
        takes: Takes::OneOf(BY),
        usual: Some("times"),
        help: "Which calls have to stand before which: by times, a call that ended before another began; by sessions, a session's calls in their order alone",
    },
    Word {
        name: "keys",
        of: "WHAT",
        takes: Takes::OneOf(KEYS),
        usual: Some("counted"),
        help: "Which keys inserts are given: counted, one more than the rows ever inserted; any, whatever the store gave, which the history renames to these",
    },
    Word {
        name: "slack",
        of: "TIME",
        takes: Takes::Number,
        usual: Some("0"),
        help: "By how much the sessions' clocks may differ, in the logs' unit of time",
    },
    Word {
        name: "states",
        of: "N",
        takes: Takes::Within(1, MOST_STATES),
        usual: Some("4000000"),
        help: "How many states are remembered at most, some 40 bytes each: 1 to 1000000000",
    },
    LIMIT,
    Word {
        name: "where",
        of: "FILE",
        takes: Takes::Text,
        usual: None,
        help: "Where it is written from which log and record each entry of the history came",
    },
    Word {
        name: "quiet",
        of: "",
        takes: Takes::Nothing,
        usual: None,
        help: "Leaves out the lines that tell on a terminal how far the search is",
    },
];

fn logs<'a>(alloc: Global) -> Arg<'a> {
    Arg::new(alloc, "logs")
        .value_name("LOG")
        .help("The logs: of a session each or of several, one file or many; - is standard input")
        .required(true)
        .num_args(1..)
        .action(ArgAction::Append)
}

/// The words of `order`.
pub(crate) fn order_command<'a>(alloc: Global) -> Result<Command<'a>, AllocError> {
    let command = command_of(alloc, &ORDER)?.arg(logs(alloc))?;
    with(alloc, command, MORE)
}
