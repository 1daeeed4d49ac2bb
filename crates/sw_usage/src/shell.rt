//! The words of `shell`.

use crate::args::{ALL_FAULTS, BUDGET, CUTS, HEADER, HISTORY, LIMIT, MAPS, Takes, Verb, Word};

/// What stands behind the flags in the help.
const EXAMPLES: &str = "\
A line is a call, or a command that begins with a dot: .names, .stats, .times, .write FILE, .history FILE, .help, .quit.
From a terminal a prompt awaits each line; from a pipe there is none. The end of the lines (Ctrl-D) ends the shell.

Examples:
  sideways shell t.csv
  sideways shell t.csv --history h.json < calls.txt
  sideways shell t.csv --names > words.txt && rlwrap -f words.txt sideways shell t.csv
      lines are edited, those before come back, and words are completed
  (trap '' INT; exec sideways shell t.csv)
      Ctrl-C drops what was typed of a line, and does not end the shell; so does ./sideways of the sources

Status 0: all was answered; 2: a line, the table or the command line was refused; 3: a call, a file or the output was.
";

/// The words of `shell`.
pub(crate) const SHELL: Verb = Verb {
    name: "shell",
    about: "Answers calls over a table, each when it is entered",
    examples: EXAMPLES,
    words: &[
        Word {
            name: "file",
            of: "FILE",
            takes: Takes::Place,
            usual: None,
            help: "The table",
        },
        HEADER,
        BUDGET,
        MAPS,
        CUTS,
        LIMIT,
        ALL_FAULTS,
        HISTORY,
        Word {
            name: "names",
            of: "",
            takes: Takes::Nothing,
            usual: None,
            help: "Prints the names of the table's attributes and the words that a line may have, one a line, for completion, and ends",
        },
    ],
};
