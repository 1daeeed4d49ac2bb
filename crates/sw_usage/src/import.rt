//! The words of `import`.

use crate::args::{Takes, Verb, Word};
use sw_rows::MOST_ROWS;

/// What ends the help.
const EXAMPLES: &str = "\
Examples:
  sideways import data.csv > t.csv
  sideways import data.csv --columns price,2,created --rename price=cost --kind 2=text > t.csv
  sideways import data.csv --empty drop --null NA --long cut > t.csv
  zcat data.tsv.gz | sideways import - --delimiter '\\t' --sample 1000 > t.csv

What it did to cells, and where, is told on standard error. Without --empty and --long nothing is left out or cut.";

/// What may become of dates and times.
const TIMES: &[&str] = &["seconds", "days", "text"];

/// What may become of long texts.
const LONG: &[&str] = &["cut", "drop", "number"];

/// What may become of records with fewer fields than the header.
const RAGGED: &[&str] = &["fill"];

/// The words of `import`: the file, which of its columns are written, and what becomes of their cells.
pub(crate) const IMPORT: Verb = Verb {
    name: "import",
    about: "Makes a table of comma-separated values, on standard output",
    examples: EXAMPLES,
    words: &[
        Word {
            name: "file",
            of: "FILE",
            takes: Takes::Place,
            usual: None,
            help: "The values, comma-separated, with headings in the first record; - is standard input",
        },
        Word {
            name: "columns",
            of: "LIST",
            takes: Takes::Text,
            usual: None,
            help: "The columns that are written, in this order, by heading or by number from 1, divided by commas; else the first eight",
        },
        Word {
            name: "rename",
            of: "COLUMN=NAME",
            takes: Takes::Texts,
            usual: None,
            help: "The name of a column, where its heading is not to give it; may be given again",
        },
        Word {
            name: "kind",
            of: "COLUMN=KIND",
            takes: Takes::Texts,
            usual: None,
            help: "The kind of a column, where its cells are not to give it: int, fix1 to fix6, flag, text, seconds or days; may be given again",
        },
        Word {
            name: "times",
            of: "AS",
            takes: Takes::OneOf(TIMES),
            usual: Some("seconds"),
            help: "What becomes of columns of ISO 8601 dates and times: whole seconds since 1970 in UTC, or of dates alone days since then, or texts",
        },
        Word {
            name: "empty",
            of: "CHOICE",
            takes: Takes::AnyText,
            usual: None,
            help: "What becomes of empty cells of numbers, flags and times, which are refused else: drop leaves their rows out, text makes the column one of texts, anything else is written in their place",
        },
        Word {
            name: "null",
            of: "WORD",
            takes: Takes::AnyText,
            usual: None,
            help: "A word that stands for no value, as an empty cell does, in columns of numbers, flags and times",
        },
        Word {
            name: "long",
            of: "CHOICE",
            takes: Takes::OneOf(LONG),
            usual: None,
            help: "What becomes of texts of more than 64 bytes or with control bytes, which are refused else: cut writes the longest beginning that can be a text, drop leaves their rows out, number writes numbers that stand for the texts of the column",
        },
        Word {
            name: "dictionary",
            of: "FILE",
            takes: Takes::Text,
            usual: None,
            help: "Where the texts are written for which --long number writes numbers: column, number and text, comma-separated",
        },
        Word {
            name: "sample",
            of: "ROWS",
            takes: Takes::Within(1, MOST_ROWS as i64),
            usual: None,
            help: "How many rows are written, from the first on: 1 to 1048576; the kinds still come from all",
        },
        Word {
            name: "ragged",
            of: "CHOICE",
            takes: Takes::OneOf(RAGGED),
            usual: None,
            help: "What becomes of records with fewer fields than the header, which are refused else: fill takes the missing ones for empty",
        },
        Word {
            name: "delimiter",
            of: "BYTE",
            takes: Takes::AnyText,
            usual: Some(","),
            help: "What divides the values of a record: one character of ASCII, or \\t",
        },
        Word {
            name: "no-header",
            of: "",
            takes: Takes::Nothing,
            usual: None,
            help: "The first record has values, and no headings; the headings are column_1, column_2 and so on",
        },
        Word {
            name: "quiet",
            of: "",
            takes: Takes::Nothing,
            usual: None,
            help: "Leaves out the lines that tell on standard error, where that is a terminal, how many lines were read: one a second, after the first second",
        },
    ],
};
