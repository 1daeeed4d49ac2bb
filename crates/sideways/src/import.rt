//! What the words of `import` ask for.

use clap::ArgMatches;
use sw_program::{Asked, Blank, How, Import, Long, Rules, Times};

/// The words of an argument that may be given again.
fn words<'g, 'a>(given: &'g ArgMatches<'a>, name: &str) -> &'g [&'a str] {
    given.get_strs(name).unwrap_or_default()
}

/// What becomes of cells without a value.
fn blank_of<'a>(given: &ArgMatches<'a>) -> Blank<'a> {
    match given.get_str("empty") {
        None => Blank::Refuse,
        Some("drop") => Blank::Drop,
        Some("text") => Blank::Text,
        Some(value) => Blank::Value(value.as_bytes()),
    }
}

/// What becomes of long texts.
fn long_of(given: &ArgMatches<'_>) -> Long {
    match given.get_str("long") {
        Some("cut") => Long::Cut,
        Some("drop") => Long::Drop,
        Some("number") => Long::Number,
        _ => Long::Refuse,
    }
}

/// What becomes of dates and times.
fn times_of(given: &ArgMatches<'_>) -> Times {
    match given.get_str("times") {
        Some("days") => Times::Days,
        Some("text") => Times::Text,
        _ => Times::Seconds,
    }
}

/// The word that stands for no value.
fn null_of<'a>(given: &ArgMatches<'a>) -> Option<&'a [u8]> {
    match given.get_str("null") {
        Some(word) => Some(word.as_bytes()),
        None => None,
    }
}

/// What divides values, where it is one byte that can.
fn delimiter_of(given: &ArgMatches<'_>) -> Option<u8> {
    match given.get_str("delimiter")?.as_bytes() {
        b"\\t" => Some(b'\t'),
        [byte] if *byte != b'"' && *byte != b'\n' && *byte != b'\r' => Some(*byte),
        _ => None,
    }
}

/// What is asked of the values.
fn how_of<'g>(given: &'g ArgMatches<'_>, delimiter: u8) -> How<'g> {
    How {
        asked: Asked {
            columns: given.get_str("columns"),
            names: words(given, "rename"),
            kinds: words(given, "kind"),
        },
        rules: Rules {
            blank: blank_of(given),
            null: null_of(given),
            long: long_of(given),
            times: times_of(given),
        },
        delimiter,
        has_header: !given.get_flag("no-header"),
        fills_short: given.get_str("ragged").is_some(),
        sample: given.get_one::<u64>("sample"),
    }
}

/// What is wrong with a delimiter.
pub(crate) const NO_DELIMITER: &str =
    "the delimiter is one character of ASCII, no quote and no end of a line, or \\t";

/// The table that the words ask for; none where the delimiter is none.
pub(crate) fn import_of<'g, 'a: 'g>(
    given: &'g ArgMatches<'a>,
    is_terminal: bool,
) -> Option<Import<'g>> {
    let delimiter = delimiter_of(given)?;
    Some(Import {
        file: given.get_str("file")?,
        how: how_of(given, delimiter),
        dictionary: given.get_str("dictionary"),
        progress: is_terminal && !given.get_flag("quiet"),
    })
}
