//! What was done, in words.

use crate::evidence::Tally;
use crate::faults::{more_decimals, shown, shown_heading};
use crate::forms::Form;
use crate::importing::Imported;
use crate::planning::Planned;
use crate::writing::Done;
use std::alloc::{AllocError, Global};

/// Adds what was done to cells, and to how many, where there are any.
fn push_tally(text: &mut String, what: &str, tally: Tally) -> Result<(), AllocError> {
    if tally.count == 0 {
        return Ok(());
    }
    let Tally { count, first } = tally;
    write!(text, "; {what}: {count}, the first in line {first}")
}

/// What was done to cells of a form that were changed.
fn change(form: Form) -> &'static str {
    match form {
        Form::Seconds => "dates and times as seconds since 1970",
        Form::Days => "dates as days since 1970",
        Form::Flag => "flags in lower case",
        Form::Text => "texts cut",
        Form::Code => "numbers for texts",
        Form::Number(_) => "other numbers",
    }
}

/// What is told where texts were made of a column of another kind.
const BY_EMPTY: &str = "texts by --empty text, for cells without a value";

/// Adds that a column is one of texts for a cell in a line before others of another kind.
fn push_lone(text: &mut String, planned: &Planned) -> Result<(), AllocError> {
    let line = planned.evidence.lone.first;
    let cell = shown(*text.allocator(), planned.evidence.cause.as_bytes())?;
    let more = more_decimals(planned.evidence.cause.as_bytes());
    write!(text, "; texts, since line {line} has `{cell}`{more}")
}

/// Adds that a column is one of texts for a cell with a usual word for a missing value.
fn push_missing(text: &mut String, planned: &Planned) -> Result<(), AllocError> {
    let line = planned.evidence.missing.first;
    let cell = shown(*text.allocator(), planned.evidence.cause.as_bytes())?;
    write!(
        text,
        "; texts, since line {line} has `{cell}`, which --null '{cell}' takes for an empty cell"
    )
}

/// Adds that a column is one of texts for a cell behind others of another kind.
fn push_odd(text: &mut String, planned: &Planned) -> Result<(), AllocError> {
    let line = planned.evidence.odd.first;
    let cell = shown(*text.allocator(), planned.evidence.cause.as_bytes())?;
    let more = more_decimals(planned.evidence.cause.as_bytes());
    write!(
        text,
        "; texts, since from line {line} on, with `{cell}`{more}, no other kind fits all cells"
    )
}

/// Adds why a column is one of texts, where that was not asked for and cells of another kind stand there.
fn push_why_texts(text: &mut String, planned: &Planned) -> Result<(), AllocError> {
    let seen = &planned.evidence;
    match (planned.form, planned.column.given) {
        (Form::Text, None) if seen.odd.count > 0 => push_odd(text, planned),
        (Form::Text, None) if seen.is_lone() => push_lone(text, planned),
        (Form::Text, None) if !seen.fits_other() => Ok(()),
        (Form::Text, None) if seen.missing.count > 0 => push_missing(text, planned),
        (Form::Text, Some(Form::Text)) => Ok(()),
        (Form::Text, _) => push_tally(text, BY_EMPTY, seen.blank),
        _ => Ok(()),
    }
}

/// Adds the heading of a column whose name is another one; where there are no headings, its number.
fn push_heading(text: &mut String, planned: &Planned, has_header: bool) -> Result<(), AllocError> {
    let heading = planned.column.heading.as_str();
    if planned.column.name.as_str() == heading {
        return Ok(());
    }
    let number = (planned.column.place as u64).saturating_add(1);
    if !has_header {
        return write!(text, "; column {number}");
    }
    if heading.is_empty() {
        return write!(text, "; column {number} without a heading");
    }
    let shown = shown_heading(*text.allocator(), heading)?;
    write!(text, "; heading `{shown}`")
}

/// Adds what became of a column.
fn push_column(
    text: &mut String,
    planned: &Planned,
    done: &Done,
    has_header: bool,
) -> Result<(), AllocError> {
    write!(text, "  {}:{}", planned.column.name, planned.form.word())?;
    push_heading(text, planned, has_header)?;
    push_tally(text, change(planned.form), done.changed)?;
    push_tally(text, "cells without a value filled", done.filled)?;
    push_tally(text, "rows left out for it", done.left_out)?;
    push_why_texts(text, planned)?;
    text.push('\n')?;
    Ok(())
}

/// How many columns that were not written are told one by one.
const MOST_OTHERS: usize = 24;

/// Adds which columns were not written.
fn push_others(text: &mut String, made: &Imported) -> Result<(), AllocError> {
    if made.others.is_empty() {
        return Ok(());
    }
    write!(text, "  not written:")?;
    let all = made.others.as_slice();
    let (first, others) = all.split_at(all.len().min(MOST_OTHERS));
    let mut divider = "";
    for at in first {
        write!(text, "{divider} {at}")?;
        divider = ",";
    }
    let more = others.len();
    if more > 0 {
        write!(text, " and {more} more")?;
    }
    text.push('\n')?;
    Ok(())
}

/// The byte in a field that may have been meant to divide values, as the command line takes it.
pub(crate) fn divider_in(field: &[u8]) -> Option<&'static str> {
    if field.contains(&b';') {
        Some(";")
    } else if field.contains(&b'\t') {
        Some("\\t")
    } else if field.contains(&b'|') {
        Some("|")
    } else {
        None
    }
}

/// What the first field of values is called: a heading, or a cell where the columns have none.
pub(crate) fn first_field(has_header: bool) -> &'static str {
    if has_header { "heading" } else { "first cell" }
}

/// Adds that the values may be divided by another byte, where there is one column and its first field has such a byte.
fn push_divider(text: &mut String, made: &Imported) -> Result<(), AllocError> {
    let Some(word) = made.divider else {
        return Ok(());
    };
    let first = first_field(made.has_header);
    write!(
        text,
        "  one column, whose {first} has a divider: --delimiter '{word}' divides there\n"
    )
}

/// What was done for a table of the values of a file, a line for the whole and one for each column.
pub fn told(alloc: Global, file: &str, made: &Imported) -> Result<String, AllocError> {
    let mut text = String::new(alloc);
    let columns = made.plan.len();
    let Imported { read, written, .. } = made;
    write!(
        text,
        "sideways: {file}: {read} rows read, {written} written, of {columns} columns\n"
    )?;
    for (planned, done) in made.plan.as_slice().iter().zip(made.done.as_slice()) {
        push_column(&mut text, planned, done, made.has_header)?;
    }
    push_others(&mut text, made)?;
    push_divider(&mut text, made)?;
    Ok(text)
}
