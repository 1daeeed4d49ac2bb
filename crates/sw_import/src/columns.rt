//! Which columns are written, and what is asked of them.

ghost use Rattle.std.specs.Prelude.{[], ◌≡◌, slice_index_or};
ghost use Rattle.csv.specs.Records.{fields_of};

use crate::faults::{At, Fault, shown, shown_heading};
use crate::forms::Form;
use crate::names::{name_asked, name_of};
use csv::ByteRecord;
use std::alloc::{AllocError, Global};
use sw_rows::Name;

/// How many columns a table has at most.
pub const MOST_COLUMNS: usize = 8;

/// What is asked of columns. A column is named by its heading or by its number, from 1.
#[derive(Clone, Copy)]
pub struct Asked<'a> {
    /// The columns that are written, in this order, divided by commas; where there is none, the first eight.
    pub columns: Option<&'a str>,
    /// Names, each as a column, an equals sign and its name.
    pub names: &'a [&'a str],
    /// Kinds, each as a column, an equals sign and its kind.
    pub kinds: &'a [&'a str],
}

/// A column that is written.
pub struct Column {
    /// Its place in each row, from 0.
    pub place: usize,
    /// Its heading.
    pub heading: String,
    /// The name of the attribute that it becomes.
    pub name: Name,
    /// What its cells are, where that was asked for.
    pub given: Option<Form>,
}

// By hand: the drop of a derived one is written out at each way out of a function.
impl Drop for Column {
    fn drop(self) {
        let Self {
            place: _,
            heading: _heading,
            name: _name,
            given: _,
        } = self;
    }
}

impl Column {
    /// The column as a fault tells it.
    pub(crate) fn at(&self, alloc: Global) -> Result<At, AllocError> {
        Ok(At {
            number: (self.place as u64).saturating_add(1),
            heading: shown_heading(alloc, self.heading.as_str())?,
        })
    }
}

/// The field at a place; an empty one past the last.
pub(crate) fn field(row: &ByteRecord, place: usize) -> &[u8]
    ensures { result.now ≡ slice_index_or (fields_of row.now) place [] }
{
    match row.get(place) {
        Some(field) => field,
        None => &[],
    }
}

/// How many headings are these bytes, and where the last of them stands.
fn headings_alike(header: &ByteRecord, asked: &[u8]) -> (u64, usize) {
    let mut count = 0u64;
    let mut last = 0;
    for place in 0..header.len() {
        if field(header, place) == asked {
            count = count.saturating_add(1);
            last = place;
        }
    }
    (count, last)
}

/// The place of the column of a number, from 1.
fn place_of_number(header: &ByteRecord, asked: &str) -> Option<usize> {
    let number: usize = asked.parse().ok()?;
    let place = number.checked_sub(1)?;
    if place < header.len() {
        Some(place)
    } else {
        None
    }
}

/// The place of a column that is asked for by its heading, or else by its number.
fn place_of(alloc: Global, header: &ByteRecord, asked: &str) -> Result<usize, Fault> {
    let (count, place) = headings_alike(header, asked.as_bytes());
    if count == 1 {
        return Ok(place);
    }
    if count > 1 {
        let asked = shown(alloc, asked.as_bytes())?;
        return Err(Fault::ManyAlike { asked, count });
    }
    match place_of_number(header, asked) {
        Some(place) => Ok(place),
        None => Err(Fault::NoColumn {
            asked: shown(alloc, asked.as_bytes())?,
            count: header.len() as u64,
        }),
    }
}

/// The places of the columns of a list.
fn places_asked(alloc: Global, header: &ByteRecord, list: &str) -> Result<Vec<usize>, Fault> {
    let mut places = Vec::new(alloc);
    for asked in list.split(',') {
        if places.len() >= MOST_COLUMNS {
            return Err(Fault::ManyColumns);
        }
        let place = place_of(alloc, header, asked)?;
        if places.push(place).is_err() {
            return Err(Fault::NoMemory);
        }
    }
    Ok(places)
}

/// The places of the first columns.
fn first_places(alloc: Global, count: usize) -> Result<Vec<usize>, AllocError> {
    let mut places = Vec::new(alloc);
    for place in 0..count.min(MOST_COLUMNS) {
        places.push(place)?;
    }
    Ok(places)
}

/// What is asked of a column, divided at its last equals sign.
fn halves(alloc: Global, asked: &str) -> Result<(&str, &str), Fault> {
    match asked.rsplit_once('=') {
        Some(parts) => Ok(parts),
        None => Err(Fault::NoEquals {
            asked: shown(alloc, asked.as_bytes())?,
        }),
    }
}

/// What is asked of the column at a place by the last of these that asks something of it.
fn asked_of<'a>(
    alloc: Global,
    header: &ByteRecord,
    all: &[&'a str],
    place: usize,
) -> Result<Option<&'a str>, Fault> {
    let mut found = None;
    for asked in all {
        let (column, what) = halves(alloc, *asked)?;
        if place_of(alloc, header, column)? == place {
            found = Some(what);
        }
    }
    Ok(found)
}

/// Refuses what is asked of columns that are not written.
fn see_written(
    alloc: Global,
    header: &ByteRecord,
    all: &[&str],
    places: &[usize],
) -> Result<(), Fault> {
    for asked in all {
        let (column, _) = halves(alloc, *asked)?;
        let place = place_of(alloc, header, column)?;
        if !places.contains(&place) {
            let asked = shown(alloc, asked.as_bytes())?;
            return Err(Fault::NotWritten { asked });
        }
    }
    Ok(())
}

/// The form of the cells of a kind.
fn form_named(word: &str) -> Option<Form> {
    for places in 0..=6 {
        let form = Form::Number(places);
        if form.word() == word {
            return Some(form);
        }
    }
    match word {
        "flag" => Some(Form::Flag),
        "text" => Some(Form::Text),
        "seconds" => Some(Form::Seconds),
        "days" => Some(Form::Days),
        _ => None,
    }
}

/// The form that is asked of the column at a place.
fn form_asked(
    alloc: Global,
    header: &ByteRecord,
    asked: &Asked<'_>,
    place: usize,
) -> Result<Option<Form>, Fault> {
    let Some(word) = asked_of(alloc, header, asked.kinds, place)? else {
        return Ok(None);
    };
    match form_named(word) {
        Some(form) => Ok(Some(form)),
        None => Err(Fault::NoKind {
            kind: shown(alloc, word.as_bytes())?,
        }),
    }
}

/// The names of the columns at some places: those that are asked for, and then those that headings give beside them.
fn names_of(
    alloc: Global,
    header: &ByteRecord,
    asked: &Asked<'_>,
    places: &[usize],
) -> Result<Vec<Name>, Fault> {
    let mut names = Vec::new(alloc);
    for place in places {
        let name = match asked_of(alloc, header, asked.names, *place)? {
            Some(name) => name_asked(alloc, names.as_slice(), name.as_bytes())?,
            None => name_of(alloc, names.as_slice(), field(header, *place))?,
        };
        if names.push(name).is_err() {
            return Err(Fault::NoMemory);
        }
    }
    Ok(names)
}

/// The column at a place.
fn column_of(
    alloc: Global,
    header: &ByteRecord,
    asked: &Asked<'_>,
    place: usize,
    name: Name,
) -> Result<Column, Fault> {
    let given = form_asked(alloc, header, asked, place)?;
    Ok(Column {
        place,
        heading: String::from_utf8_lossy(alloc, field(header, place))?,
        name,
        given,
    })
}

/// The columns at some places.
fn columns_at(
    alloc: Global,
    header: &ByteRecord,
    asked: &Asked<'_>,
    places: &[usize],
) -> Result<Vec<Column>, Fault> {
    let names = names_of(alloc, header, asked, places)?;
    let mut columns = Vec::new(alloc);
    for (place, name) in places.iter().zip(names) {
        let column = column_of(alloc, header, asked, *place, name)?;
        if columns.push(column).is_err() {
            return Err(Fault::NoMemory);
        }
    }
    Ok(columns)
}

/// The columns that are written: those that are asked for, or else the first eight.
pub(crate) fn columns_of(
    alloc: Global,
    header: &ByteRecord,
    asked: &Asked<'_>,
) -> Result<Vec<Column>, Fault> {
    let places = match asked.columns {
        Some(list) => places_asked(alloc, header, list)?,
        None => first_places(alloc, header.len())?,
    };
    see_written(alloc, header, asked.names, places.as_slice())?;
    see_written(alloc, header, asked.kinds, places.as_slice())?;
    columns_at(alloc, header, asked, places.as_slice())
}
