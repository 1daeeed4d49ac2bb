//! What the columns of a table have, as a table on a terminal and as JSON.

ghost use Rattle.std.specs.Prelude.{◌≡◌, ◌⊎◌, ◌<◌, length, IfErr, IsOkUnless};

use crate::cells::{cell_text, json_cell, json_text, no_memory, quoted_text};
use std::alloc::{AllocError, Global};
use sw_describe::Column;
use sw_lang::{kind_name, write_all, write_number};
use sw_rows::{Kind, Refusal, Schema, Sink};

/// What a column has: its numbers, and where it is of texts the most frequent of them with how often each.
#[derive(Drop)]
pub struct Described {
    /// Its numbers.
    pub column: Column,
    /// The codes of its most frequent texts, with how often each.
    pub frequent: Vec<(i64, usize)>,
}

/// The least or the greatest of a column as text; `-` where it has none, or is of texts.
fn extreme(
    alloc: Global,
    schema: &Schema,
    attr: usize,
    cell: Option<i64>,
) -> Result<String, Refusal>
    requires { attr < length schema.now }
    ensures { IsOkUnless result Refusal.NoMemory }
{
    match cell {
        Some(cell) if schema.kind(attr) != Kind::Text => {
            let text = cell_text(alloc, schema, attr, cell)?;
            String::from_utf8_lossy(alloc, text.as_slice()).map_err(no_memory)
        }
        _ => String::from_str(alloc, "-").map_err(no_memory),
    }
}

/// Writes a word and blanks behind it, up to a width.
fn write_padded<W: Sink>(word: &str, width: usize, out: &mut W) -> Result<(), Refusal>
    ensures { IsOkUnless result Refusal.Output }
{
    write_all(out, word.as_bytes())?;
    for _ in word.len()..width {
        write_all(out, b" ")?;
    }
    write_all(out, b"  ")
}

/// How wide the words of one sort are: as the longest of them, and as what stands over them.
fn width_of(over: &str, words: &[String]) -> usize {
    let mut width = over.len();
    for word in words {
        width = width.max(word.len());
    }
    width
}

/// The words of all attributes, a list for each sort.
struct Words {
    names: Vec<String>,
    kinds: Vec<String>,
    distinct: Vec<String>,
    least: Vec<String>,
    greatest: Vec<String>,
}

// By hand: the drop of a derived one is written out at each way out of a function.
impl Drop for Words {
    fn drop(self) {
        let Self {
            names: _names,
            kinds: _kinds,
            distinct: _distinct,
            least: _least,
            greatest: _greatest,
        } = self;
    }
}

impl Words {
    /// No words yet.
    fn new(alloc: Global) -> Words {
        Words {
            names: Vec::new(alloc),
            kinds: Vec::new(alloc),
            distinct: Vec::new(alloc),
            least: Vec::new(alloc),
            greatest: Vec::new(alloc),
        }
    }

    /// Adds the name, the kind and the number of distinct cells of an attribute.
    fn add_name(
        &mut self,
        alloc: Global,
        schema: &Schema,
        attr: usize,
        distinct: usize,
    ) -> Result<(), AllocError>
        requires { attr < length schema.now }
    {
        self.names
            .push(String::from_str(alloc, schema.name(attr))?)?;
        let kind = kind_name(schema.kind(attr));
        self.kinds.push(String::from_str(alloc, kind)?)?;
        self.distinct.push(format!(in alloc; "{distinct}")?)?;
        Ok(())
    }

    /// Adds the words of an attribute.
    fn add(
        &mut self,
        alloc: Global,
        schema: &Schema,
        attr: usize,
        column: &Column,
    ) -> Result<(), Refusal>
        requires { attr < length schema.now }
        ensures { IsOkUnless result Refusal.NoMemory }
    {
        let least = extreme(alloc, schema, attr, column.least)?;
        let greatest = extreme(alloc, schema, attr, column.greatest)?;
        self.add_name(alloc, schema, attr, column.distinct)
            .map_err(no_memory)?;
        self.least.push(least).map_err(|_| Refusal::NoMemory)?;
        self.greatest.push(greatest).map_err(|_| Refusal::NoMemory)
    }

    /// Writes the words of one place of each list, or what stands over them.
    fn write_line<W: Sink>(&self, place: usize, out: &mut W) -> Result<(), Refusal>
        ensures { IsOkUnless result Refusal.Output }
    {
        write_word("name", &self.names, place, out)?;
        write_word("kind", &self.kinds, place, out)?;
        write_word("distinct", &self.distinct, place, out)?;
        write_word("least", &self.least, place, out)?;
        write_last("greatest", &self.greatest, place, out)
    }

    /// Writes what stands over the words, and then a line for each attribute.
    fn write<W: Sink>(&self, out: &mut W) -> Result<(), Refusal>
        ensures { IsOkUnless result Refusal.Output }
    {
        for place in 0..=self.names.len() {
            self.write_line(place, out)?;
        }
        Ok(())
    }
}

/// Writes what stands over the words of one sort at place 0, and those at the places from 1 on.
fn write_word<W: Sink>(
    over: &str,
    words: &[String],
    place: usize,
    out: &mut W,
) -> Result<(), Refusal>
    ensures { IsOkUnless result Refusal.Output }
{
    write_padded(word_at(over, words, place), width_of(over, words), out)
}

/// The same for the last sort, which ends the line.
fn write_last<W: Sink>(
    over: &str,
    words: &[String],
    place: usize,
    out: &mut W,
) -> Result<(), Refusal>
    ensures { IsOkUnless result Refusal.Output }
{
    write_all(out, word_at(over, words, place).as_bytes())?;
    write_all(out, b"\n")
}

/// What stands over the words of one sort at place 0, and those at the places from 1 on.
fn word_at<'w>(over: &'w str, words: &'w [String], place: usize) -> &'w str {
    match place.checked_sub(1) {
        Some(place) => match words.get(place) {
            Some(word) => word.as_str(),
            None => "",
        },
        None => over,
    }
}

/// The words of all attributes.
fn words_of(alloc: Global, schema: &Schema, columns: &[Described]) -> Result<Words, Refusal>
    ensures { IsOkUnless result Refusal.NoMemory }
{
    let mut words = Words::new(alloc);
    for attr in 0..columns.len() {
        if attr < schema.len() {
            words.add(alloc, schema, attr, &columns[attr].column)?;
        }
    }
    Ok(words)
}

/// Writes the most frequent texts of an attribute, a line each with how often, where it is of texts.
fn write_frequent<W: Sink>(
    alloc: Global,
    schema: &Schema,
    attr: usize,
    described: &Described,
    out: &mut W,
) -> Result<(), Refusal>
    requires { attr < length schema.now }
    ensures { IfErr result (λ e. (e ≡ Refusal.NoMemory) ⊎ (e ≡ Refusal.Output)) }
{
    if described.frequent.is_empty() {
        return Ok(());
    }
    write_all(out, b"\nmost frequent of ")?;
    write_all(out, schema.name(attr).as_bytes())?;
    write_all(out, b"\n")?;
    for (code, count) in described.frequent.as_slice() {
        write_number(*count as u64, out)?;
        write_all(out, b" ")?;
        let text = quoted_text(alloc, schema, attr, *code).map_err(no_memory)?;
        write_all(out, text.as_slice())?;
        write_all(out, b"\n")?;
    }
    Ok(())
}

/// Writes what the columns of a table have: how many rows, a line for each attribute with its name, its kind, how many
/// distinct cells, the least and the greatest, and then the most frequent texts of each attribute of texts.
///
/// Refused `Output` where the sink fails, and `NoMemory`; then a beginning went out.
pub fn write_description<W: Sink>(
    alloc: Global,
    schema: &Schema,
    rows: usize,
    columns: &[Described],
    out: &mut W,
) -> Result<(), Refusal>
    ensures { IfErr result (λ e. (e ≡ Refusal.NoMemory) ⊎ (e ≡ Refusal.Output)) }
{
    let words = words_of(alloc, schema, columns)?;
    write_all(out, b"rows ")?;
    write_number(rows as u64, out)?;
    write_all(out, b"\n\n")?;
    words.write(out)?;
    for attr in 0..columns.len() {
        if attr < schema.len() {
            write_frequent(alloc, schema, attr, &columns[attr], out)?;
        }
    }
    Ok(())
}

/// Writes a member of an object whose value is a cell, or `null`.
fn write_extreme<W: Sink>(
    alloc: Global,
    schema: &Schema,
    attr: usize,
    cell: Option<i64>,
    out: &mut W,
) -> Result<(), Refusal>
    ensures { IfErr result (λ e. (e ≡ Refusal.NoMemory) ⊎ (e ≡ Refusal.Output)) }
{
    match cell {
        Some(cell) => {
            let text = json_cell(alloc, schema, attr, cell).map_err(no_memory)?;
            write_all(out, text.as_slice())
        }
        None => write_all(out, b"null"),
    }
}

/// Writes the least and the greatest of a column as members.
fn write_extremes<W: Sink>(
    alloc: Global,
    schema: &Schema,
    attr: usize,
    column: &Column,
    out: &mut W,
) -> Result<(), Refusal>
    ensures { IfErr result (λ e. (e ≡ Refusal.NoMemory) ⊎ (e ≡ Refusal.Output)) }
{
    write_all(out, b",\"least\":")?;
    write_extreme(alloc, schema, attr, column.least, out)?;
    write_all(out, b",\"greatest\":")?;
    write_extreme(alloc, schema, attr, column.greatest, out)
}

/// Writes the most frequent texts as a member.
fn write_texts<W: Sink>(
    alloc: Global,
    schema: &Schema,
    attr: usize,
    frequent: &[(i64, usize)],
    out: &mut W,
) -> Result<(), Refusal>
    ensures { IfErr result (λ e. (e ≡ Refusal.NoMemory) ⊎ (e ≡ Refusal.Output)) }
{
    write_all(out, b",\"frequent\":[")?;
    let mut is_first = true;
    for (code, count) in frequent {
        write_all(
            out,
            if is_first {
                b"{\"text\":"
            } else {
                b",{\"text\":"
            },
        )?;
        is_first = false;
        let text = json_cell(alloc, schema, attr, *code).map_err(no_memory)?;
        write_all(out, text.as_slice())?;
        write_all(out, b",\"count\":")?;
        write_number(*count as u64, out)?;
        write_all(out, b"}")?;
    }
    write_all(out, b"]")
}

/// Writes an attribute as an object.
fn write_attribute<W: Sink>(
    alloc: Global,
    schema: &Schema,
    attr: usize,
    described: &Described,
    out: &mut W,
) -> Result<(), Refusal>
    requires { attr < length schema.now }
    ensures { IfErr result (λ e. (e ≡ Refusal.NoMemory) ⊎ (e ≡ Refusal.Output)) }
{
    let Ok(name) = json_text(alloc, schema.name(attr)) else {
        return Err(Refusal::NoMemory);
    };
    write_all(out, b"{\"name\":")?;
    write_all(out, name.as_bytes())?;
    write_all(out, b",\"kind\":\"")?;
    write_all(out, kind_name(schema.kind(attr)).as_bytes())?;
    write_all(out, b"\",\"distinct\":")?;
    write_number(described.column.distinct as u64, out)?;
    if schema.kind(attr) == Kind::Text {
        write_texts(alloc, schema, attr, described.frequent.as_slice(), out)?;
    } else {
        write_extremes(alloc, schema, attr, &described.column, out)?;
    }
    write_all(out, b"}")
}

/// Writes what the columns of a table have as one line of JSON.
///
/// Refused `Output` where the sink fails, and `NoMemory`; then a beginning went out.
pub fn write_json_description<W: Sink>(
    alloc: Global,
    schema: &Schema,
    rows: usize,
    columns: &[Described],
    out: &mut W,
) -> Result<(), Refusal>
    ensures { IfErr result (λ e. (e ≡ Refusal.NoMemory) ⊎ (e ≡ Refusal.Output)) }
{
    write_all(out, b"{\"rows\":")?;
    write_number(rows as u64, out)?;
    write_all(out, b",\"attributes\":[")?;
    for attr in 0..columns.len() {
        if attr > 0 {
            write_all(out, b",")?;
        }
        if attr < schema.len() {
            write_attribute(alloc, schema, attr, &columns[attr], out)?;
        }
    }
    write_all(out, b"]}\n")
}
