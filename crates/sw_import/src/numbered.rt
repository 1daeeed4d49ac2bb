//! The texts for which numbers were written, as comma-separated values.

ghost use Rattle.std.specs.Prelude.{[], ◌≡◌, ◌++◌, ◌<◌, length, IfOk, OnOk};
ghost use Rattle.csv.specs.Records.{fields_of};
ghost use Rattle.sw_import.specs.Numbered.{column_records, dictionary_heading, dictionary_records, numbered, numbered_at};
ghost use Rattle.sw_import.specs.Pages.{record_text, text_of};

use crate::importing::Imported;
use crate::pages::Pages;
use crate::planning::Planned;
use crate::writing::push_number;
use csv::ByteRecord;
use std::alloc::{AllocError, Global};

/// The record of the headings.
fn heading(alloc: Global) -> Result<ByteRecord, AllocError>
    ensures { IfOk result (λ row. fields_of row ≡ dictionary_heading) }
{
    let mut row = ByteRecord::new(alloc);
    row.push_field(b"column")?;
    row.push_field(b"number")?;
    row.push_field(b"text")?;
    Ok(row)
}

/// Makes the record of a text: the name of its column, its number and itself.
fn make_numbered(
    name: &str,
    number: u64,
    text: &str,
    row: &mut ByteRecord,
) -> Result<(), AllocError>
    ensures { OnOk result (fields_of row.new ≡ numbered name.now number text.now) }
{
    row.clear();
    row.push_field(name.as_bytes())?;
    push_number(number, row)?;
    row.push_field(text.as_bytes())
}

/// Adds the record of the text at a place of a column's dictionary.
#[tactic(auto, using(crate::proofs::NumberedLemmas::text_at))]
fn add_text(
    planned: &Planned,
    place: usize,
    row: &mut ByteRecord,
    pages: &mut Pages,
) -> Result<(), AllocError>
    requires { place < length planned.now.dictionary }
    ensures { OnOk result (pages.new ≡ pages.old ++ record_text (numbered_at planned.now place)) }
{
    // for the prover: there are few
    let _count = planned.dictionary.len();
    let Some(text) = planned.dictionary.text(place + 1) else {
        return Err(AllocError);
    };
    make_numbered(planned.column.name.as_str(), place as u64 + 1, text, row)?;
    pages.add(row)
}

/// Adds the texts of a column for which numbers were written.
#[tactic(auto, using(crate::proofs::NumberedLemmas::past_last, crate::proofs::NumberedLemmas::text_more))]
fn add_dictionary(
    planned: &Planned,
    row: &mut ByteRecord,
    pages: &mut Pages,
) -> Result<(), AllocError>
    ensures { OnOk result (pages.new ≡ pages.old ++ text_of (column_records planned.now)) }
{
    for place in 0..planned.dictionary.len() {
        add_text(planned, place, row, pages)?;
    }
    Ok(())
}

/// Adds the headings, and then the texts of all columns for which numbers were written.
#[tactic(auto, using(crate::proofs::NumberedLemmas::past_last, crate::proofs::NumberedLemmas::column_more))]
fn add_all(alloc: Global, plan: &[Planned], pages: &mut Pages) -> Result<(), AllocError>
    requires { pages.old ≡ [] }
    ensures { OnOk result (pages.new ≡ text_of (dictionary_records plan.now)) }
{
    let mut row = heading(alloc)?;
    pages.add(&row)?;
    for planned in plan {
        add_dictionary(planned, &mut row, pages)?;
    }
    Ok(())
}

/// The texts for which numbers were written, as comma-separated values: a record for each, with the attribute, the number
/// and the text. The one error is that there is no memory.
pub fn dictionary_of(alloc: Global, made: &Imported) -> Result<Vec<u8>, AllocError>
    ensures { IfOk result (λ bytes. bytes.items ≡ text_of (dictionary_records made.now.plan.items)) }
{
    let mut pages = Pages::new(alloc);
    add_all(alloc, made.plan.as_slice(), &mut pages)?;
    pages.into_bytes()
}
