//! The codes of texts of records that are read together.

ghost use Rattle.std.specs.Prelude.{◌≡◌, ◌<◌, [], ℕ, List, get_or};
ghost use Rattle.csv.specs.Records.{fields_of};
ghost use Rattle.sw_rows.specs.Groups.{AreAllSeen, IsCodeOrZero};
ghost use Rattle.sw_rows.specs.declared.table.group.TheConstants.{TOGETHER};

use crate::kind::Kind;
use crate::schema::texts::Texts;
use crate::schema::{Columns, Fields};
use crate::table::group::{Group, TOGETHER};
use csv::ByteRecord;

/// For each record of a group, and each of its fields, the code of its text, where that is found among those that came lately, or 0, which
/// tells nothing.
#[derive(Drop)]
pub(crate) struct SeenCodes {
    codes: [[u32; 8]; TOGETHER],
}

/// The code of the text of a record's field, where that is found among those that came lately, or 0.
#[inline]
fn seen_in(texts: &Texts, row: &ByteRecord, attr: usize) -> u32
    ensures { IsCodeOrZero texts.now (get_or (fields_of row.now) attr []) result }
{
    if row.len() <= attr {
        return 0;
    }
    match texts.seen(row.field(attr)) {
        Some(code) => code as u32,
        None => 0,
    }
}

impl SeenCodes {
    /// No code was found.
    fn none() -> SeenCodes
        ensures { (texts : List (List ℕ)) (rows : List (List (List ℕ))) → AreAllSeen texts rows result }
    {
        SeenCodes {
            codes: [[0u32; 8]; TOGETHER],
        }
    }

    /// Looks for the texts of an attribute, one behind the other, so that the processor waits for several of them at once.
    fn look_for(&mut self, attr: usize, texts: &Texts, group: &Group)
        requires attr { attr < 8 }
        requires seen { AreAllSeen texts.now group.now self.old }
        ensures seen { AreAllSeen texts.now group.now self.new }
    {
        for place in 0..group.len() {
            self.codes[place][attr] = seen_in(texts, group.record(place), attr);
        }
    }

    /// Those of a group.
    pub(crate) fn of(columns: &Columns, texts: &Texts, group: &Group) -> SeenCodes
        ensures { AreAllSeen texts.now group.now result }
    {
        let mut seen = SeenCodes::none();
        for attr in 0..columns.len() {
            if let Kind::Text = columns.kind(attr) {
                seen.look_for(attr, texts, group);
            }
        }
        seen
    }

    /// The codes of the record at a place.
    #[inline]
    pub(crate) fn at(&self, place: usize) -> &[u32; 8]
        requires { place < TOGETHER }
        ensures { result.now ≡ get_or self.now.codes place [] }
    {
        &self.codes[place]
    }
}
