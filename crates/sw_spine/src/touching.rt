//! Which entries of a record changed rows that a call asks for.

ghost use Rattle.std.specs.Prelude.{◌<◌, All, IfOk, IsOkUnless, length};
ghost use Rattle.sw_spine.specs.History.{CallsBelow};

use crate::history::Record;
use crate::replay::Replay;
use sw_rows::{Call, Cond, Refusal, Row, Schema, is_within};

/// The rows that a call asks for.
#[derive(Clone, Copy)]
pub(crate) enum Asked<'a> {
    /// Those that meet all of some conditions.
    Conds(&'a [Cond]),
    /// That of a key.
    Key(u64),
    /// Those that come: an insert is given the key after theirs.
    Coming,
}

/// Whether a row meets a condition. An attribute that no row has is met by none.
fn meets(row: &Row, cond: &Cond) -> bool {
    match row.cells.get(cond.attr) {
        Some(cell) => is_within(cond.lower, cond.upper, *cell),
        None => false,
    }
}

impl<'a> Asked<'a> {
    /// What a call asks for.
    fn of(call: &'a Call) -> Asked<'a> {
        match call {
            Call::Select(query) => Asked::Conds(query.conds.as_slice()),
            Call::Insert(_) => Asked::Coming,
            Call::Delete(key) => Asked::Key(*key),
            Call::DeleteWhere(conds) => Asked::Conds(conds.as_slice()),
        }
    }

    /// Whether a row that the table has is asked for.
    pub(crate) fn has(self, row: &Row) -> bool {
        match self {
            Asked::Conds(conds) => conds.iter().all(|cond| meets(row, cond)),
            Asked::Key(key) => row.key == key,
            Asked::Coming => false,
        }
    }

    /// Whether a row that comes is asked for.
    pub(crate) fn awaits(self, row: &Row) -> bool {
        match self {
            Asked::Coming => true,
            Asked::Conds(_) | Asked::Key(_) => self.has(row),
        }
    }
}

/// Makes a call on the table, and says whether it brings or takes out a row that is asked for. The one refusal is `NoMemory`.
fn make_watched(
    schema: &Schema,
    replay: &mut Replay,
    call: &Call,
    asked: Asked<'_>,
) -> Result<bool, Refusal>
    requires { CallsBelow (length schema.now) call.now }
    ensures { IsOkUnless result Refusal.NoMemory }
{
    let width = schema.len();
    prove!(width <= 8);
    let touches = replay.would_touch(call, asked)?;
    match replay.make(call) {
        Ok(_) => Ok(touches),
        Err(_) => Err(Refusal::NoMemory),
    }
}

impl Record {
    /// The places, from 0 and rising, of the entries before a place that changed rows which its call asks for: rows that
    /// meet its conditions, the row of its key, or, of an insert, rows that came. That they are all of these, and no
    /// others, no clause says.
    ///
    /// The one refusal is `NoMemory`.
    pub fn changes_before(&self, place: usize) -> Result<Vec<usize>, Refusal>
        requires { place < length self.now.entries }
        ensures before { IfOk result (λ places. All (λ i. i < place) places.items) }
        ensures refused { IsOkUnless result Refusal.NoMemory }
    {
        let alloc = *self.entries.allocator();
        let Ok(mut replay) = Replay::new(alloc, &self.rows, self.limit) else {
            return Err(Refusal::NoMemory);
        };
        let asked = Asked::of(self.entries[place].call());
        let mut places: Vec<usize> = Vec::new(alloc);
        for (i, entry) in self.entries.iter().enumerate() {
            if i >= place {
                break;
            }
            if make_watched(&self.schema, &mut replay, entry.call(), asked)?
                && places.push(i).is_err()
            {
                return Err(Refusal::NoMemory);
            }
        }
        Ok(places)
    }
}
