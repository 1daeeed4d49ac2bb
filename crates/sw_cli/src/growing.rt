//! Attributes that know more texts than those with which an engine was opened, and its history over them.

ghost use Rattle.std.specs.Prelude.{◌≡◌, ◌≤◌, true, length, IfOk, IsOkUnless};
ghost use Rattle.sw_query.specs.declared.refusal.Refusal.TheVariants.{NoMemory};
ghost use Rattle.sw_spine.specs.History.{IsLegal, all_given};

use std::alloc::Global;
use sw_rows::{Refusal, Schema, TextKey};
use sw_spine::Record;

/// Names of attributes, as many as there may be.
const STAND_INS: [&str; 8] = ["a", "b", "c", "d", "e", "f", "g", "h"];

/// Attributes that stand for as many others in an engine, which only counts them: so those that know the texts stay with
/// who prints the replies. The one refusal is `NoMemory`.
pub fn stand_ins(alloc: Global, columns: usize) -> Result<Schema, Refusal>
    requires { columns ≤ 8 }
    ensures many { IfOk result (λ s. length s ≡ columns) }
    ensures refused { IsOkUnless result NoMemory }
{
    let (names, _) = STAND_INS.split_at(columns);
    let Ok(schema) = Schema::of(alloc, TextKey::fixed(), names) else {
        return Err(Refusal::NoMemory);
    };
    if schema.len() != columns {
        return Err(Refusal::NoMemory);
    }
    Ok(schema)
}

/// A record of these attributes in place of its own, of which there are as many: those that know what texts came
/// while the history was made. Where it has its replies as they were given, it is legal over the one where it was over the
/// other, since a legal reply hangs on rows and calls alone, and codes of texts stay.
pub fn with_columns(history: Record, schema: Schema) -> Record
    requires wide { length schema ≡ length history.columns }
    requires given { all_given history.entries ≡ true }
    ensures columns { result.columns ≡ schema }
    ensures rows { result.rows ≡ history.rows }
    ensures limit { result.limit ≡ history.limit }
    ensures entries { result.entries ≡ history.entries }
    ensures legal { IsLegal history → IsLegal result }
{
    let Record {
        rows,
        limit,
        entries,
        ..
    } = history;
    Record {
        schema,
        rows,
        limit,
        entries,
    }
}
