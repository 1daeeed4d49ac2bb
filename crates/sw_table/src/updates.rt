//! Updates of a plain list of rows.

ghost use Rattle.std.specs.Prelude.{◌≡◌, OnOk, OnErr, fold};
ghost use Rattle.sw_table.specs.Updates.{IsPartWay, has_key, rows_then, without};

use crate::row::{Row, Update};
use std::alloc::AllocError;

/// Whether rows have a key.
pub fn has_key(rows: &[Row], key: u64) -> bool
    ensures { result ≡ has_key key rows.now }
{
    rows.iter().any(|row| key == row.key)
}

fn remove(rows: &mut Vec<Row>, key: u64)
    ensures { rows.new.items ≡ without key rows.old.items }
{
    rows.retain(|row| row.key != key);
}

/// Makes one update.
pub fn update(rows: &mut Vec<Row>, update: Update) -> Result<(), AllocError>
    ensures ok { OnOk result (rows.new.items ≡ rows_then rows.old.items update) }
    ensures err { OnErr result (rows.new.items ≡ rows.old.items) }
{
    match update {
        Update::Insert(row) => rows.push(row)?,
        Update::Remove(key) => remove(rows, key),
    }
    Ok(())
}

/// Makes updates in order. After an error a beginning of them is made, and nothing else.
pub fn update_all(rows: &mut Vec<Row>, updates: &[Update]) -> Result<(), AllocError>
    ensures ok { OnOk result (rows.new.items ≡ fold rows_then rows.old.items updates.now) }
    ensures err { OnErr result (IsPartWay updates.now rows.old.items rows.new.items) }
{
    for one in updates {
        update(rows, *one)?;
    }
    Ok(())
}
