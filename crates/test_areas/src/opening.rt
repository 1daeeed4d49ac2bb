//! Rows by their numbers.

ghost use Rattle.std.specs.Prelude.{◌≡◌, ◌<◌, ◌+◌, ◌^◌, ◌++◌, ◌∷◌, [], All, IfOk, take};
ghost use Rattle.sw_query.specs.Outcomes.{MemoryAside};
ghost use Rattle.sw_rows.specs.declared.table.TheConstants.{MOST_ROWS};
ghost use Rattle.sw_table.specs.declared.row.Row.{Row};
ghost use Rattle.sw_set.specs.Shelf.{Rises, key_of};
ghost use Rattle.test_areas.specs.Opening.{numbered, row_of};

use std::alloc::Global;
use sw_rows::{MOST_ROWS, Refusal, Row};

/// Adds the row of these cells whose key is one more than a number. Refused `NoMemory` alone.
fn push_row(rows: &mut Vec<Row>, number: usize, cells: [i64; 8]) -> Result<(), Refusal>
    requires { number < MOST_ROWS }
    ensures { MemoryAside result (λ _. rows.new.items ≡ rows.old.items ++ row_of (number + 1, cells) ∷ []) }
{
    let row = Row {
        key: number as u64 + 1,
        cells,
    };
    match rows.push(row) {
        Ok(()) => Ok(()),
        Err(_) => Err(Refusal::NoMemory),
    }
}

/// Rows of these cells, by the keys 1, 2, 3 and so on; of the first `MOST_ROWS` alone. Refused `NoMemory` alone.
pub fn numbered(alloc: Global, cells: &[[i64; 8]]) -> Result<Vec<Row>, Refusal>
    ensures rows { MemoryAside result (λ rows. rows.items ≡ numbered (take MOST_ROWS cells.now)) }
    ensures rise { IfOk result (λ rows. Rises key_of rows.items) }
    ensures fit { IfOk result (λ rows. All (λ (r : Row). r.key < 2 ^ 63) rows.items) }
{
    let mut rows: Vec<Row> = Vec::new(alloc);
    for i in 0..cells.len().min(MOST_ROWS as usize) {
        push_row(&mut rows, i, cells[i])?;
    }
    Ok(rows)
}
