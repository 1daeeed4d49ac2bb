//! Lists of rows that share their cells.

use crate::tables::shown;
use crate::told::push_line;
use std::alloc::{AllocError, Global};
use sw_rows::{PackedRows, Row, Schema};

/// Changes a list.
fn change(rows: &mut PackedRows, how: &str) -> Result<(), AllocError> {
    let _width = rows.width();
    match how {
        "exchange" => rows.exchange(0, &[70, 80]),
        "truncate" => rows.truncate(1),
        _ => rows.add(&Row {
            key: 9,
            cells: [9, 9, 0, 0, 0, 0, 0, 0],
        })?,
    }
    Ok(())
}

fn push_rows(
    alloc: Global,
    text: &mut String,
    schema: &Schema,
    rows: &PackedRows,
) -> Result<(), AllocError> {
    let rows = rows.to_rows(alloc)?;
    let line = shown(alloc, schema, rows.as_slice())?;
    push_line(text, line.as_str())
}

/// A list that shares its cells and is changed, the other one that has them, and that one changed too, when none shares
/// them with it.
pub(crate) fn changed(
    alloc: Global,
    schema: &Schema,
    rows: &[Row],
    how: &str,
) -> Result<String, AllocError> {
    let mut text = String::new(alloc);
    let mut one = PackedRows::of(alloc, rows)?;
    one.make_shared()?;
    let mut other = one.share(alloc)?;
    change(&mut one, how)?;
    push_rows(alloc, &mut text, schema, &one)?;
    push_rows(alloc, &mut text, schema, &other)?;
    change(&mut other, how)?;
    push_rows(alloc, &mut text, schema, &other)?;
    Ok(text)
}
