//! The reading of a table.

use crate::telling::{TABLE, TURNS};
use std::alloc::Global;
use std::io;
use sw_rows::{Counted, PackedRows, Schema, TextKey, load};

/// Tells a table.
fn tell_table<R: Print>(rt: &R, schema: &Schema, rows: &PackedRows) -> io::Result<()> {
    println!(rt; "{} attributes", schema.len())?;
    for place in 0..rows.len() {
        println!(rt;
            "{}: {}, {}, {}",
            rows.key(place),
            rows.cell(place, 0),
            rows.cell(place, 1),
            rows.cell(place, 2)
        )?;
    }
    println!(rt; "= none")
}

/// The reading of a table.
pub(crate) fn load_side<R: Print>(rt: &R, alloc: Global) -> io::Result<()> {
    for _turn in 0..TURNS {
        println!(rt; "> load")?;
        match load(alloc, TextKey::fixed(), &mut Counted::new(TABLE)) {
            Ok((schema, rows)) => return tell_table(rt, &schema, &rows),
            Err(e) => println!(rt; "refused {e}\n= none")?,
        }
    }
    Ok(())
}
