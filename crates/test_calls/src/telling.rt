//! What all sides share: the four rows, and what came of a call.

ghost use Rattle.std.specs.Prelude.{◌≡◌};

use std::io;
use sw_rows::{Refusal, Row};

/// How often a call is made at most.
pub(crate) const TURNS: usize = 3;

/// For how many updates room is made.
pub(crate) const ROOM: usize = 6;

pub(crate) const HEADER: [&str; 3] = ["a:int", "b:int", "c:int"];

/// The cells of the four rows.
pub(crate) const CELLS: [[i64; 8]; 4] = [
    [12, 7, 1, 0, 0, 0, 0, 0],
    [3, 8, 0, 0, 0, 0, 0, 0],
    [12, 5, 1, 0, 0, 0, 0, 0],
    [20, 2, 0, 0, 0, 0, 0, 0],
];

/// The table of these rows.
pub(crate) const TABLE: &[u8] = b"a:int,b:int,c:int\n12,7,1\n3,8,0\n12,5,1\n20,2,0\n";

/// The row of a key and two cells.
pub(crate) fn row(key: u64, a: i64, b: i64) -> Row
    ensures { result.key ≡ key }
{
    Row {
        key,
        cells: [a, b, 0, 0, 0, 0, 0, 0],
    }
}

/// Tells what came of a call that answers nothing else, and whether it was refused.
pub(crate) fn told<R: Print>(rt: &R, done: Result<(), Refusal>) -> io::Result<bool> {
    match done {
        Ok(()) => {
            println!(rt; "done")?;
            Ok(false)
        }
        Err(e) => {
            println!(rt; "refused {e}")?;
            Ok(true)
        }
    }
}
