//! What all calls share.

/// How often a call is made at most.
pub(crate) const TURNS: usize = 3;

pub(crate) const HEADER: [&str; 3] = ["a:int", "b:int", "c:int"];

/// The cells of the four rows.
pub(crate) const CELLS: [[i64; 8]; 4] = [
    [12, 7, 1, 0, 0, 0, 0, 0],
    [3, 8, 0, 0, 0, 0, 0, 0],
    [12, 5, 1, 0, 0, 0, 0, 0],
    [20, 2, 0, 0, 0, 0, 0, 0],
];

pub(crate) const LIMIT: u64 = 1000;
