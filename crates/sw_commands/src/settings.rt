//! What a run is told besides its files.

ghost use Rattle.std.specs.Prelude.{◌≡◌, ◌<◌, ◌≤◌, ◌↔◌, IfSome, IsSome};
ghost use Rattle.sw_rows.specs.declared.table.TheConstants.{MOST_ROWS};

use sw_rows::MOST_ROWS;

/// How many rows are ever inserted at most: 1 to 1,048,576.
#[derive(Clone, Copy)]
pub struct Limit {
    /// The rows.
    pub rows: u64,
    ghost some: { 0 < rows },
    ghost most: { rows ≤ MOST_ROWS },
}

impl Limit {
    /// The limit of so many rows; none where it is out of its range.
    pub fn new(rows: u64) -> Option<Limit>
        ensures inside { IsSome result ↔ ((0 < rows) × (rows ≤ MOST_ROWS)) }
        ensures same { IfSome result (λ limit. limit.rows ≡ rows) }
    {
        if rows == 0 || rows > MOST_ROWS {
            return None;
        }
        Some(Limit { rows })
    }
}

/// What a run is told in numbers and flags.
#[derive(Clone, Copy)]
pub struct Settings<'a> {
    /// How many rows are ever inserted at most.
    pub limit: Limit,
    /// How many pairs of cells all maps may hold.
    pub budget: u64,
    /// How many maps there may be at a time.
    pub maps: u64,
    /// Where heads are cut into areas, as `--cuts` has it.
    pub cuts: &'a str,
    /// Whether each block of the script has a thread of its own.
    pub threads: bool,
}
