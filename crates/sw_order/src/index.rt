//! All rows in the order of an attribute's cells.

use crate::small::{NOTHING, Part, at};
use crate::tasks::Range;
use std::alloc::{AllocError, Global};

/// The rows in the order of the cells of one attribute.
#[derive(Drop)]
pub(crate) struct Index {
    cells: Vec<i64>,
    pub(crate) rows: Vec<usize>,
}

/// The cells of an attribute with their rows' numbers.
fn pairs_of(
    alloc: Global,
    rows: &[[i64; 8]],
    attr: usize,
) -> Result<Vec<(i64, usize)>, AllocError> {
    let mut pairs = Vec::with_capacity(alloc, rows.len())?;
    for (number, row) in rows.iter().enumerate() {
        pairs.push((at(row, attr, 0), number))?;
    }
    Ok(pairs)
}

impl Index {
    /// The index of an attribute.
    pub(crate) fn of(alloc: Global, rows: &[[i64; 8]], attr: usize) -> Result<Index, AllocError> {
        let mut pairs = pairs_of(alloc, rows, attr)?;
        pairs.sort()?;
        let mut index = Index {
            cells: Vec::with_capacity(alloc, pairs.len())?,
            rows: Vec::with_capacity(alloc, pairs.len())?,
        };
        for (cell, row) in pairs {
            index.cells.push(cell)?;
            index.rows.push(row)?;
        }
        Ok(index)
    }

    /// How many cells are below a value, those of the value included where that is asked.
    fn below(&self, value: i64, with_value: bool) -> usize {
        let mut from = 0usize;
        let mut to = self.cells.len();
        for _ in 0..64 {
            if from >= to {
                return from;
            }
            let middle = from + (to - from) / 2;
            let cell = at(&self.cells, middle, 0);
            if cell < value || (with_value && cell == value) {
                from = middle + 1;
            } else {
                to = middle;
            }
        }
        from
    }

    /// Where the rows of a range stand.
    pub(crate) fn span(&self, range: Range) -> Part {
        if range.low > range.high {
            return NOTHING;
        }
        Part {
            from: self.below(range.low, false),
            to: self.below(range.high, true),
        }
    }
}
