//! A fixed sequence of numbers, and the lines of calls that it makes.

use std::alloc::{AllocError, Global};
use test_words::Dice;

/// The names of five attributes.
pub(crate) const NAMES: [&str; 5] = ["a", "b", "c", "d", "e"];

/// A fixed sequence of numbers makes cells, cuts and the lines of calls.
#[derive(Drop)]
pub(crate) struct Lines {
    dice: Dice,
}

impl Lines {
    /// The lines of a seed.
    pub(crate) fn new(seed: u64) -> Lines {
        Lines {
            dice: Dice::of(seed.wrapping_mul(0x9E37_79B9_7F4A_7C15)),
        }
    }

    /// The next number below a limit, or 0.
    pub(crate) fn roll(&mut self, below: u32) -> u32 {
        u32::try_from(self.dice.roll(u64::from(below))).unwrap_or(0)
    }

    /// Whether one of so many.
    pub(crate) fn is_one_in(&mut self, many: u32) -> bool {
        self.roll(many) == 0
    }

    /// A cell from 0 up to below 24, rarely one of the ends.
    pub(crate) fn cell(&mut self) -> i64 {
        match self.roll(40) {
            0 => i64::MIN,
            1 => i64::MAX,
            _ => i64::from(self.roll(24)),
        }
    }

    /// The name of one of five attributes.
    fn name(&mut self) -> &'static str {
        NAMES[self.roll(5) as usize % 5]
    }

    /// Up to so many cuts, which rise.
    pub(crate) fn cuts(&mut self, alloc: Global, most: u32) -> Result<Vec<i64>, AllocError> {
        let mut cuts = Vec::new(alloc);
        let mut cut = i64::from(self.roll(3));
        for _turn in 0..self.roll(most.wrapping_add(1)) {
            cuts.push(cut)?;
            cut = cut.wrapping_add(1).wrapping_add(i64::from(self.roll(3)));
        }
        Ok(cuts)
    }

    /// Cells of five attributes.
    pub(crate) fn cells(&mut self) -> [i64; 8] {
        let mut cells = [0; 8];
        for attribute in 0..5 {
            cells[attribute] = self.cell();
        }
        cells
    }

    /// The insertion of a row.
    pub(crate) fn push_row(&mut self, line: &mut String) -> Result<(), AllocError> {
        write!(line, "insert {}", self.cell())?;
        for _turn in 1..5 {
            write!(line, ", {}", self.cell())?;
        }
        Ok(())
    }

    /// A condition on an attribute.
    fn push_cond(&mut self, name: &str, line: &mut String) -> Result<(), AllocError> {
        let (one, other) = (self.cell(), self.cell());
        match self.roll(7) {
            0 => write!(line, "{name} = {one}"),
            1 => write!(line, "{name} >= {one}"),
            2 => write!(line, "{name} > {one}"),
            3 => write!(line, "{name} < {one}"),
            4 => write!(line, "{name} <= {one}"),
            5 => write!(line, "{name} > {one} and {name} < {other}"),
            _ => write!(line, "{name} >= {one} and {name} <= {other}"),
        }
    }

    /// The deletion of all rows that meet a condition, and rarely others.
    pub(crate) fn push_deletion(&mut self, line: &mut String) -> Result<(), AllocError> {
        let (first, other) = (self.name(), self.name());
        line.push_str("delete where ")?;
        self.push_cond(first, line)?;
        if self.is_one_in(3) {
            line.push_str(" and ")?;
            self.push_cond(other, line)?;
        }
        Ok(())
    }

    /// What is wanted.
    fn push_want(&mut self, line: &mut String) -> Result<(), AllocError> {
        let name = self.name();
        match self.roll(6) {
            0 => line.push_str("count"),
            1 => write!(line, "sum {name}"),
            2 => write!(line, "min {name}"),
            3 => write!(line, "max {name}"),
            4 => write!(line, "select {name}"),
            _ => write!(line, "select {name}, {}, {}", self.name(), self.name()),
        }
    }

    /// A query of a head: a condition on it, and rarely others; of the first attribute also none.
    pub(crate) fn push_query(&mut self, head: usize, line: &mut String) -> Result<(), AllocError> {
        self.push_want(line)?;
        if head == 0 && self.is_one_in(6) {
            return Ok(());
        }
        line.push_str(" where ")?;
        self.push_cond(NAMES[head % 5], line)?;
        for attribute in 0..5usize {
            if attribute != head && self.is_one_in(5) {
                line.push_str(" and ")?;
                self.push_cond(NAMES[attribute], line)?;
            }
        }
        Ok(())
    }
}
