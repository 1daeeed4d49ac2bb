//! Random visits, whose record is checked, which makes its calls again on another plain table.

ghost use Rattle.std.specs.Prelude.{OnOk};
ghost use Rattle.test_spine.specs.Benches.{IsAtRest};

use crate::bench::{Step, Text, four_rows, make, opened};
use std::alloc::{AllocError, Global};
use sw_rows::{Counted, Refusal, Row};
use sw_spine::Spine;
use test_words::Dice;

/// How many visits of each kind there are.
const TURNS: usize = 200;

/// Seeds, and limits of rows.
const TRIALS: &[(u64, u64)] = &[
    (7_000_001, 1_048_576),
    (7_000_003, 120),
    (7_000_005, 1_048_576),
];

const SIGNS: [&str; 5] = ["<", "<=", "=", ">=", ">"];

/// The least and the greatest cell.
const ENDS: [i64; 2] = [i64::MIN, i64::MAX];

/// What a select of a number begins with.
const NUMBERS: [&str; 4] = ["count", "sum b", "min c", "max a"];

/// A fixed sequence of numbers makes the lines of calls.
#[derive(Drop)]
pub(crate) struct Lines {
    dice: Dice,
}

impl Lines {
    /// The lines of a seed.
    pub(crate) fn of(seed: u64) -> Lines {
        Lines {
            dice: Dice::of(seed),
        }
    }

    /// A condition on an attribute, after a word.
    fn push_cond(&mut self, word: &str, name: &str, line: &mut String) -> Result<(), AllocError> {
        let sign = SIGNS[(self.dice.roll(5) % 5) as usize];
        write!(line, " {word} {name} {sign} {}", self.dice.roll(12))
    }

    /// Two conditions.
    fn push_conds(&mut self, line: &mut String) -> Result<(), AllocError> {
        self.push_cond("where", "b", line)?;
        self.push_cond("and", "a", line)
    }

    /// The next cell: one of twelve, or the least or the greatest of all.
    fn cell(&mut self) -> i64 {
        match self.dice.roll(10) {
            0 => ENDS[(self.dice.roll(2) % 2) as usize],
            _ => (self.dice.roll(12) % 12) as i64,
        }
    }

    /// A row that comes.
    fn push_row(&mut self, line: &mut String) -> Result<(), AllocError> {
        let (a, b, c) = (self.cell(), self.cell(), self.dice.roll(2));
        write!(line, "insert {a}, {b}, {c}")
    }

    /// Bounds on an attribute: two, which may take no cell, or one cell, or one bound.
    fn push_bounds(&mut self, line: &mut String) -> Result<(), AllocError> {
        match self.dice.roll(4) {
            0 => write!(line, " where a = {} and b < {}", self.cell(), self.cell()),
            1 => write!(
                line,
                " where c < 1 and b > {} and b <= {}",
                self.cell(),
                self.cell()
            ),
            2 => write!(line, " where b >= {} and b < {}", self.cell(), self.cell()),
            _ => self.push_cond("where", "a", line),
        }
    }

    /// A select of a number.
    fn push_number(&mut self, line: &mut String) -> Result<(), AllocError> {
        line.push_str(NUMBERS[(self.dice.roll(4) % 4) as usize])?;
        self.push_bounds(line)
    }

    /// A select of rows, or of a number.
    fn push_select(&mut self, line: &mut String) -> Result<(), AllocError> {
        if self.dice.roll(2) == 0 {
            return self.push_number(line);
        }
        line.push_str("select a, b, c")?;
        self.push_bounds(line)
    }

    /// A change: a row comes, one goes, or all go that meet a condition or two.
    fn push_change(&mut self, line: &mut String) -> Result<(), AllocError> {
        match self.dice.roll(12) {
            0 => {
                line.push_str("delete")?;
                self.push_cond("where", "a", line)
            }
            1 | 2 => {
                line.push_str("delete")?;
                self.push_conds(line)
            }
            3 | 4 => write!(line, "delete {}", self.dice.roll(60)),
            _ => self.push_row(line),
        }
    }

    /// A change, or, as often, a select of a number.
    fn push_call(&mut self, line: &mut String) -> Result<(), AllocError> {
        match self.dice.roll(2) {
            0 => self.push_change(line),
            _ => self.push_number(line),
        }
    }
}

/// The line of a change.
fn change_of(alloc: Global, lines: &mut Lines) -> Result<String, Refusal> {
    let mut line = String::new(alloc);
    match lines.push_change(&mut line) {
        Ok(()) => Ok(line),
        Err(_) => Err(Refusal::NoMemory),
    }
}

/// The line of a select.
fn select_of(alloc: Global, lines: &mut Lines) -> Result<String, Refusal> {
    let mut line = String::new(alloc);
    match lines.push_select(&mut line) {
        Ok(()) => Ok(line),
        Err(_) => Err(Refusal::NoMemory),
    }
}

/// The line of a change, or of a select of a number.
pub(crate) fn call_line(alloc: Global, lines: &mut Lines) -> Result<String, Refusal> {
    let mut line = String::new(alloc);
    match lines.push_call(&mut line) {
        Ok(()) => Ok(line),
        Err(_) => Err(Refusal::NoMemory),
    }
}

/// A change, and a select with a change before its answer.
fn visit(
    alloc: Global,
    spine: &mut Spine,
    rows: &mut Vec<Row>,
    lines: &mut Lines,
    text: &mut Text,
) -> Result<(), Refusal>
    requires rest { IsAtRest spine.old rows.old.items }
    ensures { OnOk result (IsAtRest spine.new rows.new.items) }
{
    let line = change_of(alloc, lines)?;
    make(alloc, spine, rows, &Step::Change(line.as_str()), text)?;
    let asked = select_of(alloc, lines)?;
    let line = change_of(alloc, lines)?;
    let step = Step::Around(asked.as_str(), line.as_str());
    make(alloc, spine, rows, &step, text)
}

/// Such visits one after the other.
fn visit_all(
    alloc: Global,
    spine: &mut Spine,
    rows: &mut Vec<Row>,
    lines: &mut Lines,
    text: &mut Text,
) -> Result<(), Refusal>
    requires rest { IsAtRest spine.old rows.old.items }
{
    for _turn in 0..TURNS {
        visit(alloc, spine, rows, lines, text)?;
    }
    Ok(())
}

/// Whether the record of random visits, of so many rows at most, is found legal.
fn is_legal(alloc: Global, seed: u64, limit: u64) -> Result<bool, Refusal> {
    if limit < 4 || limit > 1048576 {
        return Err(Refusal::Input);
    }
    let mut rows = four_rows(alloc)?;
    let mut spine = opened(alloc, rows.as_slice(), limit)?;
    let mut text = Counted::new(Vec::new(alloc));
    let mut lines = Lines::of(seed);
    visit_all(alloc, &mut spine, &mut rows, &mut lines, &mut text)?;
    Ok(spine.into_record().check().is_ok())
}

#[test]
fn random_visits_are_legal(rt: HostRuntime) -> Result<(), Refusal> {
    for (seed, limit) in TRIALS {
        assert!(rt; is_legal(rt.alloc(), *seed, *limit)?);
    }
    Ok(())
}
