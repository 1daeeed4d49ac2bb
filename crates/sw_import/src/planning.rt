//! What becomes of each column, from what was seen of its cells.

ghost use Rattle.std.specs.Prelude.{◌≡◌, IfSome};
ghost use Rattle.sw_import.specs.Planning.{form_under, with_blanks, with_longs};

use crate::columns::Column;
use crate::dictionary::Dictionary;
use crate::evidence::{Evidence, Tally};
use crate::faults::{Fault, Lack, Lacks};
use crate::forms::Form;
use crate::rules::{Blank, Long, Rules};
use std::alloc::{AllocError, Global};
use sw_rows::TextKey;

/// What becomes of a column.
pub struct Planned {
    /// The column.
    pub column: Column,
    /// What was seen of its cells.
    pub evidence: Evidence,
    /// What its cells are taken for.
    pub form: Form,
    /// The texts for which numbers are written, where it is a column of such.
    pub dictionary: Dictionary,
}

// By hand: the drop of a derived one is written out at each way out of a function.
impl Drop for Planned {
    fn drop(self) {
        let Self {
            column: _column,
            evidence: _,
            form: _,
            dictionary: _dictionary,
        } = self;
    }
}

impl Planned {
    /// Whether each cell that is written is written as it stands, by what was seen of the cells.
    pub(crate) fn keeps_cells(&self) -> bool {
        match self.form {
            Form::Number(_) => self.evidence.blank.count == 0,
            Form::Text => self.evidence.long.count == 0,
            _ => false,
        }
    }
}

/// What a column of a form is taken for, so many of whose cells have no value: texts, where that was chosen and the form does
/// not take them.
fn with_blanks(rules: &Rules<'_>, count: u64, form: Form) -> Form
    ensures { result ≡ with_blanks rules.now.blank count form }
{
    match rules.blank {
        Blank::Text if count > 0 && !form.takes_blanks() => Form::Text,
        _ => form,
    }
}

/// What a column of a form is taken for, so many of whose cells are too long for texts: numbers for texts, where that was
/// chosen and it is one of texts.
fn with_longs(rules: &Rules<'_>, count: u64, form: Form) -> Form
    ensures { result ≡ with_longs rules.now.long count form }
{
    match (rules.long, form) {
        (Long::Number, Form::Text) if count > 0 => Form::Code,
        _ => form,
    }
}

/// What a column is taken for: what was asked for; else what its cells are.
fn form_of(rules: &Rules<'_>, column: &Column, evidence: &Evidence) -> Form
    ensures given { IfSome column.now.given (λ form. result ≡ form_under rules.now evidence.now form) }
{
    let form = match column.given {
        Some(form) => form,
        None => evidence.found(rules.times),
    };
    let form = with_blanks(rules, evidence.blank.count, form);
    with_longs(rules, evidence.long.count, form)
}

/// What becomes of columns.
pub(crate) fn plan(
    alloc: Global,
    key: TextKey,
    rules: &Rules<'_>,
    columns: Vec<Column>,
    seen: &[Evidence],
) -> Result<Vec<Planned>, AllocError> {
    let mut plan = Vec::new(alloc);
    for (column, evidence) in columns.into_iter().zip(seen) {
        let planned = Planned {
            form: form_of(rules, &column, evidence),
            column,
            evidence: *evidence,
            dictionary: Dictionary::new(alloc, key),
        };
        plan.push(planned)?;
    }
    Ok(plan)
}

/// What there is of some sort in a column, as a fault tells it.
fn lack(alloc: Global, column: &Column, tally: Tally) -> Result<Lack, AllocError> {
    Ok(Lack {
        count: tally.count,
        line: tally.first,
        at: column.at(alloc)?,
    })
}

/// The sorts of cells for which a table may be refused.
#[derive(Clone, Copy)]
enum Sort {
    /// They have no value.
    Blank,
    /// They are too long for texts.
    Long,
    /// They are not UTF-8.
    Broken,
}

/// The cells of a sort in a column, where they are refused.
fn refused(planned: &Planned, sort: Sort) -> Tally {
    match (sort, planned.form) {
        (Sort::Blank, Form::Text | Form::Code) => Tally::new(),
        (Sort::Blank, _) => planned.evidence.blank,
        (Sort::Long, Form::Text) => planned.evidence.long,
        (Sort::Broken, Form::Text | Form::Code) => planned.evidence.broken,
        _ => Tally::new(),
    }
}

/// What there is of a sort in columns, as a fault tells it.
fn lacks(alloc: Global, plan: &[Planned], sort: Sort) -> Result<Lacks, AllocError> {
    let mut lacks = Vec::new(alloc);
    for planned in plan {
        let tally = refused(planned, sort);
        if tally.count > 0 {
            let lack = lack(alloc, &planned.column, tally)?;
            lacks.push(lack)?;
        }
    }
    Ok(Lacks { lacks })
}

/// Refuses columns with cells of a sort.
fn see_sort(alloc: Global, plan: &[Planned], sort: Sort) -> Result<(), Fault> {
    let lacks = lacks(alloc, plan, sort)?;
    if lacks.lacks.is_empty() {
        return Ok(());
    }
    Err(match sort {
        Sort::Blank => Fault::Blanks(lacks),
        Sort::Long => Fault::Longs(lacks),
        Sort::Broken => Fault::Encodings(lacks),
    })
}

/// Refuses the cells for which nothing was chosen.
pub(crate) fn see_plan(alloc: Global, rules: &Rules<'_>, plan: &[Planned]) -> Result<(), Fault> {
    see_sort(alloc, plan, Sort::Broken)?;
    if let Blank::Refuse = rules.blank {
        see_sort(alloc, plan, Sort::Blank)?;
    }
    if let Long::Refuse = rules.long {
        see_sort(alloc, plan, Sort::Long)?;
    }
    Ok(())
}
