//! The keys of a reply's rows, each with how many cells its row shows.

ghost use Rattle.std.specs.Prelude.{◌≡◌, ◌++◌, ◌∷◌, [], length, IfOk, OnOk, OnErr};
ghost use Rattle.sw_query.specs.Replies.{IsFirstOf, evenly, first_label};

use std::alloc::{AllocError, Global};
use std::marker::Model;

/// How labels are kept.
#[derive(Debug, Drop)]
enum Form {
    /// Rows of these keys show as many cells each.
    Even(usize, Vec<u64>),
    /// Each key with how many cells its row shows.
    Listed(Vec<(u64, usize)>),
}

/// Keys of rows that show as many cells each, every key with that number.
fn listed(alloc: Global, many: usize, keys: &[u64]) -> Result<Vec<(u64, usize)>, AllocError>
    ensures { IfOk result (λ labels. labels.items ≡ evenly many keys.now) }
{
    let mut labels = Vec::with_capacity(alloc, keys.len())?;
    for key in keys {
        labels.push((*key, many))?;
    }
    Ok(labels)
}

/// The keys of rows in their order, each with how many cells its row shows. Those numbers take no memory while they are
/// equal.
#[derive(Debug, Drop)]
pub(crate) struct Labels {
    form: Form,
}

impl Model for Labels {
    ghost use Rattle.std.specs.Prelude.{List, ℕ};
    ghost use Rattle.sw_query.specs.Replies.{labels_in};

    ghost Value = { List (ℕ × ℕ) };

    ghost view = { λ l. labels_in l.form };
}

impl Labels {
    /// No labels.
    pub(crate) fn new(alloc: Global) -> Labels
        ensures { result ≡ [] }
    {
        Labels {
            form: Form::Even(0, Vec::new(alloc)),
        }
    }

    /// How many labels there are.
    pub(crate) fn len(&self) -> usize
        ensures { result ≡ length self.now }
    {
        match &self.form {
            Form::Even(_, keys) => keys.len(),
            Form::Listed(labels) => labels.len(),
        }
    }

    /// A copy. The one error is that there is no memory for it.
    pub(crate) fn copied(&self, alloc: Global) -> Result<Labels, AllocError>
        ensures { IfOk result (λ copy. copy ≡ self.now) }
    {
        let form = match &self.form {
            Form::Even(many, keys) => Form::Even(*many, Vec::from_slice(alloc, keys)?),
            Form::Listed(labels) => Form::Listed(Vec::from_slice(alloc, labels)?),
        };
        Ok(Labels { form })
    }

    /// Adds a key and how many cells its row shows at the end; after an error nothing has changed.
    pub(crate) fn push(&mut self, alloc: Global, key: u64, many: usize) -> Result<(), AllocError>
        ensures ok { OnOk result (self.new ≡ self.old ++ (key, many) ∷ []) }
        ensures err { OnErr result (self.new ≡ self.old) }
    {
        match &mut self.form {
            Form::Even(each, keys) => {
                if keys.is_empty() {
                    keys.push(key)?;
                    *each = many;
                    return Ok(());
                }
                if *each == many {
                    keys.push(key)?;
                    return Ok(());
                }
                let mut labels = listed(alloc, *each, keys)?;
                labels.push((key, many))?;
                self.form = Form::Listed(labels);
            }
            Form::Listed(labels) => labels.push((key, many))?,
        }
        Ok(())
    }

    /// The labels, to be taken one after another.
    pub(crate) fn left(&self) -> LabelsLeft<'_>
        ensures { result ≡ self.now }
    {
        match &self.form {
            Form::Even(many, keys) => LabelsLeft {
                form: FormLeft::Even(*many, keys),
            },
            Form::Listed(labels) => LabelsLeft {
                form: FormLeft::Listed(labels),
            },
        }
    }
}

/// What is left of labels.
#[derive(Drop)]
enum FormLeft<'a> {
    /// Rows of these keys show as many cells each.
    Even(usize, &'a [u64]),
    /// Each key with how many cells its row shows.
    Listed(&'a [(u64, usize)]),
}

/// Labels that are taken one after another.
#[derive(Drop)]
pub(crate) struct LabelsLeft<'a> {
    form: FormLeft<'a>,
}

impl<'a> Model for LabelsLeft<'a> {
    ghost use Rattle.std.specs.Prelude.{List, ℕ};
    ghost use Rattle.sw_query.specs.Replies.{labels_left};

    ghost Value = { List (ℕ × ℕ) };

    ghost view = { λ l. labels_left l.form };
}

impl<'a> LabelsLeft<'a> {
    /// No labels.
    pub(crate) fn none() -> LabelsLeft<'a>
        ensures { result ≡ [] }
    {
        LabelsLeft {
            form: FormLeft::Listed(&[]),
        }
    }

    /// The key that comes next.
    #[inline]
    pub(crate) fn first_key(&self) -> Option<u64>
        ensures { result ≡ first_label self.now }
    {
        match &self.form {
            FormLeft::Even(_, keys) => keys.first().copied(),
            FormLeft::Listed(labels) => labels.first().map(|l| l.0),
        }
    }

    /// Takes the label that comes next.
    #[inline]
    pub(crate) fn next(&mut self) -> Option<(u64, usize)>
        ensures { IsFirstOf self.old self.new result }
    {
        match &mut self.form {
            FormLeft::Even(many, keys) => {
                let (key, later) = keys.split_first()?;
                *keys = later;
                Some((*key, *many))
            }
            FormLeft::Listed(labels) => {
                let (label, later) = labels.split_first()?;
                *labels = later;
                Some(*label)
            }
        }
    }
}
