//! Comparisons of a call, and the conditions that they make.

ghost use Rattle.std.specs.Prelude.{◌≡◌, OnOk, OnErr};
ghost use Rattle.sw_lang.specs.Terms.{add_term, cond_of, lower_of, narrowed, upper_of};

use crate::reading::token::Op;
use std::alloc::AllocError;
use sw_rows::{Bound, Cond, Conds, greater, lesser};

/// One comparison after `where`.
#[derive(Clone, Copy, Debug, PartialEq, Eq)]
pub struct Term {
    /// The attribute's number, from 0.
    pub attr: usize,
    pub op: Op,
    pub value: i64,
}

fn lower_of(term: Term) -> Option<Bound>
    ensures { result ≡ lower_of term.op term.value }
{
    match term.op {
        Op::Lt | Op::Le => None,
        Op::Eq | Op::Ge => Some(Bound::Before(term.value)),
        Op::Gt => Some(Bound::After(term.value)),
    }
}

fn upper_of(term: Term) -> Option<Bound>
    ensures { result ≡ upper_of term.op term.value }
{
    match term.op {
        Op::Lt => Some(Bound::Before(term.value)),
        Op::Le | Op::Eq => Some(Bound::After(term.value)),
        Op::Ge | Op::Gt => None,
    }
}

fn cond_of(term: Term) -> Cond
    ensures { result ≡ cond_of term }
{
    Cond {
        attr: term.attr,
        lower: lower_of(term),
        upper: upper_of(term),
    }
}

fn narrowed(cond: Cond, term: Term) -> Cond
    ensures { result ≡ narrowed cond term }
{
    Cond {
        attr: cond.attr,
        lower: greater(cond.lower, lower_of(term)),
        upper: lesser(cond.upper, upper_of(term)),
    }
}

/// Narrows the condition on the term's attribute, or adds one at the end; after an error nothing has changed.
pub(crate) fn add_term(conds: &mut Conds, term: Term) -> Result<(), AllocError>
    ensures ok { OnOk result (conds.new ≡ add_term conds.old term) }
    ensures err { OnErr result (conds.new ≡ conds.old) }
{
    match conds.place_of(term.attr) {
        Some(place) => {
            let cond = conds.as_slice()[place];
            conds.set(place, narrowed(cond, term));
            Ok(())
        }
        None => conds.push(cond_of(term)),
    }
}
