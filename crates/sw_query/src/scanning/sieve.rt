//! Conditions made ready for a pass over many rows.

ghost use Rattle.std.specs.Prelude.{◌≡◌, ◌<◌, length, slice_index_or};
ghost use Rattle.sw_query.specs.Bounds.{is_within};
ghost use Rattle.sw_query.specs.Scan.{first_of, is_match, meets_all, CondsBelow};
ghost use Rattle.sw_table.specs.declared.row.Row.{Row};

use crate::bound::is_within;
use crate::query::Cond;
use crate::scanning::places::Places;
use crate::scanning::span::Span;
use std::marker::Model;

/// A query's conditions with the attribute of the first of them at hand, and the cells that it takes, which a pass over
/// many rows works out once and not at each row. Contracts see the conditions.
#[derive(Drop)]
pub(crate) struct Sieve<'a> {
    attr: usize,
    span: Span,
    conds: &'a [Cond],
}

impl<'a> Model for Sieve<'a> {
    ghost use Rattle.std.specs.Prelude.{◌≡◌, List};
    ghost use Rattle.sw_query.specs.Scan.{first_of};
    ghost use Rattle.sw_query.specs.Spans.{IsSpanOf};
    ghost use Rattle.sw_query.specs.declared.query.Cond.{Cond};

    ghost Value = { List Cond };

    ghost view = { λ s. s.conds.now };

    ghost invariant = { λ s. (s.attr ≡ (first_of s.conds.now).attr)
        × IsSpanOf (first_of s.conds.now).lower (first_of s.conds.now).upper s.span.low s.span.high };
}

/// Whether the row at a place meets each condition.
#[tactic(auto, using(std::proofs::lemmas::List::Folds::list_all_more, std::proofs::lemmas::List::Folds::list_all_at))]
fn meets_at<P: Places>(rows: &P, place: usize, conds: &[Cond]) -> bool
    requires place { place < length (P.rows rows.now) }
    requires conds { CondsBelow 8 conds.now }
    ensures { (d : Row) → result ≡ meets_all conds.now (slice_index_or (P.rows rows.now) place d) }
{
    for cond in conds {
        if !is_within(cond.lower, cond.upper, rows.cell(place, cond.attr)) {
            return false;
        }
    }
    true
}

impl<'a> Sieve<'a> {
    /// Conditions made ready.
    pub(crate) fn new(conds: &'a [Cond]) -> Sieve<'a>
        ensures { result ≡ conds.now }
    {
        let first = if conds.is_empty() {
            Cond::default()
        } else {
            conds[0]
        };
        Sieve {
            attr: first.attr,
            span: Span::of(first.lower, first.upper),
            conds,
        }
    }

    /// Whether a cell of the first condition's attribute meets that condition.
    #[inline]
    fn takes_cell(&self, cell: i64) -> bool
        ensures { result ≡ is_within (first_of self.now).lower (first_of self.now).upper cell }
    {
        self.span.takes(cell)
    }

    /// Whether the row at a place is live and meets each condition.
    #[inline]
    pub(crate) fn takes<P: Places>(&self, rows: &P, place: usize) -> bool
        requires place { place < length (P.rows rows.now) }
        requires conds { CondsBelow 8 self.now }
        ensures { (d : Row) → result ≡ is_match self.now (P.flags rows.now) (P.rows rows.now) place d }
    {
        let cell = rows.cell(place, self.attr);
        self.takes_cell(cell)
            && rows.is_live(place)
            && (self.conds.len() <= 1 || meets_at(rows, place, self.conds))
    }
}
