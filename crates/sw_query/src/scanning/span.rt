//! The cells that a condition takes, by the least and the greatest of them.

ghost use Rattle.std.specs.Prelude.{◌≡◌};
ghost use Rattle.sw_query.specs.Spans.{IsGreatestBelow, IsLeastAbove, IsSpanOf, in_span};

use crate::bound::Bound;

/// The cells from a least to a greatest one; none where the least is above the greatest.
#[derive(Clone, Copy)]
pub(crate) struct Span {
    low: i64,
    high: i64,
}

/// The least cell that is not left of a lower bound, where no bound is no limit.
fn least_above(lower: Option<Bound>) -> Option<i64>
    ensures { IsLeastAbove lower result }
{
    match lower {
        Some(Bound::Before(value)) => Some(value),
        Some(Bound::After(value)) => value.checked_add(1),
        None => Some(i64::MIN),
    }
}

/// The greatest cell that is left of an upper bound, where no bound is no limit.
fn greatest_below(upper: Option<Bound>) -> Option<i64>
    ensures { IsGreatestBelow upper result }
{
    match upper {
        Some(Bound::Before(value)) => value.checked_sub(1),
        Some(Bound::After(value)) => Some(value),
        None => Some(i64::MAX),
    }
}

impl Span {
    /// The cells that are not left of `lower` and are left of `upper`, where they are there.
    pub(crate) fn of(lower: Option<Bound>, upper: Option<Bound>) -> Span
        ensures { IsSpanOf lower upper result.low result.high }
    {
        if let Some(low) = least_above(lower) {
            if let Some(high) = greatest_below(upper) {
                return Span { low, high };
            }
        }
        Span {
            low: i64::MAX,
            high: i64::MIN,
        }
    }

    /// Whether a cell is among them.
    #[inline]
    pub(crate) fn takes(self, cell: i64) -> bool
        ensures { result ≡ in_span self.low self.high cell }
    {
        (self.low <= cell) & (cell <= self.high)
    }
}
