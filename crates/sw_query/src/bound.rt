//! Places between cells, where ranges begin and end.

ghost use Rattle.std.specs.Prelude.{◌≡◌};
ghost use Rattle.sw_query.specs.Bounds.{bound_below, greater, is_left, is_within, lesser, same_bound};

/// A place between cells: `Before(v)` has `x < v` on its left, `After(v)` has `x <= v` there.
///
/// Bounds are ordered by value, and at one value `Before` stands below `After`.
#[derive(Clone, Copy, Debug, PartialEq, Eq)]
pub enum Bound {
    Before(i64),
    After(i64),
}

impl Bound {
    /// Whether a cell lies left of the bound.
    #[inline]
    pub fn is_left(self, cell: i64) -> bool
        ensures { result ≡ is_left self cell }
    {
        match self {
            Bound::Before(value) => cell < value,
            Bound::After(value) => cell <= value,
        }
    }

    /// Whether another bound is this one.
    pub fn is_same(self, other: Bound) -> bool
        ensures { result ≡ same_bound self other }
    {
        match (self, other) {
            (Bound::Before(low), Bound::Before(high)) => low == high,
            (Bound::After(low), Bound::After(high)) => low == high,
            _ => false,
        }
    }

    /// Whether this bound stands below another.
    pub fn is_below(self, other: Bound) -> bool
        ensures { result ≡ bound_below self other }
    {
        match self {
            Bound::Before(low) => match other {
                Bound::Before(high) => low < high,
                Bound::After(high) => low <= high,
            },
            Bound::After(low) => match other {
                Bound::Before(high) => low < high,
                Bound::After(high) => low < high,
            },
        }
    }
}

/// The greater of two lower bounds, where no bound is no limit.
pub fn greater(one: Option<Bound>, other: Option<Bound>) -> Option<Bound>
    ensures { result ≡ greater one other }
{
    let Some(x) = one else {
        return other;
    };
    let Some(y) = other else {
        return one;
    };
    if x.is_below(y) { other } else { one }
}

/// The lesser of two upper bounds, where no bound is no limit.
pub fn lesser(one: Option<Bound>, other: Option<Bound>) -> Option<Bound>
    ensures { result ≡ lesser one other }
{
    let Some(x) = one else {
        return other;
    };
    let Some(y) = other else {
        return one;
    };
    if x.is_below(y) { one } else { other }
}

/// Whether a cell is not left of `lower` and is left of `upper`, where they are there.
pub fn is_within(lower: Option<Bound>, upper: Option<Bound>, cell: i64) -> bool
    ensures { result ≡ is_within lower upper cell }
{
    let above = match lower {
        Some(bound) => !bound.is_left(cell),
        None => true,
    };
    let below = match upper {
        Some(bound) => bound.is_left(cell),
        None => true,
    };
    above && below
}
