//! Places of rows by their cells.

ghost use Rattle.std.specs.Prelude.{◌≡◌, map, not, length, filter, IfOk, IfSome};
ghost use Rattle.sw_query.specs.Bounds.{is_above, is_below, is_within};
ghost use Rattle.sw_query.specs.Scan.{column};
ghost use Rattle.sw_spine.specs.Indexes.{IsIndexOf, PlacesOf, placed};

use std::alloc::{AllocError, Global};
use std::marker::Model;
use sw_rows::{Bound, Cond, PackedRows};

/// The cells of an attribute of some rows, each with its row's place, by rising cells.
#[derive(Drop)]
pub(crate) struct Index {
    pairs: Vec<(i64, usize)>,
}

impl Model for Index {
    ghost use Rattle.std.specs.Prelude.{List, ℤ, ℕ};
    ghost use Rattle.sw_spine.specs.Indexes.{CellsRise};

    ghost Value = { List (ℤ × ℕ) };

    ghost view = { λ s. s.pairs.items };

    ghost invariant = { λ s. CellsRise s.pairs.items };
}

/// Whether a cell is left of a lower bound, if there is one.
fn is_under(lower: Option<Bound>, cell: i64) -> bool
    ensures { result ≡ not (is_above lower cell) }
{
    match lower {
        Some(bound) => bound.is_left(cell),
        None => false,
    }
}

/// Whether a cell is left of an upper bound, if there is one.
fn is_below(upper: Option<Bound>, cell: i64) -> bool
    ensures { result ≡ is_below upper cell }
{
    match upper {
        Some(bound) => bound.is_left(cell),
        None => true,
    }
}

/// Each row's cell of an attribute with its place, in the order of the rows.
fn pairs_of(alloc: Global, rows: &PackedRows, attr: usize) -> Result<Vec<(i64, usize)>, AllocError>
    ensures { IfOk result (λ pairs. pairs.items ≡ placed 0 (column attr rows.now.items)) }
{
    let mut pairs = Vec::with_capacity(alloc, rows.len())?;
    for place in 0..rows.len() {
        pairs.push((rows.cell(place, attr), place))?;
    }
    Ok(pairs)
}

/// The places of some pairs, in the order of the pairs.
fn places_of(alloc: Global, pairs: &[(i64, usize)]) -> Result<Vec<usize>, AllocError>
    ensures { IfOk result (λ places. places.items ≡ map (λ p. p.1) pairs.now) }
{
    let mut places = Vec::with_capacity(alloc, pairs.len())?;
    for pair in pairs {
        places.push(pair.1)?;
    }
    Ok(places)
}

impl Index {
    /// The index of an attribute of rows. The one error is that there is no memory for it.
    pub(crate) fn new(alloc: Global, rows: &PackedRows, attr: usize) -> Result<Index, AllocError>
        ensures { IfOk result (λ pairs. IsIndexOf (column attr rows.now.items) pairs) }
    {
        let mut pairs = pairs_of(alloc, rows, attr)?;
        pairs.sort_unstable_by_key(|pair| pair.0);
        Ok(Index { pairs })
    }

    /// How many rows it was made from.
    pub(crate) fn len(&self) -> usize
        ensures { result ≡ length self.now }
    {
        self.pairs.len()
    }

    /// The pairs whose cells are within two bounds.
    fn between(&self, lower: Option<Bound>, upper: Option<Bound>) -> &[(i64, usize)]
        ensures { result.now ≡ filter (λ p. is_within lower upper p.0) self.now }
    {
        let start = self.pairs.partition_point(|pair| is_under(lower, pair.0));
        let end = self.pairs.partition_point(|pair| is_below(upper, pair.0));
        &self.pairs[start..end.max(start)]
    }

    /// The places of the rows whose cells meet a condition, rising. None where they are more than so many, or where there
    /// is no memory for them.
    pub(crate) fn places(&self, alloc: Global, cond: Cond, most: usize) -> Option<Vec<usize>>
        ensures { IfSome result (λ found. PlacesOf self.now cond.lower cond.upper found.items) }
    {
        let between = self.between(cond.lower, cond.upper);
        if between.len() > most {
            return None;
        }
        let Ok(mut places) = places_of(alloc, between) else {
            return None;
        };
        places.sort_unstable();
        Some(places)
    }
}
