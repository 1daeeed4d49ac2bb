//! Areas of rows, by their shapes.

ghost use Rattle.std.specs.Prelude.{◌≡◌, ◌<◌, ◌^◌, [], All, IfOk, IfSome, vec_len};
ghost use Rattle.std.specs.List.{list_all};
ghost use Rattle.sw_table.specs.declared.row.Row.{Row};
ghost use Rattle.sw_map.specs.Held.{blank};
ghost use Rattle.sw_set.specs.Needs.{edge};
ghost use Rattle.sw_set.specs.Shelf.{Rises, key_of, lies_within};
ghost use Rattle.test_areas.specs.Opening.{may_open, IsOpenedOr, IsPushedOr, TakesOneOf};

use std::alloc::Global;
use sw_map::CrackerMap;
use sw_rows::{Bound, Refusal, Row, is_within};
use sw_set::Area;

/// The attribute that is the head of an area's maps, the interval of its rows' cells there, and how many boxes it takes.
#[derive(Clone, Copy)]
pub(crate) struct Shape {
    pub attribute: u8,
    pub from: Option<i64>,
    pub below: Option<i64>,
    pub boxes: usize,
}

/// Where an interval begins or ends, as a bound.
fn edge(value: Option<i64>) -> Option<Bound>
    ensures { result ≡ edge value }
{
    match value {
        None => None,
        Some(v) => Some(Bound::Before(v)),
    }
}

/// Whether a row's cell lies in the interval.
fn lies_within(row: &Row, attribute: u8, from: Option<i64>, below: Option<i64>) -> bool
    requires { attribute < 8 }
    ensures { result ≡ lies_within attribute from below row.now }
{
    is_within(edge(from), edge(below), row.cells[usize::from(attribute)])
}

/// Whether the cells of all these rows lie in the interval.
fn lie_within(rows: &[Row], attribute: u8, from: Option<i64>, below: Option<i64>) -> bool
    requires { attribute < 8 }
    ensures { result ≡ list_all (lies_within attribute from below) rows.now }
{
    for row in rows {
        if !lies_within(row, attribute, from, below) {
            return false;
        }
    }
    true
}

/// Whether an area of this shape may have these rows.
fn may_open(shape: Shape, rows: &[Row]) -> bool
    ensures { result ≡ may_open shape.attribute shape.from shape.below rows.now }
{
    shape.attribute < 8 && lie_within(rows, shape.attribute, shape.from, shape.below)
}

/// Adds a blank box. Refused `NoMemory` alone; the boxes are as they were then, and this one is dropped.
pub(crate) fn add<M: CrackerMap>(maps: &mut Vec<M>, map: M) -> Result<(), Refusal>
    requires all { All (λ m. M.held m ≡ blank) maps.old.items }
    requires one { M.held map ≡ blank }
    ensures added { IsPushedOr result map maps.old.items maps.new.items }
    ensures blank { All (λ m. M.held m ≡ blank) maps.new.items }
{
    if maps.reserve(1).is_err() {
        return Err(Refusal::NoMemory);
    }
    maps.push_reserved(map);
    Ok(())
}

/// Takes the last box.
fn take_last<M: CrackerMap>(maps: &mut Vec<M>) -> Option<M>
    requires { All (λ m. M.held m ≡ blank) maps.old.items }
    ensures rest { All (λ m. M.held m ≡ blank) maps.new.items }
    ensures taken { IfSome result (λ m. M.held m ≡ blank) }
    ensures many { TakesOneOf result (vec_len maps.old) (vec_len maps.new) }
{
    maps.pop()
}

/// An area of these rows, supplied with as many of these boxes as it takes, from the last on. `Input` where the attribute is
/// not below 8 or a row lies outside the interval, and otherwise refused `NoMemory` alone.
pub(crate) fn open<M: CrackerMap>(
    alloc: Global,
    shape: Shape,
    rows: &[Row],
    maps: Vec<M>,
) -> Result<Area<M>, Refusal>
    requires rise { Rises key_of rows.now }
    requires fit { All (λ (r : Row). r.key < 2 ^ 63) rows.now }
    requires blank { All (λ m. M.held m ≡ blank) maps.items }
    ensures opened { IsOpenedOr result shape.attribute shape.from shape.below shape.boxes rows.now (vec_len maps) }
    ensures received { IfOk result (λ area. area.inbox ≡ []) }
{
    if !may_open(shape, rows) {
        return Err(Refusal::Input);
    }
    let mut area = Area::new(alloc, shape.attribute, shape.from, shape.below, rows)?;
    let mut maps = maps;
    for _turn in 0..shape.boxes {
        let Some(map) = take_last(&mut maps) else {
            return Ok(area);
        };
        if area.supply(map).is_err() {
            return Err(Refusal::NoMemory);
        }
    }
    Ok(area)
}
