//! A rising list of bounds.

ghost use Rattle.std.specs.Prelude.{◌≡◌, ◌<◌, ◌≤◌, ◌+◌, ◌||◌, Some, true, false, drop, insert, length, vec_capacity, vec_len};
ghost use Rattle.sw_query.specs.Bounds.{bound_below, same_bound};
ghost use Rattle.sw_query.specs.declared.bound.Bound.{Bound};
ghost use Rattle.sw_kernel.specs.Tapes.{IsRising, is_bound};
ghost use Rattle.sw_tape.specs.Bounds.{AddsBoth, IsNearestAbove, IsNearestBelow, IsPlaceOf, IsSplit, is_among, is_first};

use sw_query::Bound;

/// How many of the bounds stand below this one.
fn count_below(bounds: &[Bound], bound: Bound) -> usize
    requires { IsRising bounds.now }
    ensures { IsPlaceOf bound result bounds.now }
{
    bounds.partition_point(|known| known.is_below(bound))
}

/// Whether the bound stands at a place of the list.
fn stands_at(bounds: &[Bound], place: usize, bound: Bound) -> bool
    ensures { result ≡ is_first bound (drop place bounds.now) }
{
    place < bounds.len() && bound.is_same(bounds[place])
}

/// Whether the bound is among these.
pub(crate) fn is_among(bounds: &[Bound], bound: Bound) -> bool
    requires { IsRising bounds.now }
    ensures { result ≡ is_among bound bounds.now }
{
    let place = count_below(bounds, bound);
    stands_at(bounds, place, bound)
}

/// Puts a bound into the list at a place.
fn put(bounds: &mut Vec<Bound>, place: usize, bound: Bound)
    requires within { place ≤ vec_len bounds.old }
    requires room { vec_len bounds.old < vec_capacity bounds.old }
    ensures items { bounds.new.items ≡ insert bounds.old.items place bound }
    ensures len { vec_len bounds.new ≡ vec_len bounds.old + 1 }
    ensures capacity { vec_capacity bounds.new ≡ vec_capacity bounds.old }
{
    if bounds.insert(place, bound).is_err() {
        unreachable!()
    }
}

/// Puts two bounds into the list at a place, the lower one first. What stands behind moves once.
fn put_both(bounds: &mut Vec<Bound>, place: usize, lower: Bound, upper: Bound)
    requires within { place ≤ vec_len bounds.old }
    requires room { vec_len bounds.old + 2 ≤ vec_capacity bounds.old }
    ensures items { bounds.new.items ≡ insert (insert bounds.old.items place upper) place lower }
    ensures len { vec_len bounds.new ≡ vec_len bounds.old + 2 }
    ensures capacity { vec_capacity bounds.new ≡ vec_capacity bounds.old }
{
    bounds.push_reserved(lower);
    bounds.push_reserved(upper);
    bounds[place..].rotate_right(2);
}

/// Puts two bounds into the list, the upper one at a place that is not below that of the lower one. What stands behind
/// both moves once.
fn put_two(bounds: &mut Vec<Bound>, low: usize, high: usize, lower: Bound, upper: Bound)
    requires within { (low ≤ high) × (high ≤ vec_len bounds.old) }
    requires room { vec_len bounds.old + 2 ≤ vec_capacity bounds.old }
    ensures items { bounds.new.items ≡ insert (insert bounds.old.items high upper) low lower }
    ensures len { vec_len bounds.new ≡ vec_len bounds.old + 2 }
    ensures capacity { vec_capacity bounds.new ≡ vec_capacity bounds.old }
{
    put_both(bounds, high, lower, upper);
    bounds[low..high + 1].rotate_right(1);
}

/// Adds a bound at its place, if it is not there.
fn add_at(bounds: &mut Vec<Bound>, place: usize, bound: Bound)
    requires room { vec_len bounds.old < vec_capacity bounds.old }
    requires rising { IsRising bounds.old.items }
    requires place { IsPlaceOf bound place bounds.old.items }
    ensures rising { IsRising bounds.new.items }
    ensures among { (b : Bound) → is_among b bounds.new.items ≡ same_bound b bound || is_among b bounds.old.items }
    ensures len { vec_len bounds.new ≤ vec_len bounds.old + 1 }
    ensures capacity { vec_capacity bounds.new ≡ vec_capacity bounds.old }
{
    if !stands_at(bounds, place, bound) {
        put(bounds, place, bound);
    }
}

/// Adds a bound, if there is one and it is not there.
fn add_some(bounds: &mut Vec<Bound>, bound: Option<Bound>)
    requires room { vec_len bounds.old < vec_capacity bounds.old }
    requires rising { IsRising bounds.old.items }
    ensures rising { IsRising bounds.new.items }
    ensures among { (b : Bound) → is_among b bounds.new.items ≡ is_bound b bound || is_among b bounds.old.items }
    ensures len { vec_len bounds.new ≤ vec_len bounds.old + 1 }
    ensures capacity { vec_capacity bounds.new ≡ vec_capacity bounds.old }
{
    if let Some(bound) = bound {
        let place = count_below(bounds, bound);
        add_at(bounds, place, bound);
    }
}

/// Adds a bound that is not there at its place, and a higher one, if that is not there.
fn add_new(bounds: &mut Vec<Bound>, low: usize, lower: Bound, upper: Bound)
    requires room { vec_len bounds.old + 2 ≤ vec_capacity bounds.old }
    requires rising { IsRising bounds.old.items }
    requires place { IsPlaceOf lower low bounds.old.items }
    requires new { is_first lower (drop low bounds.old.items) ≡ false }
    requires below { bound_below lower upper ≡ true }
    ensures rising { IsRising bounds.new.items }
    ensures among { AddsBoth (Some lower) (Some upper) bounds.old.items bounds.new.items }
{
    let high = count_below(bounds, upper);
    if stands_at(bounds, high, upper) {
        put(bounds, low, lower);
    } else {
        put_two(bounds, low, high, lower, upper);
    }
}

/// Adds a bound, and then another, if there is one. Two new ones, the first below the second, are put there together.
fn add_from(bounds: &mut Vec<Bound>, lower: Bound, upper: Option<Bound>)
    requires room { vec_len bounds.old + 2 ≤ vec_capacity bounds.old }
    requires rising { IsRising bounds.old.items }
    ensures rising { IsRising bounds.new.items }
    ensures among { AddsBoth (Some lower) upper bounds.old.items bounds.new.items }
{
    let low = count_below(bounds, lower);
    if let Some(upper) = upper
        && lower.is_below(upper)
        && !stands_at(bounds, low, lower)
    {
        add_new(bounds, low, lower, upper);
        return;
    }
    add_at(bounds, low, lower);
    add_some(bounds, upper);
}

/// Adds two bounds, each if there is one and it is not there.
pub(crate) fn add_both(bounds: &mut Vec<Bound>, lower: Option<Bound>, upper: Option<Bound>)
    requires room { vec_len bounds.old + 2 ≤ vec_capacity bounds.old }
    requires rising { IsRising bounds.old.items }
    ensures rising { IsRising bounds.new.items }
    ensures among { AddsBoth lower upper bounds.old.items bounds.new.items }
{
    match lower {
        Some(lower) => add_from(bounds, lower, upper),
        None => add_some(bounds, upper),
    }
}

/// How many of the bounds do not have the value on their left.
fn count_up_to(bounds: &[Bound], value: i64) -> usize
    requires { IsRising bounds.now }
    ensures within { result ≤ length bounds.now }
    ensures split { IsSplit value result bounds.now }
{
    bounds.partition_point(|known| !known.is_left(value))
}

/// The greatest bound that does not have the value on its left, from how many of them do not.
fn nearest_below(bounds: &[Bound], count: usize, value: i64) -> Option<Bound>
    requires rising { IsRising bounds.now }
    requires within { count ≤ length bounds.now }
    requires split { IsSplit value count bounds.now }
    ensures { IsNearestBelow (λ b. is_among b bounds.now) value result }
{
    if count == 0 {
        return None;
    }
    Some(bounds[count - 1])
}

/// The least bound that has the value on its left, from how many of them do not.
fn nearest_above(bounds: &[Bound], count: usize, value: i64) -> Option<Bound>
    requires rising { IsRising bounds.now }
    requires within { count ≤ length bounds.now }
    requires split { IsSplit value count bounds.now }
    ensures { IsNearestAbove (λ b. is_among b bounds.now) value result }
{
    if count == bounds.len() {
        return None;
    }
    Some(bounds[count])
}

/// The nearest of the bounds around a value: the greatest that does not have it on its left, and the least that has.
pub(crate) fn around(bounds: &[Bound], value: i64) -> (Option<Bound>, Option<Bound>)
    requires { IsRising bounds.now }
    ensures lower { IsNearestBelow (λ b. is_among b bounds.now) value result.0 }
    ensures upper { IsNearestAbove (λ b. is_among b bounds.now) value result.1 }
{
    let count = count_up_to(bounds, value);
    (
        nearest_below(bounds, count, value),
        nearest_above(bounds, count, value),
    )
}
