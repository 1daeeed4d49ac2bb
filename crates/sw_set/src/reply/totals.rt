//! The sum, the least and the greatest of what is chosen of a column.

ghost use Rattle.std.specs.Prelude.{◌≡◌, cond, length, pos};
ghost use Rattle.std.specs.Int.{int_max, int_min};
ghost use Rattle.sw_query.specs.Scan.{total, least, greatest};
ghost use Rattle.sw_set.specs.Choice.{chosen, either_or, IsSumOf};

use crate::reply::choice::Choice;
use crate::reply::window::{BLOCK, Window};
use sw_map::CrackerMap;

/// The sum of values. That it is no greater than so many cells may make it is for the proof: sums of blocks are added.
fn sum_of(values: &[i64]) -> i128
    ensures total { result ≡ total values.now }
    ensures within { IsSumOf (length values.now) result }
{
    let mut sum: i128 = 0;
    for value in values {
        sum += i128::from(*value);
    }
    sum
}

/// The sum of all values of a column, 0 for none.
fn sum_all<M: CrackerMap>(window: &Window<'_, M>) -> i128
    ensures { result ≡ total window.now }
{
    let mut block = [0; BLOCK];
    let mut sum: i128 = 0;
    let mut place = 0;
    while place < window.len() {
        let many = (window.len() - place).min(BLOCK);
        window.read(place, &mut block[..many]);
        sum += sum_of(&block[..many]);
        place += many;
    }
    sum
}

/// The sum of the chosen values, 0 for none.
pub(crate) fn sum<M: CrackerMap>(window: &mut Window<'_, M>, choice: &Choice) -> i128
    ensures { result ≡ total (chosen choice.now.bits window.old) }
{
    match &choice.bits {
        None => sum_all(window),
        Some(_) => sum_chosen(window, choice),
    }
}

/// A value, or 0 where it is not chosen.
#[inline]
fn value_if(is_chosen: bool, value: i64) -> i64
    ensures { result ≡ cond is_chosen value (pos 0) }
{
    if is_chosen { value } else { 0 }
}

/// The sum of the values that are chosen one by one. Each is read, and none is guessed about.
#[tactic(auto, using(crate::proofs::Replying::Choosing::chosen_nil))]
fn sum_chosen<M: CrackerMap>(window: &mut Window<'_, M>, choice: &Choice) -> i128
    ensures { result ≡ total (chosen choice.now.bits window.old) }
{
    let mut sum: i128 = 0;
    for place in 0..window.len() {
        let value = window.at(place);
        sum += i128::from(value_if(choice.has(place), value));
    }
    sum
}

/// The lesser of two cells, where either may lack.
pub fn lesser(first: Option<i64>, second: Option<i64>) -> Option<i64>
    ensures { result ≡ either_or int_min first second }
{
    let Some(x) = first else {
        return second;
    };
    match second {
        None => Some(x),
        Some(y) => Some(if y < x { y } else { x }),
    }
}

/// The greater of two cells, where either may lack.
pub fn greater(first: Option<i64>, second: Option<i64>) -> Option<i64>
    ensures { result ≡ either_or int_max first second }
{
    let Some(x) = first else {
        return second;
    };
    match second {
        None => Some(x),
        Some(y) => Some(if x < y { y } else { x }),
    }
}

/// The least of values, if there are any.
fn least_of(values: &[i64]) -> Option<i64>
    ensures { result ≡ least values.now }
{
    if values.len() == 0 {
        return None;
    }
    let mut found = values[0];
    for value in values {
        found = found.min(*value);
    }
    Some(found)
}

/// The least of all values of a column, if there are any.
fn min_all<M: CrackerMap>(window: &Window<'_, M>) -> Option<i64>
    ensures { result ≡ least window.now }
{
    let mut block = [0; BLOCK];
    let mut found = None;
    let mut place = 0;
    while place < window.len() {
        let many = (window.len() - place).min(BLOCK);
        window.read(place, &mut block[..many]);
        found = lesser(found, least_of(&block[..many]));
        place += many;
    }
    found
}

/// The least of the chosen values, if there are any.
pub(crate) fn min<M: CrackerMap>(window: &mut Window<'_, M>, choice: &Choice) -> Option<i64>
    ensures { result ≡ least (chosen choice.now.bits window.old) }
{
    match &choice.bits {
        None => min_all(window),
        Some(_) => min_chosen(window, choice),
    }
}

/// The least of the values that are chosen one by one, if there are any.
#[tactic(auto, using(crate::proofs::Replying::Choosing::chosen_nil, crate::proofs::Replying::Choosing::least_yes, crate::proofs::Replying::Choosing::least_no))]
fn min_chosen<M: CrackerMap>(window: &mut Window<'_, M>, choice: &Choice) -> Option<i64>
    ensures { result ≡ least (chosen choice.now.bits window.old) }
{
    let mut found: Option<i64> = None;
    for place in 0..window.len() {
        if choice.has(place) {
            found = lesser(found, Some(window.at(place)));
        }
    }
    found
}

/// The greatest of values, if there are any.
fn greatest_of(values: &[i64]) -> Option<i64>
    ensures { result ≡ greatest values.now }
{
    if values.len() == 0 {
        return None;
    }
    let mut found = values[0];
    for value in values {
        found = found.max(*value);
    }
    Some(found)
}

/// The greatest of all values of a column, if there are any.
fn max_all<M: CrackerMap>(window: &Window<'_, M>) -> Option<i64>
    ensures { result ≡ greatest window.now }
{
    let mut block = [0; BLOCK];
    let mut found = None;
    let mut place = 0;
    while place < window.len() {
        let many = (window.len() - place).min(BLOCK);
        window.read(place, &mut block[..many]);
        found = greater(found, greatest_of(&block[..many]));
        place += many;
    }
    found
}

/// The greatest of the chosen values, if there are any.
pub(crate) fn max<M: CrackerMap>(window: &mut Window<'_, M>, choice: &Choice) -> Option<i64>
    ensures { result ≡ greatest (chosen choice.now.bits window.old) }
{
    match &choice.bits {
        None => max_all(window),
        Some(_) => max_chosen(window, choice),
    }
}

/// The greatest of the values that are chosen one by one, if there are any.
#[tactic(auto, using(crate::proofs::Replying::Choosing::chosen_nil, crate::proofs::Replying::Choosing::greatest_yes, crate::proofs::Replying::Choosing::greatest_no))]
fn max_chosen<M: CrackerMap>(window: &mut Window<'_, M>, choice: &Choice) -> Option<i64>
    ensures { result ≡ greatest (chosen choice.now.bits window.old) }
{
    let mut found: Option<i64> = None;
    for place in 0..window.len() {
        if choice.has(place) {
            found = greater(found, Some(window.at(place)));
        }
    }
    found
}
