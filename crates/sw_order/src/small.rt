//! Items of lists by their places.

/// The item at a place, or another where there is none.
#[inline]
pub(crate) fn at<T: Copy>(items: &[T], place: usize, other: T) -> T {
    match items.get(place) {
        Some(item) => *item,
        None => other,
    }
}

/// Puts an item at a place, if there is one.
#[inline]
pub(crate) fn put<T: Copy>(items: &mut Vec<T>, place: usize, item: T) {
    if let Some(old) = items.get_mut(place) {
        *old = item;
    }
}

/// Items of a list that stand one after another.
#[derive(Clone, Copy)]
pub(crate) struct Part {
    pub(crate) from: usize,
    pub(crate) to: usize,
}

/// No items.
pub(crate) const NOTHING: Part = Part { from: 0, to: 0 };

/// The items of a part; none where the list has not all of them.
#[inline]
pub(crate) fn items_of<T>(items: &[T], of: Part) -> &[T] {
    match items.get(of.from..of.to) {
        Some(found) => found,
        None => &[],
    }
}

/// Two numbers that stand for a set of numbered things.
///
/// Sets that differ may have the same one: the search then takes one state for another that it has met.
#[derive(Clone, Copy, PartialEq, Eq, Hash)]
pub(crate) struct Mark {
    one: u64,
    other: u64,
}

/// The mark of the empty set.
pub(crate) const UNMARKED: Mark = Mark { one: 0, other: 0 };

/// A number whose bits depend on all those of another.
#[inline]
fn mixed(number: u64) -> u64 {
    let mut bits = number.wrapping_add(0x9E37_79B9_7F4A_7C15);
    bits = (bits ^ (bits >> 30)).wrapping_mul(0xBF58_476D_1CE4_E5B9);
    bits = (bits ^ (bits >> 27)).wrapping_mul(0x94D0_49BB_1331_11EB);
    bits ^ (bits >> 31)
}

impl Mark {
    /// The mark of the set with a thing put in, or taken out where it was in.
    #[inline]
    pub(crate) fn with(self, kind: u64, thing: u64) -> Mark {
        let first = mixed(thing.wrapping_mul(8).wrapping_add(kind));
        Mark {
            one: self.one ^ first,
            other: self.other ^ mixed(first ^ 0x6A09_E667_F3BC_C909),
        }
    }
}
