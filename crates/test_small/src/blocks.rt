//! The partition by blocks beside the plain loop.

ghost use Rattle.std.specs.Prelude.{◌≡◌, IfOk, length, vec_len};

use std::alloc::{AllocError, Global};
use sw_kernel::{split, split_twins};
use sw_rows::Bound;

/// The partition by two cursors that meet, one exchange at a time.
fn plain_split(head: &mut [i64], tail: &mut [i64], bound: Bound) -> usize
    requires { length head.old ≡ length tail.old }
{
    let mut i = 0;
    let mut j = head.len();
    'cursors: while i < j {
        if bound.is_left(head[i]) {
            i += 1;
        } else if !bound.is_left(head[j - 1]) {
            j -= 1;
        } else {
            j -= 1;
            head.swap(i, j);
            tail.swap(i, j);
            i += 1;
        }
    }
    i
}

/// How the heads of a test are made.
#[derive(Clone, Copy, Debug)]
enum Heads {
    /// Any values.
    Random,
    /// Few different values, so that many heads are equal.
    Few(u64),
    /// Rising with the place.
    Sorted,
    /// Falling with the place.
    Reversed,
    /// Left and right by turns.
    Turns,
    /// The least and greatest values there are, and 0.
    Extreme,
}

const KINDS: &[Heads] = &[
    Heads::Random,
    Heads::Few(3),
    Heads::Few(20),
    Heads::Sorted,
    Heads::Reversed,
    Heads::Turns,
    Heads::Extreme,
];

/// Sizes past the small ones, each of which is tried.
const LARGE: &[u32] = &[1000, 4096, 10007, 100000];

/// The next of a row of numbers that look random.
fn next_random(seed: u64) -> u64 {
    seed.wrapping_mul(6364136223846793005)
        .wrapping_add(1442695040888963407)
}

/// The head at a place.
fn head_at(heads: Heads, place: u32, size: u32, random: u64) -> i64 {
    let wide = (random >> 2) as i64 - 2305843009213693952;
    match heads {
        Heads::Random => wide,
        Heads::Few(number) => (random >> 33).checked_rem(number).unwrap_or(0) as i64,
        Heads::Sorted => place as i64,
        Heads::Reversed => size.saturating_sub(place) as i64,
        Heads::Turns => (place % 2) as i64,
        Heads::Extreme => match (random >> 33) % 3 {
            0 => i64::MIN,
            1 => i64::MAX,
            _ => 0,
        },
    }
}

/// Head and tail of a test, the tail holding places.
fn columns(alloc: Global, heads: Heads, size: u32) -> Result<(Vec<i64>, Vec<i64>), AllocError>
    ensures { IfOk result (λ columns. vec_len columns.0 ≡ vec_len columns.1) }
{
    let mut head = Vec::new(alloc);
    let mut tail = Vec::new(alloc);
    let mut random = size as u64;
    for place in 0..size {
        random = next_random(random);
        head.push(head_at(heads, place, size, random))?;
        tail.push(place as i64)?;
    }
    Ok((head, tail))
}

/// Parts copies of the columns by blocks and by the plain loop, and says whether every byte agrees.
fn agrees(columns: &(Vec<i64>, Vec<i64>), bound: Bound) -> Result<bool, AllocError>
    requires { vec_len columns.now.0 ≡ vec_len columns.now.1 }
{
    let (head, tail) = columns;
    let (mut head, mut tail) = (head.clone()?, tail.clone()?);
    let (mut plain_head, mut plain_tail) = (head.clone()?, tail.clone()?);
    let left = split(&mut head, &mut tail, bound);
    let plain_left = plain_split(&mut plain_head, &mut plain_tail, bound);
    Ok(left == plain_left && head == plain_head && tail == plain_tail)
}

/// Parts the columns, together with a copy whose tail has the heads, and alone, and says whether every byte agrees.
fn twins_agree(columns: &(Vec<i64>, Vec<i64>), bound: Bound) -> Result<bool, AllocError>
    requires { vec_len columns.now.0 ≡ vec_len columns.now.1 }
{
    let (head, tail) = columns;
    let (mut head, mut tail) = (head.clone()?, tail.clone()?);
    let (mut one_head, mut one_tail) = (head.clone()?, tail.clone()?);
    let (mut twin_head, mut twin_tail) = (head.clone()?, head.clone()?);
    let left = split(&mut head, &mut tail, bound);
    let both = split_twins(
        &mut one_head,
        &mut one_tail,
        &mut twin_head,
        &mut twin_tail,
        bound,
    );
    let one = one_head == head && one_tail == tail;
    Ok(left == both && one && twin_head == head && twin_tail == head)
}

/// Bounds that part such heads in different places.
fn bounds(heads: Heads, size: u32) -> [i64; 3] {
    match heads {
        Heads::Random => [0, -2000000000000000000, 1000000000000000000],
        Heads::Few(_) => [1, 0, 7],
        Heads::Sorted | Heads::Reversed => [(size / 2) as i64, (size / 10) as i64, size as i64],
        Heads::Turns => [0, 1, 2],
        Heads::Extreme => [i64::MIN, 0, i64::MAX],
    }
}

/// The same at every bound.
fn all_agree(alloc: Global, heads: Heads, size: u32) -> Result<bool, AllocError> {
    let columns = columns(alloc, heads, size)?;
    for value in bounds(heads, size) {
        let before = agrees(&columns, Bound::Before(value))?;
        let after = agrees(&columns, Bound::After(value))?;
        // (two together at every fifth size, which leaves each rest of a block)
        let twins = size % 5 != 0 || twins_agree(&columns, Bound::After(value))?;
        if !(before && after && twins) {
            return Ok(false);
        }
    }
    Ok(true)
}

/// The same at every small size.
fn small_agree(alloc: Global, heads: Heads) -> Result<bool, AllocError> {
    for size in 0..600u32 {
        if !all_agree(alloc, heads, size)? {
            return Ok(false);
        }
    }
    Ok(true)
}

/// The same at the large sizes.
fn large_agree(alloc: Global, heads: Heads) -> Result<bool, AllocError> {
    for size in LARGE {
        if !all_agree(alloc, heads, *size)? {
            return Ok(false);
        }
    }
    Ok(true)
}

#[test]
fn blocks_give_the_order_of_the_plain_loop(rt: HostRuntime) -> Result<(), AllocError> {
    for heads in KINDS {
        let agree = small_agree(rt.alloc(), *heads)? && large_agree(rt.alloc(), *heads)?;
        assert!(rt; agree, "{heads:?}");
    }
    Ok(())
}
