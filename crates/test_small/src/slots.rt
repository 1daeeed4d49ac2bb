//! Keys put in order by slots, and when that is done.

use std::alloc::{AllocError, Global};
use sw_slots::sort_dense;

/// The keys 3 to 1002, each at the place of its number less 3, in an order that goes up by 7 and round.
fn dense(alloc: Global) -> Result<Vec<(u64, usize)>, AllocError> {
    let mut found = Vec::new(alloc);
    for i in 0..1000usize {
        let place = i * 7 % 1000;
        found.push((place as u64 + 3, place))?;
    }
    Ok(found)
}

/// Whether the keys are 3 to 1002 in order, each with its place.
fn is_in_order(found: &[(u64, usize)]) -> bool {
    for i in 0..found.len() {
        if found[i].0 != i as u64 + 3 || found[i].1 != i {
            return false;
        }
    }
    found.len() == 1000
}

#[test]
fn dense_keys_go_into_slots(rt: HostRuntime) -> Result<(), AllocError> {
    let mut found = dense(rt.alloc())?;
    assert!(rt; !is_in_order(&found));
    assert!(rt; sort_dense(rt.alloc(), &mut found));
    assert!(rt; is_in_order(&found));
    Ok(())
}

/// Keys with their places, and whether they are put in order: far apart, one twice, a place past all, none, and one alone.
const OTHERS: &[(&[(u64, usize)], bool)] = &[
    (&[(900, 1), (5, 0)], false),
    (&[(6, 1), (5, 0), (6, 2)], false),
    (&[(6, 4_294_967_295), (5, 0)], false),
    (&[], false),
    (&[(18_446_744_073_709_551_615, 8)], true),
];

#[test]
fn other_keys_stay(rt: HostRuntime) -> Result<(), AllocError> {
    for (keys, are_sorted) in OTHERS {
        let mut found = Vec::from_slice(rt.alloc(), *keys)?;
        assert!(rt; sort_dense(rt.alloc(), &mut found) == *are_sorted);
    }
    Ok(())
}
