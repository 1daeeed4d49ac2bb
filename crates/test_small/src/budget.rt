//! Leases of a budget, by one seat after the other and by four threads.

use std::test::Fail;
use std::thread;
use std::thread::Threads;
use sw_budget::{Budget, Purse};
use sw_rows::Refusal;

/// The numbers of a `Short`, if it is one: used, want, capacity.
fn short(refusal: &Refusal) -> Option<(u64, u64, u64)> {
    match refusal {
        Refusal::Short {
            used,
            want,
            capacity,
        } => Some((*used, *want, *capacity)),
        _ => None,
    }
}

/// A refused lease of 64 cells over 128 told numbers that show why it was refused.
fn is_right(refusal: &Refusal) -> bool {
    match refusal {
        Refusal::Short {
            used,
            want,
            capacity,
        } => *want == 64 && *capacity == 128 && used.saturating_add(*want) > *capacity,
        Refusal::Contended { seen, found } => seen != found,
        _ => false,
    }
}

/// What a thread saw of its calls.
#[derive(Drop)]
struct Seen {
    leases: u64,
    wrong: u64,
}

fn lease_often(purse: Purse, times: u64) -> Seen {
    let mut purse = purse;
    let mut leases = 0u64;
    let mut wrong = 0u64;
    for _ in 0..times {
        match purse.lease(64) {
            Ok(lease) => {
                leases = leases.wrapping_add(1);
                purse = lease.give_back();
            }
            Err((back, refusal)) => {
                purse = back;
                if !is_right(&refusal) {
                    wrong = wrong.wrapping_add(1);
                }
            }
        }
    }
    Seen { leases, wrong }
}

#[test]
fn a_third_lease_is_short(rt: HostRuntime) -> Result<(), Fail> {
    let (budget, mut first) = Budget::open(rt.alloc(), 128)?;
    assert!(rt; budget.used() == 0);
    let second = first.split()?;
    let third = first.split()?;
    let Ok(one) = first.lease(64) else {
        panic!(rt; "no first lease")
    };
    assert!(rt; budget.used() == 64);
    let Ok(other) = second.lease(64) else {
        panic!(rt; "no second lease")
    };
    assert!(rt; budget.used() == 128);
    let Err((third, refusal)) = third.lease(64) else {
        panic!(rt; "a third lease")
    };
    assert!(rt; short(&refusal) == Some((128, 64, 128)));
    drop(one);
    assert!(rt; budget.used() == 64);
    let Ok(third) = third.lease(64) else {
        panic!(rt; "no lease after one was dropped")
    };
    assert!(rt; budget.used() == 128);
    let _purse = other.give_back();
    drop(third);
    assert!(rt; budget.used() == 0);
    Ok(())
}

#[test]
fn a_budget_of_no_cells_leases_none(rt: HostRuntime) -> Result<(), Fail> {
    let (budget, purse) = Budget::open(rt.alloc(), 0)?;
    let Err((purse, refusal)) = purse.lease(64) else {
        panic!(rt; "a lease of no cells")
    };
    assert!(rt; short(&refusal) == Some((0, 64, 0)));
    let Err((purse, refusal)) = purse.lease(u64::MAX) else {
        panic!(rt; "a lease of no cells")
    };
    assert!(rt; short(&refusal) == Some((0, u64::MAX, 0)));
    let Ok(_lease) = purse.lease(0) else {
        panic!(rt; "no lease of nothing")
    };
    assert!(rt; budget.used() == 0);
    Ok(())
}

#[test]
fn the_greatest_budget_is_leased_whole(rt: HostRuntime) -> Result<(), Fail> {
    let (budget, mut purse) = Budget::open(rt.alloc(), u64::MAX)?;
    let other = purse.split()?;
    let Ok(lease) = purse.lease(u64::MAX) else {
        panic!(rt; "no lease of all")
    };
    assert!(rt; budget.used() == u64::MAX);
    let Err((_other, refusal)) = other.lease(1) else {
        panic!(rt; "a lease past all")
    };
    assert!(rt; short(&refusal) == Some((u64::MAX, 1, u64::MAX)));
    drop(lease);
    assert!(rt; budget.used() == 0);
    Ok(())
}

#[test]
fn four_threads_give_all_cells_back(rt: HostRuntime) -> Result<(), Fail> {
    let (budget, mut first) = Budget::open(rt.alloc(), 128)?;
    let second = first.split()?;
    let third = first.split()?;
    let fourth = first.split()?;
    let a = thread::spawn(&rt, move || lease_often(first, 10_000))?;
    let b = thread::spawn(&rt, move || lease_often(second, 10_000))?;
    let c = thread::spawn(&rt, move || lease_often(third, 10_000))?;
    let d = lease_often(fourth, 10_000);
    let all = [a.join(&rt), b.join(&rt), c.join(&rt), d];
    let mut leases = 0u64;
    for seen in &all {
        assert!(rt; seen.wrong == 0);
        leases = leases.wrapping_add(seen.leases);
    }
    // the first exchange of all finds the word that its seat saw
    assert!(rt; leases > 0);
    assert!(rt; budget.used() == 0);
    Ok(())
}
