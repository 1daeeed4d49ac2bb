//! Tokens at several types, and two threads whose counts they tie.

ghost use Rattle.std.specs.Prelude.{◌≡◌, ◌≢◌, [], ◌∷◌, false};

use crate::hall::count_both;
use std::marker::Brand;
use std::mem::size_of;
use std::snapshot::Snapshot;
use std::test::Fail;
use std::thread::Threads;
use sw_tie::{Book, Share};

/// Two shares of one book never have one number: once the first is given back, the second still is not.
fn are_apart<T>(book: &mut Book<T>, first: Share<T>, second: &mut Share<T>)
    requires { (first.name ≡ book.old.name) × (second.old.name ≡ book.old.name) }
    ensures name { book.new.name ≡ book.old.name }
    ensures apart { first.number ≢ second.old.number }
    ensures same { second.new ≡ second.old }
{
    book.give(first);
    book.agree(second);
}

/// At any type, a share that was set shows what it was set to, and so does its row; the other row stays.
fn follow<T>(before: &T, after: &T) -> (Book<T>, Share<T>, Share<T>)
    ensures rows { result.0.rows ≡ (after.now, false) ∷ (before.now, false) ∷ [] }
    ensures set { result.1.value ≡ after.now }
    ensures kept { result.2.value ≡ before.now }
    ensures names { (result.1.name ≡ result.0.name) × (result.2.name ≡ result.0.name) }
{
    let mut book = Book::new();
    let mut first = book.open(Snapshot::of(before));
    let second = book.open(Snapshot::of(before));
    book.set(&mut first, Snapshot::of(after));
    (book, first, second)
}

/// Each call once, at a type of its own.
fn give_both<T>(before: &T, after: &T) {
    let (mut book, first, mut second) = follow(before, after);
    book.agree(&mut second);
    are_apart(&mut book, first, &mut second);
    book.give(second);
}

/// No token takes a byte, whatever its type.
fn take_no_bytes<T>() {
    prove!(size_of::<Book<T>>() == 0);
    prove!(size_of::<Share<T>>() == 0);
}

#[test]
fn tokens_of_any_type_are_given_back(rt: HostRuntime) -> Result<(), Fail> {
    let alloc = rt.alloc();
    give_both(&1u64, &2);
    give_both(&"before", &"after");
    give_both(&Some(3u8), &None);
    give_both(&vec![in alloc; 1u64, 2]?, &Vec::new(alloc));
    take_no_bytes::<u64>();
    take_no_bytes::<Vec<u64>>();
    Ok(())
}

#[test]
fn two_threads_count_every_visit(rt: HostRuntime) {
    let counts = count_both::<Brand, Brand, _>(&rt, Book::new(), Book::new(), 1000, 600);
    assert_eq!(rt; counts, (1000, 600));
}
