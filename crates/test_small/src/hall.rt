//! Two counts under one lock, each tied to a book of its own, and two threads that count.
ghost use Rattle.std.specs.Prelude.{◌≡◌, ℕ, ◌+◌, ◌^◌, ◌<◌, [], ◌∷◌, false};

use std::marker::{Brand, Model, PhantomData};
use std::snapshot::Snapshot;
use std::sync::{Mutex, Wait};
use std::thread;
use std::thread::Threads;
use sw_tie::{Book, Share};

/// Which book it is. The call that makes the book picks its name.
pub trait Naming {
    ghost book: { ℕ };
}

impl Naming for Brand {
    ghost book = { 0 };
}

/// A count that lies under the lock, with the book whose one row shows it.
#[derive(Drop)]
pub struct Count<J: Naming> {
    count: u64,
    book: Book<u64>,
    of: PhantomData<J>,
}

impl<J: Naming> Model for Count<J> {
    ghost use Rattle.std.specs.Prelude.{◌≡◌, ℕ, [], ◌∷◌, false};

    ghost Value = { ℕ };

    ghost view = { λ c. c.count };

    ghost invariant = { λ c. (c.book.name ≡ J.book) × (c.book.rows ≡ (c.count, false) ∷ []) };
}

/// What the thread that counts carries: contracts see it as its count.
#[derive(Drop)]
pub struct Mine<J: Naming> {
    share: Share<u64>,
    of: PhantomData<J>,
}

impl<J: Naming> Model for Mine<J> {
    ghost use Rattle.std.specs.Prelude.{◌≡◌, ℕ};

    ghost Value = { ℕ };

    ghost view = { λ m. m.share.value };

    ghost invariant = { λ m. (m.share.name ≡ J.book) × (m.share.number ≡ 0) };
}

impl<J: Naming> Count<J> {
    fn open(book: Book<u64>) -> (Count<J>, Mine<J>)
        requires { (book.name ≡ J.book) × (book.rows ≡ []) }
        ensures { (result.0 ≡ 0) × (result.1 ≡ 0) }
    {
        let mut book = book;
        let count = 0;
        let share = book.open(Snapshot::of(&count));
        (
            Count {
                count,
                book,
                of: PhantomData,
            },
            Mine {
                share,
                of: PhantomData,
            },
        )
    }

    /// Counts one more.
    fn add(&mut self, mine: &mut Mine<J>)
        requires { mine.old + 1 < 2 ^ 64 }
        ensures { (self.new ≡ mine.old + 1) × (mine.new ≡ mine.old + 1) }
    {
        let Count { count, book, .. } = self;
        let Mine { share, .. } = mine;
        book.agree(share);
        *count += 1;
        book.set(share, Snapshot::of(count));
    }

    /// The count, which is still what the thread left.
    fn read(&mut self, mine: &mut Mine<J>) -> u64
        ensures { (result ≡ mine.old) × (mine.new ≡ mine.old) × (self.new ≡ self.old) }
    {
        let Count { count, book, .. } = self;
        let Mine { share, .. } = mine;
        book.agree(share);
        *count
    }

    /// The share comes back, and with it the count.
    fn close(self, mine: Mine<J>) -> u64
        ensures { result ≡ mine }
    {
        let Count {
            count,
            mut book,
            ..
        } = self;
        let Mine { share, .. } = mine;
        book.give(share);
        count
    }
}

/// What lies under the lock.
#[derive(Drop)]
pub struct Hall<J: Naming, K: Naming> {
    entries: Count<J>,
    exits: Count<K>,
}

/// Counts one entry, and looks again under a lock taken anew.
fn enter<J: Naming, K: Naming, R: Wait>(rt: &R, hall: &Mutex<Hall<J, K>>, mine: &mut Mine<J>) -> u64
    requires { mine.old + 1 < 2 ^ 64 }
    ensures { (mine.new ≡ mine.old + 1) × (result ≡ mine.new) }
{
    hall.lock(rt).entries.add(mine);
    hall.lock(rt).entries.read(mine)
}

/// Counts one exit, and looks again under a lock taken anew.
fn leave<J: Naming, K: Naming, R: Wait>(rt: &R, hall: &Mutex<Hall<J, K>>, mine: &mut Mine<K>) -> u64
    requires { mine.old + 1 < 2 ^ 64 }
    ensures { (mine.new ≡ mine.old + 1) × (result ≡ mine.new) }
{
    hall.lock(rt).exits.add(mine);
    hall.lock(rt).exits.read(mine)
}

fn enter_often<J: Naming, K: Naming, R: Wait>(
    rt: &R,
    hall: &Mutex<Hall<J, K>>,
    mine: Mine<J>,
    times: u64,
) -> Mine<J>
    requires { (mine ≡ 0) × (times < 2 ^ 32) }
    ensures { result ≡ times }
{
    let mut mine = mine;
    for _done in 0..times {
        let _ = enter(rt, hall, &mut mine);
    }
    mine
}

fn leave_often<J: Naming, K: Naming, R: Wait>(
    rt: &R,
    hall: &Mutex<Hall<J, K>>,
    mine: Mine<K>,
    times: u64,
) -> Mine<K>
    requires { (mine ≡ 0) × (times < 2 ^ 32) }
    ensures { result ≡ times }
{
    let mut mine = mine;
    for _done in 0..times {
        let _ = leave(rt, hall, &mut mine);
    }
    mine
}

/// Two threads count, and the shares come back: the counts are what each thread made.
pub fn count_both<J: Naming + Send + Sync, K: Naming + Send + Sync, R: Threads + Wait + Sync>(
    rt: &R,
    first: Book<u64>,
    second: Book<u64>,
    entries: u64,
    exits: u64,
) -> (u64, u64)
    requires names { (first.name ≡ J.book) × (second.name ≡ K.book) }
    requires empty { (first.rows ≡ []) × (second.rows ≡ []) }
    requires few { (entries < 2 ^ 32) × (exits < 2 ^ 32) }
    ensures { result ≡ (entries, exits) }
{
    let (entered, one) = Count::<J>::open(first);
    let (left, other) = Count::<K>::open(second);
    let hall = Mutex::new(Hall {
        entries: entered,
        exits: left,
    });
    let (one, other) = thread::join(
        rt,
        || enter_often(rt, &hall, one, entries),
        || leave_often(rt, &hall, other, exits),
    );
    let Hall { entries, exits } = hall.into_inner();
    (entries.close(one), exits.close(other))
}
