//! Tokens that tie two places together: what a thread holds in its hands, and what lies under a lock.
//!
//! When a lock is taken, a proof knows of the value behind it only what the value's type says. So a thread that wrote
//! something there, let the lock go and took it again can no longer say that what it wrote still stands. Here a
//! [`Book`] lies under the lock, beside the value, and each thread carries a [`Share`] of that book. A share and its
//! row of the book show one value, which changes only where both are at hand. So whoever holds a share knows, each time
//! the lock is taken, what its row shows, whatever other threads did meanwhile. Where the type of the locked value says
//! how the value goes with the rows of its book, that much of the value is known too.
//!
//! In a column engine, the replies that a session was given and the updates that a column's head has taken are such
//! values: each session and each head carries a share, and the books lie beside the history, under its lock.
//!
//! The tokens take no bytes and their functions do nothing at run time: none allocates, waits or refuses. Contracts
//! alone read what they show. A value goes in by std's [`Snapshot`], which remembers what a reference showed, so `T` is
//! any type, and nothing is asked of it.
//!
//! A share cannot be copied, and only [`Book::open`] makes one, so a row has one share at most. A token may be dropped: a
//! row whose share was dropped keeps its value, and is never given back.
#![tactic(auto)]

ghost use Rattle.std.specs.Prelude.{◌≡◌, ℕ, List, [], ◌∷◌, ◌++◌, Bool, true, false, Some, length, set, slice_get};
ghost use base.Fml.{ftrue};
ghost use base.Stored.{coded_list, coded×, coded_bool};
ghost use Rattle.sw_tie.specs.Tied.{book_owns, share_owns};

use std::marker::{Model, PhantomData};
use std::snapshot::Snapshot;

/// A list of rows, one for each share that was opened on it, in the order of opening.
///
/// Contracts read `rows`: each has the value that its share shows, and then whether the share was given back. They also
/// read `name`, a number that stands for this book: a share with that name is a share that this book opened.
pub struct Book<T> {
    marker: PhantomData<T>,
    pub ghost name: { ℕ },
    pub ghost rows: { List (T × Bool) } by { coded_list (coded× T.code coded_bool) },
}

impl<T> Model for Book<T> {
    ghost also_owns = { λ b. book_owns T.row.coded.code b.name b.rows };

    ghost also_shares = { λ _ _ _. ftrue };
}

/// The holder's side of one row of a book.
///
/// Contracts read `name`, that of the book that opened it, `number`, the place of its row there, counted from 0, and
/// `value`, which the row shows too.
pub struct Share<T> {
    marker: PhantomData<T>,
    pub ghost name: { ℕ },
    pub ghost number: { ℕ },
    pub ghost value: { T },
}

impl<T> Model for Share<T> {
    ghost also_owns = { λ s. share_owns T.row.coded.code s.name s.number s.value };

    ghost also_shares = { λ _ _ _. ftrue };
}

impl<T> Book<T> {
    /// A book with no rows, and so with nothing given back.
    pub fn new() -> Book<T>
        ensures { result.rows ≡ [] }
    {
        Book {
            marker: PhantomData,
        }
    }

    /// Opens a share at this value. Its number is the next one, which no share of this book had before, and the book has
    /// one more row, at its end. The other rows stay as they are.
    pub fn open(&mut self, value: Snapshot<T>) -> Share<T>
        ensures name { (self.new.name ≡ self.old.name) × (result.name ≡ self.old.name) }
        ensures share { (result.number ≡ length self.old.rows) × (result.value ≡ value.value) }
        ensures rows { self.new.rows ≡ self.old.rows ++ (value.value, false) ∷ [] }
    {
        Share::next(self, &value)
    }

    /// Sets a share that this book opened, and its row, to this value. No other row changes.
    ///
    /// It also tells how things stood: the row showed the share's value, and the share had not been given back.
    pub fn set(&mut self, share: &mut Share<T>, value: Snapshot<T>)
        requires { share.old.name ≡ self.old.name }
        ensures name { (self.new.name ≡ self.old.name) × (share.new.name ≡ share.old.name) }
        ensures number { share.new.number ≡ share.old.number }
        ensures value { share.new.value ≡ value.value }
        ensures was { slice_get self.old.rows share.old.number ≡ Some (share.old.value, false) }
        ensures rows { self.new.rows ≡ set self.old.rows share.old.number (value.value, false) }
    {
        share.shift(self, &value)
    }

    /// Tells that a share that this book opened and its row show one value, and that the share was not given back.
    ///
    /// It changes neither, though it takes both by `&mut`: what a token shows cannot be reached through a `&`.
    pub fn agree(&mut self, share: &mut Share<T>)
        requires { share.old.name ≡ self.old.name }
        ensures same { (self.new ≡ self.old) × (share.new ≡ share.old) }
        ensures value { slice_get self.old.rows share.old.number ≡ Some (share.old.value, false) }
    {
        share.shown(self)
    }

    /// Takes back a share that this book opened. Its row keeps the value and counts as given back from now on.
    ///
    /// It also tells how things stood: the row showed the share's value, and the share had not been given back. So no
    /// number is given back twice.
    pub fn give(&mut self, share: Share<T>)
        requires { share.name ≡ self.old.name }
        ensures name { self.new.name ≡ self.old.name }
        ensures value { slice_get self.old.rows share.number ≡ Some (share.value, false) }
        ensures rows { self.new.rows ≡ set self.old.rows share.number (share.value, true) }
    {
        share.back_to(self)
    }
}

// The steps that take a token apart, each proved by hand in proofs/Share. They are methods of `Share`, since only a
// token's own type may do that.
impl<T> Share<T> {
    fn next(book: &mut Book<T>, value: &Snapshot<T>) -> Share<T>
        ensures book { (book.new.name ≡ book.old.name) × (book.new.rows ≡ book.old.rows ++ (value.now.value, false) ∷ []) }
        ensures share { (result.name ≡ book.old.name) × (result.number ≡ length book.old.rows) }
        ensures value { result.value ≡ value.now.value }
    {
        let _ = value;
        Share {
            marker: PhantomData,
        }
    }

    fn shift(&mut self, book: &mut Book<T>, value: &Snapshot<T>)
        requires { self.old.name ≡ book.old.name }
        ensures was { slice_get book.old.rows self.old.number ≡ Some (self.old.value, false) }
        ensures name { (book.new.name ≡ book.old.name) × (self.new.name ≡ self.old.name) }
        ensures rows { book.new.rows ≡ set book.old.rows self.old.number (value.now.value, false) }
        ensures share { (self.new.number ≡ self.old.number) × (self.new.value ≡ value.now.value) }
    {
        let _ = value;
    }

    fn shown(&mut self, book: &mut Book<T>)
        requires { self.old.name ≡ book.old.name }
        ensures was { slice_get book.old.rows self.old.number ≡ Some (self.old.value, false) }
        ensures same { (book.new ≡ book.old) × (self.new ≡ self.old) }
    {}

    fn back_to(self, book: &mut Book<T>)
        requires { self.name ≡ book.old.name }
        ensures was { slice_get book.old.rows self.number ≡ Some (self.value, false) }
        ensures name { book.new.name ≡ book.old.name }
        ensures rows { book.new.rows ≡ set book.old.rows self.number (self.value, true) }
    {
        let Self { marker: _ } = self;
    }
}

/// The rows are lost, and shares of this book can no longer be set, compared or given back.
impl<T> Drop for Book<T> {
    fn drop(self) {
        let Self { marker: _ } = self;
    }
}

/// The row keeps its value, and is never given back.
impl<T> Drop for Share<T> {
    fn drop(self) {
        let Self { marker: _ } = self;
    }
}

unsafe impl<T> Send for Book<T> {}

unsafe impl<T> Send for Share<T> {}

// A `&` to a token gives nothing of its rows: who opens, sets, agrees or gives has the token itself.
unsafe impl<T> Sync for Book<T> {}

unsafe impl<T> Sync for Share<T> {}
