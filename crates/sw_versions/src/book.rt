//! The one list of batches of updates, of which the code keeps the number of updates alone, and its beginnings.

ghost use Rattle.std.specs.Prelude.{◌≡◌, ◌+◌, ◌<◌, ◌≤◌, ◌^◌, ◌++◌, ◌∷◌, [], length, MatchBool};
ghost use mathlib.Core.List.{IsPrefix};
ghost use Rattle.sw_versions.specs.Lists.{BeginsOr, IsLonger};
ghost use Rattle.sw_versions.specs.Rules.{head_of, updates_in};

use logbook::{Gain, Offer, Plain, Play, Rule, Seen, Start, Word};
use std::marker::{Brand, Model, PhantomData};
use sw_table::Update;

/// The rule of the book.
pub struct Law;

// An entry of the log is a batch, the list of updates that one step added. No value of its type is made: it is
// `[Update; 0]` since a clause reads an array as a list, of any length.
impl Rule<[Update; 0], u64> for Law {
    ghost use Rattle.std.specs.Prelude.{[]};
    ghost use base.Fml.{ftrue};
    ghost use Rattle.sw_versions.specs.Rules.{IsKept};

    ghost holds = { IsKept };

    ghost first = { [] };

    ghost hinted = { λ n log. Unit {0} };

    ghost shows = { λ log. [] };

    ghost keeps = { λ names log. ftrue };

    ghost moves = { λ ask before after answer. Unit {0} };
}

/// Callers trade nothing.
struct Nothing;

impl Gain<[Update; 0], u64> for Nothing {
    ghost use base.Fml.{ftrue};

    ghost after = { λ names about answer. ftrue };
}

/// A step that adds a batch.
struct Add;

impl Play<[Update; 0], u64> for Add {
    ghost use Rattle.sw_versions.specs.Rules.{Adds};

    ghost then = { Adds };
}

/// What a step asks for: the updates.
impl Plain<&[Update], [Update; 0], u64> for Add {
    ghost use Rattle.std.specs.Prelude.{None};

    ghost ask = { λ updates. updates.now };

    ghost state = { λ updates. None };
}

/// What an engine is named by: which list of updates it has, the names of the books of its sessions and of its heads, the table
/// that its history began from, and how many sessions it may have. Each call of a program picks them.
pub trait Naming {
    ghost use Rattle.std.specs.Prelude.{ℕ, List};
    ghost use Rattle.logbook.specs.Pages.{Book};
    ghost use Rattle.sw_rows.specs.Header.{Column};
    ghost use Rattle.sw_table.specs.declared.row.Row.{Row};

    ghost book: { Book };

    ghost sessions: { ℕ };

    ghost heads: { ℕ };

    ghost columns: { List Column };

    ghost opening: { List Row };

    ghost limit: { ℕ };

    ghost most: { ℕ };
}

impl Naming for Brand {
    ghost use Rattle.std.specs.Prelude.{[]};

    ghost book = { record { number = 0; log_name = 0; cells_name = 0 } };

    ghost sessions = { 0 };

    ghost heads = { 0 };

    ghost columns = { [] };

    ghost opening = { [] };

    ghost limit = { 0 };

    ghost most = { 0 };
}

/// A book with an empty list, which has no name yet.
#[derive(Drop)]
pub struct Opened {
    head: Word<[Update; 0], u64, Law>,
    seen: Seen<[Update; 0], u64, Law>,
    pub ghost empty: { seen.log ≡ [] },
    pub ghost head_is: { head ≡ head_of seen.book },
}

impl Opened {
    /// A new book. Its name is its own, and nothing else is known of it.
    pub fn new() -> Opened {
        let (seen, mut first, _second) = Seen::open(Start::alone(), 0, 0);
        Opened {
            head: Word::tracked(0, &mut first),
            seen,
        }
    }

    /// The book under its name, where so many opening rows stand before the list, and the beginning of its list that has nothing.
    pub fn named<J: Naming>(self, opening: u64) -> (Book<J>, Front<J>)
        requires book { self.seen.book ≡ J.book }
        requires opening { (opening ≡ length J.opening) × (opening ≤ 2 ^ 62) }
        ensures { result.1 ≡ [] }
    {
        let Opened { head, seen } = self;
        (
            Book {
                head,
                opening,
                of: PhantomData,
            },
            Front {
                count: 0,
                seen,
                of: PhantomData,
            },
        )
    }
}

/// The word that all threads share: how many updates the list has.
#[derive(Drop)]
pub struct Book<J: Naming> {
    head: Word<[Update; 0], u64, Law>,
    opening: u64,
    of: PhantomData<J>,
    ghost head_is: { head ≡ head_of J.book },
    ghost opening_is: { opening ≡ length J.opening },
    ghost opening_short: { opening ≤ 2 ^ 62 },
}

impl<J: Naming> Book<J> {
    /// How many updates a beginning of the list has, the opening rows counted.
    pub fn count(&self, front: &Front<J>) -> u64
        ensures { result ≡ length J.opening + length (updates_in front.now) }
    {
        self.opening + front.len()
    }
}

/// A beginning of the list: so many batches, each with all its updates. It takes no more memory than the number of the
/// updates, and is copied without a step. A receipt is one.
#[derive(Drop)]
pub struct Front<J: Naming> {
    count: u64,
    seen: Seen<[Update; 0], u64, Law>,
    of: PhantomData<J>,
}

impl<J: Naming> Model for Front<J> {
    ghost use Rattle.std.specs.Prelude.{◌≡◌, List, length};
    ghost use Rattle.sw_table.specs.declared.row.Update.{Update};
    ghost use Rattle.sw_versions.specs.Rules.{AreFilled, IsShort, updates_in};

    ghost Value = { List (List Update) };

    ghost view = { λ f. f.seen.log };

    ghost invariant = { λ f. (f.count ≡ length (updates_in f.seen.log)) × (f.seen.book ≡ J.book)
        × IsShort (updates_in f.seen.log) × AreFilled f.seen.log };
}

/// A beginning of the list of some book, which its type does not name: what a copy that readers take keeps of its list.
#[derive(Drop)]
pub(crate) struct Unnamed {
    count: u64,
    seen: Seen<[Update; 0], u64, Law>,
}

impl Model for Unnamed {
    ghost use Rattle.std.specs.Prelude.{◌≡◌, length};
    ghost use Rattle.sw_versions.specs.Lists.{Listed};
    ghost use Rattle.sw_versions.specs.Rules.{AreFilled, IsShort, updates_in};

    ghost Value = { Listed };

    ghost view = { λ u. record { book = u.seen.book; batches = u.seen.log } };

    ghost invariant = { λ u. (u.count ≡ length (updates_in u.seen.log)) × IsShort (updates_in u.seen.log) × AreFilled u.seen.log };
}

impl Unnamed {
    /// A copy.
    pub(crate) fn again(&self) -> Unnamed
        ensures { result ≡ self.now }
    {
        Unnamed {
            count: self.count,
            seen: self.seen.again(),
        }
    }

    /// The beginning under the name of its book.
    pub(crate) fn named<J: Naming>(&self) -> Front<J>
        requires { self.now.book ≡ J.book }
        ensures { result ≡ self.now.batches }
    {
        Front {
            count: self.count,
            seen: self.seen.again(),
            of: PhantomData,
        }
    }
}

impl<J: Naming> Front<J> {
    /// The same beginning, without the name.
    pub(crate) fn unnamed(&self) -> Unnamed
        ensures { result ≡ record { book = J.book; batches = self.now } }
    {
        Unnamed {
            count: self.count,
            seen: self.seen.again(),
        }
    }

    /// How many updates it has.
    pub fn len(&self) -> u64
        ensures length { result ≡ length (updates_in self.now) }
        ensures short { result ≤ 2 ^ 62 }
    {
        self.count
    }

    /// A copy.
    pub fn again(&self) -> Front<J>
        ensures { result ≡ self.now }
    {
        Front {
            count: self.count,
            seen: self.seen.again(),
            of: PhantomData,
        }
    }

    /// Whether it has no more updates than another one. Of two beginnings the shorter one begins the longer one, batch by
    /// batch.
    pub fn begins(&self, other: &Front<J>) -> bool
        ensures { BeginsOr result self.now other.now }
    {
        let mut both = self.seen.again();
        both.learn(&other.seen);
        self.count <= other.count
    }

    /// A copy of the longer one of two, which the other begins.
    pub fn longer(&self, other: &Front<J>) -> Front<J>
        ensures { IsLonger self.now other.now result }
    {
        if self.begins(other) {
            other.again()
        } else {
            self.again()
        }
    }

    /// Adds updates, as one batch, to all that was seen, by one exchange, and says whether it did. It did not where the
    /// list is longer by now, or would have more than 2 to the 62nd. The caller's condition: there is one update at least.
    pub(crate) fn add(&mut self, book: &Book<J>, updates: &[Update]) -> bool
        requires { 0 < length updates.now }
        ensures { MatchBool result (self.new ≡ self.old ++ updates.now ∷ []) (IsPrefix self.old self.new) }
    {
        let count = self.count;
        let more = updates.len() as u64;
        if more > (1 << 62) - count {
            return false;
        }
        let mut offer: Offer<[Update; 0], u64, Law, Nothing> = self
            .seen
            .plain::<Nothing, &[Update], Add>(&updates);
        let mut pen = self.seen.no_pen();
        let found = book
            .head
            .compare_exchange::<Add, Nothing>(
                count,
                count + more,
                &mut self.seen,
                &mut offer,
                &mut pen,
            );
        self.count = if found == count { count + more } else { found };
        found == count
    }
}
