//! What lies under the lock: how far the book is written, and the copies, once there is a viewer.

ghost use Rattle.std.specs.Prelude.{◌≡◌, ◌<◌, ◌+◌, IfErr, IfOk, MatchBool, OnErr, OnOk};
ghost use mathlib.Core.List.{IsPrefix};
ghost use Rattle.sw_versions.specs.Known.{opened_over, wrote};
ghost use Rattle.sw_versions.specs.Lists.{IsLonger, TakesNext};
ghost use Rattle.sw_versions.specs.Pending.{AreOldOrAll, CameOf, HasBookedOr, HasShownOr, TellsCame, all_of};
ghost use Rattle.sw_versions.specs.Refused.{IsAhead, RefusesViewer};
ghost use Rattle.sw_versions.specs.Rules.{updates_in};
ghost use Rattle.sw_versions.specs.declared.viewer.TheConstants.{MOST_VIEWERS};

use crate::book::{Book, Front, Naming};
use crate::came::Came;
use crate::copies::Copies;
use crate::draft::Draft;
use crate::viewer::{MOST_VIEWERS, Viewer};
use std::alloc::{AllocError, Global};
use std::marker::Model;
use std::sync::Wait;
use sw_rows::Refusal;
use sw_table::Update;

/// The updates that stand in the book, and those of them that are published. Without a viewer there are no copies of the rows,
/// and what is published is a number.
///
/// It is ended by `close` alone: where it is dropped before, the copies stay where they are.
pub struct Shelf<J: Naming> {
    alloc: Global,
    booked: Front<J>,
    copies: Option<Copies<J>>,
    missed: u64,
}

// By hand: the drop of a derived one is written out at each way out of a function.
impl<J: Naming> Drop for Shelf<J> {
    fn drop(self) {
        let Self {
            alloc: _,
            booked: _booked,
            copies: _copies,
            missed: _,
        } = self;
    }
}

impl<J: Naming> Model for Shelf<J> {
    ghost use Rattle.sw_versions.specs.Known.{Shelved};
    ghost use Rattle.sw_versions.specs.Pending.{IsShelved, shelved};

    ghost Value = { Shelved };

    ghost view = { λ s. shelved s.booked s.copies s.missed };

    ghost invariant = { λ s. IsShelved s.booked s.copies };
}

/// All updates that the book lacks go into it as one batch, by one exchange, which adds them all or none: whether it has all.
#[tactic(auto, using(crate::proofs::Batches::all_booked, crate::proofs::Prefixes::prefix_self))]
fn book_all<J: Naming>(booked: &mut Front<J>, book: &Book<J>, updates: &[Update]) -> bool
    requires { IsPrefix (updates_in booked.old) updates.now }
    ensures begins { IsPrefix (updates_in booked.new) updates.now }
    ensures batch { HasBookedOr updates.now booked.old booked.new }
    ensures grows { IsPrefix booked.old booked.new }
    ensures all { MatchBool result (updates_in booked.new ≡ updates.now) (booked.new ≡ booked.old) }
{
    let lacked = &updates[booked.len() as usize..];
    if lacked.is_empty() {
        return true;
    }
    let mut all = booked.again();
    if all.add(book, lacked) {
        *booked = all;
        return true;
    }
    false
}

/// The updates of a beginning of the list, which begins all.
#[tactic(auto, using(crate::proofs::Prefixes::prefix_taken))]
fn booked_of<'u, J: Naming>(booked: &Front<J>, updates: &'u [Update]) -> &'u [Update]
    requires { IsPrefix (updates_in booked.now) updates.now }
    ensures { result.now ≡ updates_in booked.now }
{
    &updates[..booked.len() as usize]
}

/// The next update of the book goes to the writer: whether it did.
fn hand_next<J: Naming>(booked: &Front<J>, copies: &mut Copies<J>, updates: &[Update]) -> bool
    requires begins { IsPrefix (updates_in booked.now) updates.now }
    requires all { IsPrefix (all_of copies.old) (updates_in booked.now) }
    ensures all { IsPrefix (all_of copies.new) (updates_in booked.now) }
    ensures published { copies.new.published ≡ copies.old.published }
    ensures viewers { copies.new.viewers ≡ copies.old.viewers }
{
    let next = copies.len();
    next < booked.len() && copies.hand(updates[next as usize])
}

/// All updates of the book that the writer lacks go to it, as far as there is memory.
fn hand_all<J: Naming>(booked: &Front<J>, copies: &mut Copies<J>, updates: &[Update])
    requires begins { IsPrefix (updates_in booked.now) updates.now }
    requires all { IsPrefix (all_of copies.old) (updates_in booked.now) }
    ensures all { IsPrefix (all_of copies.new) (updates_in booked.now) }
    ensures published { copies.new.published ≡ copies.old.published }
    ensures viewers { copies.new.viewers ≡ copies.old.viewers }
{
    for _ in copies.len()..=booked.len() {
        if !hand_next(booked, copies, updates) {
            break;
        }
    }
}

/// Publishes what stands in the book, where the writer has all updates and no viewer still reads the copy from before the last
/// publishing. What came of it.
#[tactic(auto, using(crate::proofs::Prefixes::prefix_whole, crate::proofs::Prefixes::prefix_self))]
fn publish_all<J: Naming, R: Wait>(
    rt: &R,
    booked: &Front<J>,
    copies: &mut Copies<J>,
    updates: &[Update],
) -> Came
    requires begins { IsPrefix (updates_in booked.now) updates.now }
    requires all { IsPrefix (all_of copies.old) (updates_in booked.now) }
    requires shown { IsPrefix copies.old.published booked.now }
    ensures all { IsPrefix (all_of copies.new) (updates_in booked.now) }
    ensures shown { IsPrefix copies.new.published booked.now }
    ensures published { AreOldOrAll updates.now booked.now copies.old.published copies.new.published }
    ensures grows { IsPrefix copies.old.published copies.new.published }
    ensures viewers { copies.new.viewers ≡ copies.old.viewers }
    ensures came { CameOf result booked.now updates.now copies.old copies.new }
{
    let many = updates.len() as u64;
    if copies.len() < many {
        return Came::Missed;
    }
    if copies.is_read() {
        return Came::PutOff;
    }
    if copies.publish(rt, booked) {
        Came::Shown
    } else {
        Came::Missed
    }
}

impl<J: Naming> Shelf<J> {
    /// A shelf with no copies. What is written to the book is published.
    pub fn new(alloc: Global, booked: Front<J>) -> Shelf<J>
        ensures { result ≡ record { booked = booked; published = booked; viewers = 0; missed = 0 } }
    {
        Shelf {
            alloc,
            booked,
            copies: None,
            missed: 0,
        }
    }

    /// The list that is published: who is given it has a receipt. It takes no memory.
    pub fn published(&self) -> Front<J>
        ensures { result ≡ self.now.published }
    {
        match &self.copies {
            Some(copies) => copies.published(),
            None => self.booked.again(),
        }
    }

    /// All updates of the history that the book lacks go into it as one batch, or none of them; and all that are not published yet
    /// are published at once, or none of them, which is told. Where a viewer still reads the copy from before the last publishing it
    /// leaves them for a later call.
    ///
    /// Refused memory leaves them for a later call too, and is counted. The caller's condition: what stands in the book begins the updates, which are
    /// those after the opening rows.
    #[tactic(auto, using(crate::proofs::Prefixes::prefix_trans, crate::proofs::Prefixes::prefix_self, crate::proofs::Batches::booked_updates))]
    pub fn catch_up<R: Wait>(&mut self, rt: &R, book: &Book<J>, updates: &[Update]) -> Came
        requires { IsPrefix (updates_in self.old.booked) updates.now }
        ensures booked { IsPrefix (updates_in self.new.booked) updates.now }
        ensures batch { HasBookedOr updates.now self.old.booked self.new.booked }
        ensures published { HasShownOr updates.now self.old self.new }
        ensures grows { IsPrefix self.old.published self.new.published }
        ensures viewers { self.new.viewers ≡ self.old.viewers }
        ensures came { TellsCame result updates.now self.old self.new }
    {
        let Shelf {
            booked,
            copies,
            missed,
            ..
        } = self;
        let whole = book_all(booked, book, updates);
        let came = match copies {
            Some(copies) => {
                hand_all(booked, copies, updates);
                publish_all(rt, booked, copies, updates)
            }
            None if whole => Came::Shown,
            None => Came::Missed,
        };
        if came == Came::Missed {
            *missed = missed.saturating_add(1);
        }
        came
    }

    /// Two copies of the rows that are published.
    fn begin(&self, draft: Draft<J>, updates: &[Update]) -> Result<Copies<J>, AllocError>
        requires begins { IsPrefix (updates_in self.now.booked) updates.now }
        ensures { IfOk result (λ c. c ≡ wrote self.now.booked) }
    {
        let booked = booked_of(&self.booked, updates);
        let (first, second) = draft.after(&self.booked, booked)?;
        Copies::new(self.alloc, first, second, &self.booked)
    }

    /// A draft that lacks more updates of the book than so many takes the next so many of them, for `make`: whether it does. So under
    /// the lock no more are made of it than those. The one error is that there is no memory for them, and then nothing has changed. The
    /// caller's condition: what stands in the book begins the updates after the opening rows.
    pub fn hand_part(
        &self,
        draft: &mut Draft<J>,
        updates: &[Update],
        most: usize,
    ) -> Result<bool, AllocError>
        requires begins { IsPrefix (updates_in self.now.booked) updates.now }
        ensures takes { IfOk result (TakesNext most (updates_in self.now.booked) draft.old draft.new) }
        ensures kept { OnErr result (draft.new ≡ draft.old) }
    {
        let booked = booked_of(&self.booked, updates);
        draft.take_next(&self.booked, booked, most)
    }

    /// A viewer, which has learnt what is published. The first one has the copies made of a draft.
    ///
    /// Refused `NoMemory` where there is no draft or no memory for them, and `TooMany` of limit 16 where that many viewers were ever
    /// opened, or no place for a reader was got; then nothing has changed. The caller's condition: what stands in the book begins the
    /// updates after the opening rows.
    pub fn viewer(
        &mut self,
        draft: Option<Draft<J>>,
        updates: &[Update],
    ) -> Result<Viewer<J>, Refusal>
        requires begins { IsPrefix (updates_in self.old.booked) updates.now }
        ensures few { OnOk result (self.old.viewers < MOST_VIEWERS) }
        ensures opened { IfOk result (λ v. v ≡ opened_over self.old.published) }
        ensures counted { IfOk result (λ _. self.new ≡ record self.old { viewers = self.old.viewers + 1 }) }
        ensures refused { IfErr result (λ e. (self.new ≡ self.old) × RefusesViewer self.old.viewers e) }
    {
        if self.copies.is_none() {
            let Some(draft) = draft else {
                return Err(Refusal::NoMemory);
            };
            match self.begin(draft, updates) {
                Ok(copies) => self.copies = Some(copies),
                Err(_) => return Err(Refusal::NoMemory),
            }
        }
        self.open_viewer()
    }

    /// One more reader of the copies.
    fn open_viewer(&mut self) -> Result<Viewer<J>, Refusal>
        ensures few { OnOk result (self.old.viewers < MOST_VIEWERS) }
        ensures opened { IfOk result (λ v. v ≡ opened_over self.old.published) }
        ensures counted { IfOk result (λ _. self.new ≡ record self.old { viewers = self.old.viewers + 1 }) }
        ensures refused { IfErr result (λ e. (self.new ≡ self.old) × RefusesViewer self.old.viewers e) }
    {
        let alloc = self.alloc;
        let opened = match &mut self.copies {
            Some(copies) => copies.viewer(alloc),
            None => None,
        };
        opened.ok_or(Refusal::TooMany {
            limit: MOST_VIEWERS,
        })
    }

    /// A viewer learns what is published, if that begins with all that it has seen, and who meets it is given the receipt.
    ///
    /// Refused `Ahead` where the viewer has seen more than is published, both counted with the opening rows; then nothing has
    /// changed.
    pub fn meet(&self, book: &Book<J>, viewer: &mut Viewer<J>) -> Result<Front<J>, Refusal>
        ensures receipt { IfOk result (λ r. r ≡ self.now.published) }
        ensures met { IfOk result (λ r. IsPrefix viewer.old.seen r × IsLonger viewer.old.told r viewer.new.told) }
        ensures seen { viewer.new.seen ≡ viewer.old.seen }
        ensures kept { OnErr result (viewer.new ≡ viewer.old) }
        ensures refused { IfErr result (IsAhead J.opening (updates_in viewer.old.seen) (updates_in self.now.published)) }
    {
        let published = self.published();
        if viewer.meet(&published) {
            return Ok(published);
        }
        Err(Refusal::Ahead {
            seen: book.count(viewer.seen()),
            told: book.count(&published),
        })
    }

    /// Waits for the readers, and ends the writer.
    pub fn close<R: Wait>(self, rt: &R) {
        let Shelf {
            alloc: _,
            booked: _booked,
            copies,
            missed: _,
        } = self;
        if let Some(copies) = copies {
            copies.end(rt);
        }
    }
}
