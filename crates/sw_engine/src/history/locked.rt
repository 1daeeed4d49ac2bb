//! What lies under the lock: the desk, and the shelf of what viewers read.

ghost use Rattle.std.specs.Prelude.{◌≡◌, ◌<◌, ◌≤◌, false, true, None, is_some, length, All, IfErr, IfOk, IsOkUnless, IsSome, IsSomeAnd, MatchBool, OnErr, OnOk};
ghost use mathlib.Core.List.{IsPrefix};
ghost use Rattle.sw_query.specs.declared.query.Call.TheVariants.{Select};
ghost use Rattle.sw_query.specs.declared.refusal.Refusal.TheVariants.{NoMemory};
ghost use Rattle.sw_spine.specs.Table.{opened, reply_to};
ghost use Rattle.sw_spine.specs.History.{CallsBelow, is_select, updates_after};
ghost use Rattle.sw_spine.specs.Books.{new_books, updates, with_answered, with_session, with_settled};
ghost use Rattle.sw_spine.specs.declared.history.State.TheVariants.{Answered, Void};
ghost use Rattle.sw_versions.specs.Pending.{HasShownOr, TellsCame};
ghost use Rattle.sw_versions.specs.Lists.{IsLonger, TakesNext};
ghost use Rattle.sw_versions.specs.Refused.{IsAhead, RefusesViewer};
ghost use Rattle.sw_versions.specs.Rules.{updates_in};
ghost use Rattle.sw_versions.specs.declared.came.Came.TheVariants.{Missed};
ghost use Rattle.sw_versions.specs.declared.viewer.TheConstants.{MOST_VIEWERS};
ghost use Rattle.sw_engine.specs.Own.{IsLastOwn, IsNew};
ghost use Rattle.sw_engine.specs.Sessions.{AllStandIfSome, Answers, AnswersAllIfSome, AnswersIfSome, Begins, IsRefused, Sees, Settles, StandsIfSome, Stays};
ghost use Rattle.sw_engine.specs.Desk.{AreOut, InOrder, IsBegun, IsMade, IsSameButTaken, RefusesMany, RefusesNext, TakesPart};
ghost use Rattle.sw_engine.specs.Locked.{IsCommitted, IsPublished};
ghost use Rattle.sw_engine.specs.Published.{EndWithEntries, later, new_viewer, no_versions, reply_after, TellsAll, with_viewer};

use crate::heads::latch::{AllAtRest, AtRest, LatchedHead};
use crate::heads::opening::Opening;
use crate::history::desk::Desk;
use crate::history::ticket::{SessionState, Ticket};
use std::alloc::Global;
use std::marker::Model;
use std::sync::Wait;
use sw_map::CrackerMap;
use sw_rows::{Call, PackedRows, Query, Refusal, Reply, Update};
use sw_spine::KeptQuery;
use sw_versions::{Book, Came, Draft, Front, Naming, Opened, Shelf, Viewer};

/// A publishing that there was no memory for. Only a visit that came to one makes it.
#[derive(Drop)]
pub(crate) struct Miss {
    of: Came,
    ghost missed: { of ≡ Missed },
}

impl Miss {
    /// One where that came of it.
    fn of(came: Came) -> Option<Miss>
        ensures { MatchBool (is_some result) (came ≡ Missed) (came ≡ Missed → ⊥) }
    {
        match came {
            Came::Missed => Some(Miss { of: came }),
            _ => None,
        }
    }
}

/// What a publishing came to.
#[derive(Drop)]
pub struct Published<J: Naming> {
    /// The receipt of what is published.
    pub receipt: Front<J>,
    /// Whether it has all updates of the history.
    pub whole: bool,
    /// Whether all of them are published, or why not.
    pub came: Came,
    /// That there was no memory for it.
    pub miss: Option<Miss>,
}

/// Whether a beginning of updates has all of them.
#[tactic(auto, using(sw_versions::proofs::Prefixes::prefix_whole))]
fn has_all<J: Naming>(receipt: &Front<J>, updates: &[Update]) -> bool
    requires { IsPrefix (updates_in receipt.now) updates.now }
    ensures { MatchBool result (updates_in receipt.now ≡ updates.now) (updates_in receipt.now ≡ updates.now → ⊥) }
{
    receipt.len() == updates.len() as u64
}

/// Whether a receipt has all of these updates, as what is published then has.
#[tactic(auto, using(crate::proofs::AtRest::receipt_begins))]
fn is_current<J: Naming>(receipt: &Front<J>, published: &Front<J>, updates: &[Update]) -> bool
    requires { IsPrefix (updates_in published.now) updates.now }
    ensures { result ≡ true → updates_in receipt.now ≡ updates.now }
{
    receipt.begins(published) && has_all(receipt, updates)
}

/// The desk, and the shelf of what viewers read, with the book of its updates. Until there is a viewer the shelf has no
/// copies of the rows.
pub struct LockedDesk<J: Naming> {
    desk: Desk<J>,
    shelf: Shelf<J>,
    book: Book<J>,
}

// By hand: the drop of a derived one is written out at each way out of a function.
impl<J: Naming> Drop for LockedDesk<J> {
    fn drop(self) {
        let Self {
            desk: _desk,
            shelf: _shelf,
            book: _book,
        } = self;
    }
}

impl<J: Naming> Model for LockedDesk<J> {
    ghost use Rattle.sw_table.specs.Live.{RisesFrom};
    ghost use Rattle.sw_engine.specs.Locked.{LockState};
    ghost use Rattle.sw_engine.specs.Published.{IsShelfOf};

    ghost Value = { LockState };

    ghost view = { λ l. record { desk = l.desk; shelf = l.shelf } };

    ghost invariant = { λ l. IsShelfOf J.limit J.opening l.desk.books l.shelf × RisesFrom 0 J.opening };
}

impl<J: Naming> LockedDesk<J> {
    /// A desk with no entries and no session, and a shelf with nothing published.
    pub fn new(alloc: Global, opening: &Opening<J>, desk: Desk<J>, list: Opened) -> LockedDesk<J>
        requires list { list.seen.book ≡ J.book }
        requires begun { desk.books ≡ new_books J.columns J.opening J.limit }
        ensures { result ≡ record { desk = desk; shelf = no_versions } }
    {
        // for the prover: the table is sound
        let _heads = opening.heads();
        let rows = desk.opening_rows().len() as u64;
        let (book, front) = list.named::<J>(rows);
        LockedDesk {
            desk,
            shelf: Shelf::new(alloc, front),
            book,
        }
    }

    /// The next session's ticket, with the receipt of what is published.
    pub fn enrol(&mut self) -> Result<Ticket<J>, Refusal>
        ensures new { IfOk result (λ t. (t.0 ≡ self.new.desk.books.sessions) × IsNew t) }
        ensures made { OnOk result (self.new.desk.books ≡ with_session self.old.desk.books) }
        ensures shelf { self.new.shelf ≡ self.old.shelf }
        ensures refused { IfErr result (λ e. (self.new ≡ self.old) × RefusesNext J.most self.old.desk.books e) }
    {
        let (number, share) = self.desk.enrol()?;
        Ok(Ticket::new(number, share, self.shelf.published()))
    }

    /// The tickets of the first sessions, in order.
    #[tactic(auto, using(crate::proofs::Ties::in_order_push, crate::proofs::Ties::length_push))]
    pub fn enrol_all(&mut self, alloc: Global, many: usize) -> Result<Vec<Ticket<J>>, Refusal>
        requires { self.old.desk.books.sessions ≡ 0 }
        ensures all { IfOk result (λ v. (length v.items ≡ many) × InOrder 1 v.items) }
        ensures refused { IfErr result (RefusesMany J.most many) }
    {
        let mut tickets = Vec::new(alloc);
        for _ in 0..many {
            let ticket = self.enrol()?;
            if tickets.push(ticket).is_err() {
                return Err(Refusal::NoMemory);
            }
        }
        Ok(tickets)
    }

    /// Whether as many tickets came back as sessions were made; otherwise both numbers are told. Nothing changes. The tickets
    /// are held against the books, so they are of sessions that were made, and their sessions saw no more than these.
    #[tactic(auto, using(crate::proofs::Closing::slice_back))]
    pub fn all_back(&mut self, tickets: &mut Vec<Ticket<J>>) -> Result<(), Refusal>
        ensures same { self.new ≡ self.old }
        ensures tickets { tickets.new.items ≡ tickets.old.items }
        ensures made { All (IsMade (length self.old.desk.given)) tickets.old.items }
        ensures few { length self.old.desk.given ≤ J.most }
        ensures back { OnOk result (length self.old.desk.given ≡ length tickets.old.items) }
        ensures out { IfErr result (AreOut (length self.old.desk.given) (length tickets.old.items)) }
    {
        self.desk.hold_all(tickets.as_mut_slice());
        let made = self.desk.sessions();
        let given = tickets.len() as u64;
        if made != given {
            return Err(Refusal::SharesOut { made, given });
        }
        Ok(())
    }

    /// The opening rows.
    pub fn opening_rows(&self) -> &PackedRows
        ensures { result.now.items ≡ J.opening }
    {
        self.desk.opening_rows()
    }

    /// A select begins at the desk. Refused, nothing of the session's has changed.
    pub fn begin<M: CrackerMap>(
        &mut self,
        session: &mut SessionState<J>,
        head: &mut LatchedHead<J, M>,
        query: Query,
    ) -> Result<(), Refusal>
        requires rest { session.old.waits ≡ None }
        requires asks { CallsBelow (length J.columns) (Select query) }
        ensures begins { OnOk result (Begins query head.new.taken session.old session.new) }
        ensures entries { OnOk result (IsBegun session.old.shown.0 query self.old.desk.books self.new.desk.books) }
        ensures rest { OnErr result (session.new.waits ≡ None) }
        ensures kept { OnErr result (self.new.desk.books ≡ self.old.desk.books) }
        ensures shelf { self.new.shelf ≡ self.old.shelf }
        ensures same { head.new ≡ record head.old { taken = head.new.taken } }
        ensures refused { IfErr result (IsRefused session.old.shown session.new.shown) }
    {
        match self.desk.begin(session, head, query) {
            Ok(()) => {
                self.certify(head);
                Ok(())
            }
            Err(refusal) => {
                self.desk.look(session);
                Err(refusal)
            }
        }
    }

    /// A head for which all updates were taken keeps the receipt of what is published, where that has all of them.
    fn certify<M: CrackerMap>(&self, head: &mut LatchedHead<J, M>)
        requires { head.old.taken ≡ updates_after J.limit (opened J.opening) self.now.desk.books.entries }
        ensures { head.new ≡ head.old }
    {
        let receipt = self.shelf.published();
        let whole = has_all(&receipt, self.desk.later());
        if whole {
            head.keep(receipt);
        }
    }

    /// A select whose reply is known stands answered at the desk.
    fn stand(
        &mut self,
        ticket: &mut Ticket<J>,
        query: KeptQuery,
        reply: Reply,
    ) -> Result<(), Refusal>
        requires asks { CallsBelow (length J.columns) (Select query) }
        requires reply { reply ≡ reply_after J.limit J.opening self.old.desk.books.entries (Select query) }
        ensures answers { OnOk result (Answers (Select query) reply ticket.old ticket.new) }
        ensures answered { OnOk result (self.new.desk.books
            ≡ with_answered ticket.old.0 (Select query) self.old.desk.books) }
        ensures kept { OnErr result (self.new.desk.books ≡ self.old.desk.books) }
        ensures shelf { self.new.shelf ≡ self.old.shelf }
        ensures refused { IfErr result (IsRefused ticket.old ticket.new) }
    {
        match self.desk.answer(&mut ticket.state, query, reply) {
            Ok(()) => Ok(()),
            Err(refusal) => {
                self.desk.look(&mut ticket.state);
                Err(refusal)
            }
        }
    }

    /// A select that was answered over the updates that a receipt has stands answered at the end of the history, if these are
    /// all updates: then its reply. Otherwise nothing changes. Refused, nothing of the session's has changed.
    pub fn answer(
        &mut self,
        ticket: &mut Ticket<J>,
        told: AtRest<J>,
    ) -> Result<Option<Reply>, Refusal>
        requires asks { CallsBelow (length J.columns) (Select told.asked) }
        ensures answers { IfOk result (AnswersIfSome told.asked ticket.old ticket.new) }
        ensures answered { IfOk result
            (StandsIfSome ticket.old.0 told.asked self.old.desk.books self.new.desk.books) }
        ensures kept { OnErr result (self.new.desk.books ≡ self.old.desk.books) }
        ensures shelf { self.new.shelf ≡ self.old.shelf }
        ensures refused { IfErr result (IsRefused ticket.old ticket.new) }
    {
        let published = self.shelf.published();
        let current = is_current(&told.receipt, &published, self.desk.later());
        if !current {
            return Ok(None);
        }
        let AtRest {
            asked,
            reply,
            kept,
            ..
        } = told;
        self.stand(ticket, asked, kept)?;
        Ok(Some(reply))
    }

    /// Selects that were answered over the updates that a receipt has stand answered at the end of the history, one behind the other,
    /// if these are all updates: then their replies. Otherwise, and where there is no memory or no room in the history, nothing
    /// changes.
    pub fn answer_all(&mut self, ticket: &mut Ticket<J>, told: AllAtRest<J>) -> Option<Vec<Reply>>
        requires asks { All (λ t. CallsBelow (length J.columns) (Select t.0)) told.kept.items }
        ensures answers { AnswersAllIfSome told.kept.items ticket.old ticket.new result }
        ensures answered { AllStandIfSome ticket.old.0 told.kept.items self.old.desk.books self.new.desk.books result }
        ensures shelf { self.new.shelf ≡ self.old.shelf }
    {
        let published = self.shelf.published();
        let current = is_current(&told.receipt, &published, self.desk.later());
        if !current {
            return None;
        }
        let AllAtRest { kept, replies, .. } = told;
        match self.desk.answer_all(&mut ticket.state, kept) {
            Ok(()) => Some(replies),
            Err(_) => None,
        }
    }

    /// A head that lacks more updates than so many takes the next so many of them at the desk: whether it does.
    pub fn hand_part<M: CrackerMap>(
        &mut self,
        head: &mut LatchedHead<J, M>,
        most: usize,
    ) -> Result<bool, Refusal>
        ensures part { IfOk result (TakesPart most (updates self.old.desk.books) head.old.taken head.new.taken) }
        ensures kept { OnErr result (head.new.taken ≡ head.old.taken) }
        ensures refused { IsOkUnless result NoMemory }
        ensures books { IsSameButTaken self.old.desk.books self.new.desk.books }
        ensures shelf { self.new.shelf ≡ self.old.shelf }
        ensures same { head.new ≡ record head.old { taken = head.new.taken } }
    {
        self.desk.hand_part(head, most)
    }

    /// The session's open select is answered at the desk.
    pub fn finish(&mut self, session: &mut SessionState<J>, reply: Reply)
        requires { IsSomeAnd session.old.waits (λ w. reply ≡ reply_to J.limit w.1 w.0) }
        ensures settles { Settles (Answered reply) session.old session.new }
        ensures finished { self.new.desk.books ≡ with_settled session.old.shown.0 (Answered reply) self.old.desk.books }
        ensures shelf { self.new.shelf ≡ self.old.shelf }
    {
        self.desk.finish(session, reply);
    }

    /// The session's open select is given up at the desk.
    pub fn void(&mut self, session: &mut SessionState<J>)
        requires { IsSome session.old.waits }
        ensures settles { Settles Void session.old session.new }
        ensures voided { self.new.desk.books ≡ with_settled session.old.shown.0 Void self.old.desk.books }
        ensures shelf { self.new.shelf ≡ self.old.shelf }
    {
        self.desk.void(session);
    }

    /// All updates that are not published yet are published at once, or none of them: where there is no memory for it, or a
    /// viewer still reads the copy that would be written. Either way the session shows what is published, of which the receipt
    /// is given, with whether that has all updates of the history.
    pub fn publish<R: Wait>(&mut self, rt: &R, ticket: &mut Ticket<J>) -> Published<J>
        ensures stays { Stays ticket.old ticket.new }
        ensures sees { Sees J.opening self.new.desk.books ticket.old ticket.new }
        ensures receipt { result.receipt ≡ self.new.shelf.published }
        ensures told { updates_in result.receipt ≡ ticket.new.2.published }
        ensures all { TellsAll J.limit J.opening ticket.new.2.entries result.receipt result.whole }
        ensures books { IsPublished J.opening self.old self.new }
        ensures came { TellsCame result.came (later J.opening self.new.desk.books) self.old.shelf self.new.shelf }
        ensures missed { MatchBool (is_some result.miss) (result.came ≡ Missed) (result.came ≡ Missed → ⊥) }
        ensures published { HasShownOr (later J.opening self.new.desk.books) self.old.shelf self.new.shelf }
        ensures entries { EndWithEntries J.limit J.opening self.new.desk.books.entries self.new.shelf.published }
        ensures longer { IsPrefix self.old.shelf.published self.new.shelf.published }
        ensures viewers { self.new.shelf.viewers ≡ self.old.shelf.viewers }
    {
        let LockedDesk { desk, shelf, book } = self;
        let came = shelf.catch_up(rt, book, desk.later());
        let receipt = shelf.published();
        let count = book.count(&receipt);
        let whole = has_all(&receipt, desk.later());
        desk.publish(&mut ticket.state, count);
        Published {
            receipt,
            whole,
            came,
            miss: Miss::of(came),
        }
    }

    /// The session shows the history as it is. Whether its receipt has all updates of it.
    pub fn has_all(&mut self, ticket: &mut Ticket<J>) -> bool
        ensures stays { Stays ticket.old ticket.new }
        ensures same { self.new.desk.books ≡ self.old.desk.books }
        ensures shelf { self.new.shelf ≡ self.old.shelf }
        ensures all { TellsAll J.limit J.opening ticket.new.2.entries ticket.new.2.given result }
    {
        self.desk.look(&mut ticket.state);
        has_all(ticket.state.receipt(), self.desk.later())
    }

    /// A call that is no select is answered at the end of the history. Then all updates that are not published yet are published
    /// at once, or none of them: where there is no memory for it, or a viewer still reads the copy that would be written, a later
    /// commit or meeting publishes them. The receipt of what is published is given. Refused, nothing has changed.
    pub fn commit<R: Wait>(
        &mut self,
        rt: &R,
        ticket: &mut Ticket<J>,
        call: Call,
    ) -> Result<(Reply, Front<J>), Refusal>
        requires changes { is_select call ≡ false }
        requires below { CallsBelow (length J.columns) call }
        ensures answers { IfOk result (λ r. Answers call r.0 ticket.old ticket.new) }
        ensures receipt { IfOk result (λ r. r.1 ≡ self.new.shelf.published) }
        ensures told { IfOk result (λ r. updates_in r.1 ≡ ticket.new.2.published) }
        ensures committed { OnOk result (IsCommitted J.opening ticket.old.0 call self.old self.new) }
        ensures published { HasShownOr (later J.opening self.new.desk.books) self.old.shelf self.new.shelf }
        ensures entries { OnOk result
            (EndWithEntries J.limit J.opening self.new.desk.books.entries self.new.shelf.published) }
        ensures longer { IsPrefix self.old.shelf.published self.new.shelf.published }
        ensures viewers { self.new.shelf.viewers ≡ self.old.shelf.viewers }
        ensures kept { OnErr result ((self.new.desk.books ≡ self.old.desk.books) × (self.new.shelf ≡ self.old.shelf)) }
        ensures refused { IfErr result (IsRefused ticket.old ticket.new) }
    {
        match self.desk.commit(&mut ticket.state, call) {
            Ok(reply) => {
                let came = self.publish(rt, ticket);
                Ok((reply, came.receipt))
            }
            Err(refusal) => {
                self.desk.look(&mut ticket.state);
                Err(refusal)
            }
        }
    }

    /// All updates that are not published yet are published at once, or none of them: where there is no memory for it, or a
    /// viewer still reads the copy that would be written. Then a viewer learns what is published, if that begins with all that it
    /// has seen, and the receipt of it is given. Either way the session shows what is published.
    ///
    /// Refused `Ahead` where the viewer has seen more than is published, both counted with the opening rows; then the viewer is
    /// as it was.
    pub fn meet<R: Wait>(
        &mut self,
        rt: &R,
        ticket: &mut Ticket<J>,
        viewer: &mut Viewer<J>,
    ) -> Result<Front<J>, Refusal>
        ensures stays { Stays ticket.old ticket.new }
        ensures told { IfOk result (λ r. updates_in r ≡ ticket.new.2.published) }
        ensures books { IsPublished J.opening self.old self.new }
        ensures published { HasShownOr (later J.opening self.new.desk.books) self.old.shelf self.new.shelf }
        ensures entries { EndWithEntries J.limit J.opening self.new.desk.books.entries self.new.shelf.published }
        ensures longer { IsPrefix self.old.shelf.published self.new.shelf.published }
        ensures viewers { self.new.shelf.viewers ≡ self.old.shelf.viewers }
        ensures receipt { IfOk result (λ r. r ≡ self.new.shelf.published) }
        ensures ends { IfOk result (λ r. EndWithEntries J.limit J.opening ticket.new.2.entries r) }
        ensures met { IfOk result (λ r. IsPrefix viewer.old.seen r × IsLonger viewer.old.told r viewer.new.told) }
        ensures seen { viewer.new.seen ≡ viewer.old.seen }
        ensures kept { OnErr result (viewer.new ≡ viewer.old) }
        ensures refused { IfErr result (IsAhead J.opening (updates_in viewer.old.seen) ticket.new.2.published) }
    {
        let _came = self.publish(rt, ticket);
        self.shelf.meet(&self.book, viewer)
    }

    /// The place of the session's last entry, of those that it shows. Nothing changes.
    pub fn place(&mut self, ticket: &mut Ticket<J>) -> Option<u64>
        ensures same { (self.new ≡ self.old) × (ticket.new ≡ ticket.old) }
        ensures place { IsLastOwn ticket.old.0 ticket.old.2.entries result }
    {
        self.desk.place(&mut ticket.state)
    }

    /// The list that is published.
    pub fn published(&self) -> Front<J>
        ensures { result ≡ self.now.shelf.published }
    {
        self.shelf.published()
    }

    /// A draft that lacks more updates of the book than so many takes the next so many of them: whether it does. Refused, nothing has
    /// changed.
    pub fn draft_part(&self, draft: &mut Draft<J>, most: usize) -> Result<bool, Refusal>
        ensures takes { IfOk result (TakesNext most (updates_in self.now.shelf.booked) draft.old draft.new) }
        ensures kept { OnErr result (draft.new ≡ draft.old) }
        ensures refused { IsOkUnless result NoMemory }
    {
        match self.shelf.hand_part(draft, self.desk.later(), most) {
            Ok(more) => Ok(more),
            Err(_) => Err(Refusal::NoMemory),
        }
    }

    /// A viewer, which has learnt what is published. The first one has the two copies of the rows made of a draft.
    ///
    /// Refused `NoMemory` where there is no draft or no memory for them, and `TooMany` of limit 16 where that many viewers were
    /// ever opened, or no place for a reader was got; then nothing has changed.
    pub fn viewer(&mut self, draft: Option<Draft<J>>) -> Result<Viewer<J>, Refusal>
        ensures few { OnOk result (self.old.shelf.viewers < MOST_VIEWERS) }
        ensures opened { IfOk result (λ v. v ≡ new_viewer self.old.shelf) }
        ensures entries { IfOk result (λ v. EndWithEntries J.limit J.opening self.new.desk.books.entries v.seen) }
        ensures counted { OnOk result (self.new ≡ record self.old { shelf = with_viewer self.old.shelf }) }
        ensures refused { IfErr result (λ e. (self.new ≡ self.old) × RefusesViewer self.old.shelf.viewers e) }
    {
        self.shelf.viewer(draft, self.desk.later())
    }

    /// Waits for the readers, and ends the writer. The desk is left.
    pub fn end<R: Wait>(self, rt: &R) -> Desk<J>
        ensures { result ≡ self.desk }
    {
        let LockedDesk {
            desk,
            shelf,
            book: _book,
        } = self;
        shelf.close(rt);
        desk
    }
}
