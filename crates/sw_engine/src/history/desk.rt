//! What lies under the lock.

ghost use Rattle.std.specs.Prelude.{◌≡◌, [], ◌∷◌, ◌++◌, ◌<◌, ◌+◌, ◌≤◌, length, false, None, All, IfErr, IfOk, IsOkUnless, IsSome, IsSomeAnd, OnErr, OnOk};
ghost use Rattle.sw_query.specs.declared.query.Call.TheVariants.{Select};
ghost use Rattle.sw_query.specs.declared.refusal.Refusal.TheVariants.{NoMemory};
ghost use Rattle.sw_spine.specs.Table.{opened, reply_to, updates_then};
ghost use Rattle.sw_spine.specs.History.{CallsBelow, is_select, mine, updates_after};
ghost use Rattle.sw_spine.specs.Books.{RefusesEntries, as_calls, new_books, updates, waits_for, with_all_answered, with_answered, with_published, with_session, with_settled};
ghost use Rattle.sw_spine.specs.declared.history.State.TheVariants.{Answered, Void};
ghost use Rattle.sw_spine.specs.declared.spine.TheConstants.{MOST_SESSIONS};
ghost use Rattle.sw_engine.specs.Published.{EndsEntry, IsNewShare, IsOfFirst, IsWhole, later, reply_after};
ghost use Rattle.sw_engine.specs.Own.{IsEnded, IsLastOwn};
ghost use Rattle.sw_engine.specs.Sessions.{Answers, AnswersAll, Begins, Refuses, Sees, Settles, Stays};
ghost use Rattle.sw_engine.specs.Desk.{AreGiven, IsBegun, IsMade, IsOf, IsSameButTaken, RefusesNext, TakesPart, latched, new_desk};

use crate::heads::counting::Counters;
use crate::heads::latch::LatchedHead;
use crate::heads::opening::{Ground, Opening};
use crate::history::ticket::{SessionState, Ticket};
use std::alloc::Global;
use std::marker::{Model, PhantomData};
use std::snapshot::Snapshot;
use sw_chunks::Waiting;
use sw_map::CrackerMap;
use sw_rows::{Call, PackedRows, Query, Refusal, Reply, Update};
use sw_spine::{KeptEntry, KeptQuery, MOST_SESSIONS, Spine};
use sw_tie::{Book, Share};
use sw_versions::{Naming, Opened};

/// Books that no engine has yet, and how many sessions it may have.
#[derive(Drop)]
pub struct Blank {
    pub(crate) sessions: Book<Spine>,
    pub(crate) heads: Book<Spine>,
    pub(crate) list: Opened,
    pub(crate) most: u64,
    pub ghost no_session: { sessions.rows ≡ [] },
    pub ghost no_head: { heads.rows ≡ [] },
    pub ghost few: { most ≤ MOST_SESSIONS },
}

impl Blank {
    /// Books of an engine that may have 1,024 sessions.
    pub fn new() -> Blank
        ensures { result.most ≡ MOST_SESSIONS }
    {
        Blank::for_sessions(MOST_SESSIONS)
    }

    /// Books of an engine that may have so many sessions. Who has the tickets of all of them can close it, whatever others do.
    pub fn for_sessions(most: usize) -> Blank
        requires { most ≤ MOST_SESSIONS }
        ensures { result.most ≡ most }
    {
        Blank {
            sessions: Book::new(),
            heads: Book::new(),
            list: Opened::new(),
            most: most as u64,
        }
    }
}

/// The place of a session's last entry.
fn last_of(entries: &[KeptEntry], session: u64) -> Option<u64>
    ensures { IsLastOwn session entries.now result }
{
    for behind in 0..entries.len() {
        let place = entries.len() - 1 - behind;
        if entries[place].session() == session {
            return Some(place as u64);
        }
    }
    None
}

/// The spine, with the books of the sessions and of the heads.
pub struct Desk<J: Naming> {
    spine: Spine,
    many: u64,
    most: u64,
    sessions: Book<Spine>,
    heads: Book<Spine>,
    of: PhantomData<J>,
}

// By hand: the drop of a derived one is written out at each way out of a function.
impl<J: Naming> Drop for Desk<J> {
    fn drop(self) {
        let Self {
            spine: _spine,
            many: _,
            most: _,
            sessions: _sessions,
            heads: _heads,
            of: _,
        } = self;
    }
}

impl<J: Naming> Model for Desk<J> {
    ghost use Rattle.sw_engine.specs.Desk.{DeskState, IsDesk, desk};

    ghost Value = { DeskState };

    ghost view = { λ d. desk d.spine d.sessions.rows d.heads.rows };

    ghost invariant = { λ d. IsDesk J.sessions J.heads J.columns J.opening J.limit J.most d.spine d.many d.most d.sessions d.heads };
}

impl<J: Naming> Desk<J> {
    /// A desk over opening rows, with no session and no head, for at most so many sessions; and what its heads are made with.
    /// Refused `NoMemory` alone.
    #[tactic(auto, using(crate::proofs::Ties::no_room))]
    pub fn open(
        alloc: Global,
        sessions: Book<Spine>,
        heads: Book<Spine>,
        most: u64,
        ground: Ground<J>,
    ) -> Result<(Desk<J>, Opening<J>), Refusal>
        requires books { (sessions.name ≡ J.sessions) × (heads.name ≡ J.heads) }
        requires none { (sessions.rows ≡ []) × (heads.rows ≡ []) }
        requires may { (most ≡ J.most) × (most ≤ MOST_SESSIONS) }
        ensures opened { IfOk result (λ d. d.0 ≡ new_desk J.columns J.opening J.limit) }
        ensures refused { IsOkUnless result NoMemory }
    {
        // for the prover: the table is sound
        let _heads = ground.opening.heads();
        let Ground {
            schema,
            rows,
            limit,
            opening,
        } = ground;
        let spine = Spine::new(alloc, schema, rows, limit)?;
        let desk = Desk {
            spine,
            many: 0,
            most,
            sessions,
            heads,
            of: PhantomData,
        };
        Ok((desk, opening))
    }

    /// What lies under the latch of the next head, whose number this is: it has taken the opening rows, and is not made.
    pub fn add_head<M: CrackerMap>(
        &mut self,
        alloc: Global,
        opening: &Opening<J>,
        number: usize,
    ) -> LatchedHead<J, M>
        requires number { number ≡ self.old.heads }
        requires place { number < length J.columns }
        requires begun { self.old.books ≡ new_books J.columns J.opening J.limit }
        ensures books { self.new.books ≡ self.old.books }
        ensures given { self.new.given ≡ self.old.given }
        ensures heads { self.new.heads ≡ self.old.heads + 1 }
        ensures head { result ≡ latched J.opening None [] 0 }
    {
        // for the prover: the table is sound
        let _heads = opening.heads();
        let Desk { spine, heads, .. } = self;
        let share = heads.open(Snapshot::of(spine));
        LatchedHead {
            number,
            head: None,
            inbox: Vec::new(alloc),
            boxes: Waiting::new(alloc),
            share,
            receipt: None,
            counters: Counters::new(),
            apart: [0; 16],
            of: PhantomData,
        }
    }

    /// The next session's number and share.
    ///
    /// Refused `TooMany` where as many were opened as there may be, `NoMemory` otherwise; a refused one opened none.
    #[tactic(auto, using(crate::proofs::Closing::next_refused))]
    pub fn enrol(&mut self) -> Result<(u64, Share<Spine>), Refusal>
        ensures share { IfOk result (λ t. IsNewShare J.sessions self.new.books t.0 t.1) }
        ensures whole { IfOk result (λ t. IsWhole J.limit J.opening t.1.value) }
        ensures made { OnOk result (self.new.books ≡ with_session self.old.books) }
        ensures given { OnOk result (self.new.given ≡ self.old.given ++ false ∷ []) }
        ensures refused { IfErr result (λ e. (self.new ≡ self.old) × RefusesNext J.most self.old.books e) }
    {
        let Desk {
            spine,
            many,
            most,
            sessions,
            ..
        } = self;
        if *many >= *most {
            return Err(Refusal::TooMany { limit: *most });
        }
        // for the prover: no entry is of a session that was not opened
        let _entries = spine.entries();
        let number = spine.open_session()?;
        let share = sessions.open(Snapshot::of(spine));
        *many += 1;
        Ok((number, share))
    }

    /// How many sessions were opened: no more than there may be.
    pub fn sessions(&self) -> u64
        ensures many { result ≡ length self.now.given }
        ensures few { result ≤ J.most }
    {
        self.many
    }

    /// The opening rows.
    pub fn opening_rows(&self) -> &PackedRows
        ensures { result.now.items ≡ J.opening }
    {
        self.spine.opening_rows()
    }

    /// A select begins: its entry stands open at the end of the history, and the head takes the updates that it lacks. So it
    /// has all updates before that place, and drops the receipt of those that it had. Refused, nothing else has changed.
    #[tactic(auto, using(crate::proofs::Owned::refuses))]
    pub fn begin<M: CrackerMap>(
        &mut self,
        session: &mut SessionState<J>,
        head: &mut LatchedHead<J, M>,
        query: Query,
    ) -> Result<(), Refusal>
        requires rest { session.old.waits ≡ None }
        requires asks { CallsBelow (length J.columns) (Select query) }
        ensures begins { OnOk result (Begins query head.new.taken session.old session.new) }
        ensures entries { OnOk result (IsBegun session.old.shown.0 query self.old.books self.new.books) }
        ensures taken { OnOk result (head.new.taken
            ≡ updates_after J.limit (opened J.opening) self.new.books.entries) }
        ensures kept { OnErr result (self.new.books ≡ self.old.books) }
        ensures stays { OnErr result (session.new ≡ session.old) }
        ensures updates { updates self.new.books ≡ updates self.old.books }
        ensures published { self.new.books.published ≡ self.old.books.published }
        ensures same { head.new ≡ record head.old { taken = head.new.taken } }
        ensures refused { IfErr result (Refuses self.new.books.entries) }
    {
        let Desk {
            spine,
            sessions,
            heads,
            ..
        } = self;
        let SessionState { number, share, .. } = session;
        let LatchedHead {
            number: place,
            inbox,
            share: mark,
            receipt,
            ..
        } = head;
        *receipt = None;
        sessions.agree(share);
        heads.agree(mark);
        spine.begin(*number, query, *place, inbox)?;
        sessions.set(share, Snapshot::of(spine));
        heads.set(mark, Snapshot::of(spine));
        Ok(())
    }

    /// A head that lacks more updates than so many takes the next so many of them: whether it does. Nothing else changes. Refused
    /// `NoMemory` alone, and then nothing has.
    pub fn hand_part<M: CrackerMap>(
        &mut self,
        head: &mut LatchedHead<J, M>,
        most: usize,
    ) -> Result<bool, Refusal>
        ensures part { IfOk result (TakesPart most (updates self.old.books) head.old.taken head.new.taken) }
        ensures kept { OnErr result (head.new.taken ≡ head.old.taken) }
        ensures refused { IsOkUnless result NoMemory }
        ensures books { IsSameButTaken self.old.books self.new.books }
        ensures same { head.new ≡ record head.old { taken = head.new.taken } }
    {
        let Desk { spine, heads, .. } = self;
        let LatchedHead {
            number,
            inbox,
            share: mark,
            receipt,
            ..
        } = head;
        heads.agree(mark);
        if spine.untaken_count(*number) <= most {
            return Ok(false);
        }
        *receipt = None;
        spine.take_some(*number, most, inbox)?;
        heads.set(mark, Snapshot::of(spine));
        Ok(true)
    }

    /// A select whose reply is known stands answered at the end of the history. No head takes updates for it. Refused, nothing has
    /// changed.
    #[tactic(auto, using(crate::proofs::Owned::refuses))]
    pub fn answer(
        &mut self,
        session: &mut SessionState<J>,
        query: KeptQuery,
        reply: Reply,
    ) -> Result<(), Refusal>
        requires rest { session.old.waits ≡ None }
        requires asks { CallsBelow (length J.columns) (Select query) }
        requires reply { reply ≡ reply_after J.limit J.opening self.old.books.entries (Select query) }
        ensures rest { session.new.waits ≡ None }
        ensures answers { OnOk result (Answers (Select query) reply session.old.shown session.new.shown) }
        ensures answered { OnOk result (self.new.books
            ≡ with_answered session.old.shown.0 (Select query) self.old.books) }
        ensures updates { updates self.new.books ≡ updates self.old.books }
        ensures kept { OnErr result (self.new.books ≡ self.old.books) }
        ensures stays { OnErr result (session.new ≡ session.old) }
        ensures refused { IfErr result (Refuses self.new.books.entries) }
    {
        let Desk {
            spine,
            sessions,
            ..
        } = self;
        let SessionState { number, share, .. } = session;
        sessions.agree(share);
        // for the prover: what is published is among the updates
        let _count = spine.published();
        spine.answer(*number, query, reply)?;
        sessions.set(share, Snapshot::of(spine));
        Ok(())
    }

    /// Selects whose replies are known stand answered at the end of the history, one behind the other. No head takes updates for
    /// them. Refused, nothing has changed.
    pub fn answer_all(
        &mut self,
        session: &mut SessionState<J>,
        told: Vec<(KeptQuery, Reply)>,
    ) -> Result<(), Refusal>
        requires rest { session.old.waits ≡ None }
        requires asks { All (λ t. CallsBelow (length J.columns) (Select t.0)) told.items }
        requires replies { All (λ t. t.1 ≡ reply_after J.limit J.opening self.old.books.entries (Select t.0)) told.items }
        ensures rest { session.new.waits ≡ None }
        ensures answers { OnOk result (AnswersAll (as_calls told.items) session.old.shown session.new.shown) }
        ensures answered { OnOk result (self.new.books ≡ with_all_answered session.old.shown.0 told.items self.old.books) }
        ensures updates { updates self.new.books ≡ updates self.old.books }
        ensures kept { OnErr result (self.new.books ≡ self.old.books) }
        ensures stays { OnErr result (session.new ≡ session.old) }
        ensures refused { IfErr result (RefusesEntries (length told.items) self.old.books) }
    {
        let Desk {
            spine,
            sessions,
            ..
        } = self;
        let SessionState { number, share, .. } = session;
        sessions.agree(share);
        // for the prover: what is published is among the updates
        let _count = spine.published();
        spine.answer_all(*number, told)?;
        sessions.set(share, Snapshot::of(spine));
        Ok(())
    }

    /// The session's open select is answered. Nothing else of the history changes.
    pub fn finish(&mut self, session: &mut SessionState<J>, reply: Reply)
        requires { IsSomeAnd session.old.waits (λ w. reply ≡ reply_to J.limit w.1 w.0) }
        ensures settles { Settles (Answered reply) session.old session.new }
        ensures finished { self.new.books ≡ with_settled session.old.shown.0 (Answered reply) self.old.books }
        ensures updates { updates self.new.books ≡ updates self.old.books }
    {
        let Desk {
            spine,
            sessions,
            ..
        } = self;
        let SessionState { number, share, .. } = session;
        sessions.agree(share);
        spine.finish(*number, reply);
        sessions.set(share, Snapshot::of(spine));
    }

    /// The session's open select is given up, and its entry is void. Nothing else of the history changes.
    pub fn void(&mut self, session: &mut SessionState<J>)
        requires { IsSome session.old.waits }
        ensures settles { Settles Void session.old session.new }
        ensures voided { self.new.books ≡ with_settled session.old.shown.0 Void self.old.books }
        ensures updates { updates self.new.books ≡ updates self.old.books }
    {
        let Desk {
            spine,
            sessions,
            ..
        } = self;
        let SessionState { number, share, .. } = session;
        sessions.agree(share);
        spine.void(*number);
        sessions.set(share, Snapshot::of(spine));
    }

    /// A call that is no select is answered at the end of the history. Refused, nothing has changed.
    #[tactic(auto, using(crate::proofs::Owned::refuses))]
    pub fn commit(&mut self, session: &mut SessionState<J>, call: Call) -> Result<Reply, Refusal>
        requires rest { session.old.waits ≡ None }
        requires changes { is_select call ≡ false }
        requires below { CallsBelow (length J.columns) call }
        ensures rest { session.new.waits ≡ None }
        ensures answers { IfOk result (λ reply. Answers call reply session.old.shown session.new.shown) }
        ensures committed { OnOk result (self.new.books ≡ with_answered session.old.shown.0 call self.old.books) }
        ensures updates { OnOk result (updates self.new.books ≡ updates_then J.limit (updates self.old.books) call) }
        ensures kept { OnErr result (self.new.books ≡ self.old.books) }
        ensures stays { OnErr result (session.new ≡ session.old) }
        ensures refused { IfErr result (Refuses self.new.books.entries) }
    {
        let Desk {
            spine,
            sessions,
            ..
        } = self;
        let SessionState { number, share, .. } = session;
        sessions.agree(share);
        // for the prover: what is published is among the updates
        let _count = spine.published();
        let reply = spine.commit(*number, call)?;
        sessions.set(share, Snapshot::of(spine));
        Ok(reply)
    }

    /// So many of the updates are published, the opening rows counted, and the session shows it. Nothing else changes. Of each
    /// entry of the history all updates are published then, or none.
    pub fn publish(&mut self, session: &mut SessionState<J>, count: u64)
        requires rest { session.old.waits ≡ None }
        requires low { self.old.books.published ≤ count }
        requires high { count ≤ length (updates self.old.books) }
        requires ends { EndsEntry J.limit J.opening self.old.books.entries count }
        ensures rest { session.new.waits ≡ None }
        ensures stays { Stays session.old.shown session.new.shown }
        ensures sees { Sees J.opening self.new.books session.old.shown session.new.shown }
        ensures published { self.new.books ≡ with_published count self.old.books }
    {
        let Desk {
            spine,
            sessions,
            ..
        } = self;
        let SessionState { share, .. } = session;
        sessions.agree(share);
        spine.set_published(count);
        sessions.set(share, Snapshot::of(spine));
    }

    /// The session shows the history as it is. Nothing else changes.
    pub fn look(&mut self, session: &mut SessionState<J>)
        requires { session.old.waits ≡ None }
        ensures rest { session.new.waits ≡ None }
        ensures stays { Stays session.old.shown session.new.shown }
        ensures sees { Sees J.opening self.new.books session.old.shown session.new.shown }
        ensures same { self.new.books ≡ self.old.books }
    {
        let count = self.spine.published();
        self.publish(session, count);
    }

    /// The place of the session's last entry, of those that it shows. Nothing changes.
    pub fn place(&mut self, session: &mut SessionState<J>) -> Option<u64>
        ensures same { (self.new ≡ self.old) × (session.new ≡ session.old) }
        ensures place { IsLastOwn session.old.shown.0 session.old.shown.2.entries result }
    {
        let Desk {
            spine,
            sessions,
            ..
        } = self;
        let SessionState { number, share, .. } = session;
        sessions.agree(share);
        last_of(spine.entries(), *number)
    }

    /// The updates after the opening rows, which are those of all entries of the history.
    #[tactic(auto, using(crate::proofs::Whole::all_later))]
    pub fn later(&self) -> &[Update]
        ensures later { result.now ≡ later J.opening self.now.books }
        ensures opening { length J.opening ≤ length (updates self.now.books) }
        ensures entries { IsOfFirst J.limit J.opening self.now.books.entries (later J.opening self.now.books) }
        ensures all { opened J.opening ++ result.now ≡ updates_after J.limit (opened J.opening) self.now.books.entries }
    {
        // for the prover: the opening rows are among the updates
        let _count = self.spine.published();
        let opening = self.spine.opening_rows().len() as u64;
        self.spine.updates_from(opening)
    }

    /// A session is held against the books, and nothing changes: it is one of those that were opened, and saw no more than
    /// these.
    fn hold(&mut self, session: &mut SessionState<J>)
        ensures desk { self.new ≡ self.old }
        ensures session { session.new ≡ session.old }
        ensures made { IsMade (length self.old.given) session.old.shown }
    {
        self.sessions.agree(&mut session.share);
    }

    /// All these tickets are.
    pub fn hold_all(&mut self, tickets: &mut [Ticket<J>])
        ensures desk { self.new ≡ self.old }
        ensures tickets { tickets.new ≡ tickets.old }
        ensures made { All (IsMade (length self.old.given)) tickets.old }
    {
        for place in 0..tickets.len() {
            let ticket = &mut tickets[place];
            self.hold(&mut ticket.state);
        }
    }

    /// A session comes back. The history has just its answered calls and its own entries, and it waits for nothing.
    fn give(&mut self, session: SessionState<J>)
        requires { session.waits ≡ None }
        ensures books { self.new.books ≡ self.old.books }
        ensures mine { mine session.shown.0 self.old.books.entries ≡ session.shown.1 }
        ensures ended { IsEnded self.old.books.entries session.shown }
        ensures rest { waits_for session.shown.0 self.old.books ≡ None }
        ensures given { AreGiven (session.shown ∷ []) self.old.given self.new.given }
    {
        let SessionState { share, .. } = session;
        self.sessions.give(share);
    }

    /// All these tickets come back.
    pub fn give_all(&mut self, tickets: Vec<Ticket<J>>)
        ensures books { self.new.books ≡ self.old.books }
        ensures mine { All (λ t. mine t.0 self.old.books.entries ≡ t.1) tickets.items }
        ensures ended { All (IsEnded self.old.books.entries) tickets.items }
        ensures rest { All (λ t. waits_for t.0 self.old.books ≡ None) tickets.items }
        ensures given { AreGiven tickets.items self.old.given self.new.given }
    {
        for ticket in tickets {
            let Ticket { state } = ticket;
            self.give(state);
        }
    }

    /// The spine, whose sessions are those of the tickets that were opened.
    pub fn into_spine(self) -> Spine
        ensures spine { result ≡ self.books }
        ensures of { IsOf J.columns J.opening J.limit self.books }
        ensures sessions { length self.given ≡ self.books.sessions }
    {
        let Desk {
            spine,
            many: _,
            most: _,
            sessions: _sessions,
            heads: _heads,
            of: _,
        } = self;
        spine
    }
}
