//! Heads under their latches, the history under its lock, and the sessions.

ghost use Rattle.std.specs.List.{zip};
ghost use Rattle.std.specs.Prelude.{◌≡◌, ◌<◌, ◌≤◌, ◌+◌, ◌++◌, ◌∷◌, [], ℕ, true, length, map, take, vec_len, All, IfErr, IfOk, IsOk, IsOkUnless, MatchResult, OnErr, OnOk, false};
ghost use Rattle.sw_query.specs.declared.query.Call.TheVariants.{Select, Insert, Delete, DeleteWhere};
ghost use Rattle.sw_query.specs.declared.refusal.Refusal.TheVariants.{NoMemory};
ghost use Rattle.sw_rows.specs.declared.table.TheConstants.{MOST_ROWS};
ghost use Rattle.sw_lang.specs.Cuts.{AreCuts, cuts_on};
ghost use Rattle.sw_map.specs.Held.{blank};
ghost use Rattle.sw_spine.specs.Table.{is_numbered};
ghost use Rattle.sw_spine.specs.History.{CallsBelow, is_select, mine};
ghost use Rattle.sw_spine.specs.Books.{RefusesRows, updates};
ghost use Rattle.sw_engine.specs.Desk.{AreAll, InOrder, IsMade, KeepsBoxes, LacksFew, RefusesCall, RefusesClose, RefusesOpening, TellsFull, TooManySessions, new_desk};
ghost use mathlib.Core.List.{IsPrefix};
ghost use Rattle.sw_versions.specs.Lists.{IsLonger};
ghost use Rattle.sw_versions.specs.Refused.{IsAhead};
ghost use Rattle.sw_versions.specs.Rules.{updates_in};
ghost use Rattle.sw_engine.specs.Published.{CallGives, CountsMisses, EndWithEntries, GivesReceipt, HaveAll, IsOfFirst, RefusesViewing, TellsAll, answered_to};
ghost use Rattle.sw_engine.specs.declared.heads.latch.TheConstants.{TOGETHER};
ghost use Rattle.sw_engine.specs.Headline.{IsHistoryOfOneThread};
ghost use Rattle.sw_engine.specs.declared.engine.TheConstants.{PART};
ghost use Rattle.sw_engine.specs.Later.{Begin};
ghost use Rattle.sw_engine.specs.Own.{IsEnded, IsLastOwn, IsNew, LeavesAnswered, LeavesCall, LeavesCommit, LeavesSelect, own_of};
ghost use Rattle.sw_engine.specs.Sessions.{Answers, AnswersAll, AnswersIfSome, GivesUp, IsRefused, Refuses, Stays};

use crate::conds::add_all;
use crate::heads::counting::HeadStats;
use crate::heads::latch::{LatchedHead, head_of, short_query};
use crate::heads::latching::{AloneLatch, Latch};
use crate::heads::opening::{Ground, Opening};
use crate::history::desk::{Blank, Desk};
use crate::history::locked::{LockedDesk, Miss};
use crate::history::ticket::Ticket;
use crate::pausing::{LOCK_NAPS, LOCK_PAUSES, wait_at_lock};
use crate::viewing::{Receipt, Viewer};
use crossbeam_utils::{Backoff, CachePadded};
use std::alloc::{AllocError, Global};
use std::marker::{Model, PhantomData};
use std::sync::atomic::{AtomicU64, Ordering};
use std::sync::{Mutex, MutexGuard, RwLockReadGuard, Wait};
use std::thread::Threads;
use sw_lang::Cuts;
use sw_map::CrackerMap;
use sw_rows::{Call, Cond, Conds, PackedRows, Query, Refusal, Reply, Schema};
use sw_spine::Record;
use sw_versions::{Draft, Naming};

/// How many updates a head, or what is made for viewers, takes in a visit at most.
const PART: usize = 1024;

/// What lies under the lock. Others mostly hold it for less time than a sleep takes, so the thread looks at it many times between
/// pauses; then it sleeps between looks, and at last waits for its turn.
fn take<'l, T, R: Wait>(rt: &R, lock: &'l Mutex<T>) -> MutexGuard<'l, T> {
    for look in 0..LOCK_PAUSES + LOCK_NAPS {
        if let Some(guard) = lock.try_lock() {
            return guard;
        }
        wait_at_lock(rt, look);
    }
    lock.lock(rt)
}

/// A latch for each attribute's head.
fn all_latches<J: Naming, M: CrackerMap, L: Latch<LatchedHead<J, M>>>(
    alloc: Global,
    opening: &Opening<J>,
    desk: &mut Desk<J>,
) -> Result<Vec<L>, AllocError>
    requires { desk.old ≡ new_desk J.columns J.opening J.limit }
    ensures books { desk.new.books ≡ desk.old.books }
    ensures given { desk.new.given ≡ desk.old.given }
    ensures many { IfOk result (λ v. vec_len v ≡ length J.columns) }
{
    let mut latches = Vec::new(alloc);
    for place in 0..opening.heads() {
        latches.push(L::over(desk.add_head(alloc, opening, place)))?;
    }
    Ok(latches)
}

/// A head under a latch for each attribute, and the history under its lock.
///
/// A latch is taken before the lock, and never after it.
pub struct Engine<J: Naming, M: CrackerMap, L: Latch<LatchedHead<J, M>> = AloneLatch<J, M>> {
    alloc: Global,
    opening: Opening<J>,
    latches: Vec<L>,
    /// How many updates are published after the opening rows, as far as commits told, for who asks a head as it stands. It is a
    /// hint, on which no clause rests: a wrong one costs time alone.
    came: CachePadded<AtomicU64>,
    /// Apart from what is read without the lock, since each visit changes its word.
    desk: CachePadded<Mutex<LockedDesk<J>>>,
    /// For the compiler: the maps lie under the latches. A `Mutex`, so that an engine goes to other threads where its latches do, and
    /// asks no more of the maps.
    of: PhantomData<Mutex<M>>,
}

// By hand: the drop of a derived one is written out at each way out of a function.
impl<J: Naming, M: CrackerMap, L: Latch<LatchedHead<J, M>>> Drop for Engine<J, M, L> {
    fn drop(self) {
        let Self {
            alloc: _,
            opening: _opening,
            latches: _latches,
            came: _,
            desk: _desk,
            of: _,
        } = self;
    }
}

impl<J: Naming, M: CrackerMap, L: Latch<LatchedHead<J, M>>> Model for Engine<J, M, L> {
    ghost use Rattle.std.specs.Prelude.{◌≡◌, ◌<◌, ◌≤◌, ℕ, length, vec_len};

    ghost Value = { ℕ };

    ghost view = { λ e. vec_len e.latches };

    ghost invariant = { λ e. (vec_len e.latches ≡ length J.columns) × (0 < length J.columns) × (length J.columns ≤ 8) };
}

impl<J: Naming, M: CrackerMap, L: Latch<LatchedHead<J, M>>> Engine<J, M, L> {
    /// An engine over opening rows, with no session. No head is made.
    ///
    /// Refused `TooMany` of the limit where there are more rows, `NoMemory` otherwise. The caller's conditions: the
    /// limit is 1 to 1,048,576, the rows have the keys 1, 2, 3 and so on, and the cuts are lawful: a list for each
    /// attribute, of at most 15 values that rise.
    pub fn open(
        alloc: Global,
        books: Blank,
        schema: Schema,
        rows: PackedRows,
        cuts: Cuts,
        limit: u64,
    ) -> Result<Engine<J, M, L>, Refusal>
        requires books { (books.sessions.name ≡ J.sessions) × (books.heads.name ≡ J.heads) × (books.most ≡ J.most) }
        requires list { books.list.seen.book ≡ J.book }
        requires table { (schema ≡ J.columns) × (rows.items ≡ J.opening) × (limit ≡ J.limit) }
        requires some { 0 < limit }
        requires most { limit ≤ MOST_ROWS }
        requires numbered { is_numbered 1 rows.items ≡ true }
        requires lists { length cuts ≡ length schema }
        requires cuts { (a : ℕ) → a < length schema → AreCuts (cuts_on cuts a) }
        ensures { IfErr result (λ e. RefusesRows limit rows.items e) }
    {
        let (engine, _none) = Engine::open_for(alloc, books, schema, rows, cuts, limit, 0)?;
        Ok(engine)
    }

    /// The same, with the tickets of its first sessions, whose numbers are 1, 2, 3 and so on.
    ///
    /// Refused also `TooMany` where more sessions are asked for than the books are for.
    pub fn open_for(
        alloc: Global,
        books: Blank,
        schema: Schema,
        rows: PackedRows,
        cuts: Cuts,
        limit: u64,
        sessions: usize,
    ) -> Result<(Engine<J, M, L>, Vec<Ticket<J>>), Refusal>
        requires books { (books.sessions.name ≡ J.sessions) × (books.heads.name ≡ J.heads) × (books.most ≡ J.most) }
        requires list { books.list.seen.book ≡ J.book }
        requires table { (schema ≡ J.columns) × (rows.items ≡ J.opening) × (limit ≡ J.limit) }
        requires some { 0 < limit }
        requires most { limit ≤ MOST_ROWS }
        requires numbered { is_numbered 1 rows.items ≡ true }
        requires lists { length cuts ≡ length schema }
        requires cuts { (a : ℕ) → a < length schema → AreCuts (cuts_on cuts a) }
        ensures opened { IfOk result (λ e. (length e.1.items ≡ sessions) × InOrder 1 e.1.items) }
        ensures refused { IfErr result (RefusesOpening limit rows.items J.most sessions) }
    {
        let ground = Ground::new(schema, rows, cuts, limit)?;
        let Blank {
            sessions: given,
            heads,
            list,
            most,
            ..
        } = books;
        let (mut desk, opening) = Desk::open(alloc, given, heads, most, ground)?;
        let Ok(latches) = all_latches(alloc, &opening, &mut desk) else {
            return Err(Refusal::NoMemory);
        };
        let mut desk = LockedDesk::new(alloc, &opening, desk, list);
        let tickets = desk.enrol_all(alloc, sessions)?;
        let engine = Engine {
            alloc,
            opening,
            latches,
            came: CachePadded::new(AtomicU64::new(0)),
            desk: CachePadded::new(Mutex::new(desk)),
            of: PhantomData,
        };
        Ok((engine, tickets))
    }

    /// A ticket's session, which shows what the ticket shows.
    pub fn attach(&self, ticket: Ticket<J>) -> Session<'_, J, M, L>
        ensures { result ≡ ticket }
    {
        Session {
            engine: self,
            ticket,
        }
    }

    /// The next session, which has no entries, with the receipt of what is published. Its number is new: it is that of all
    /// sessions that were made by then. Refused `TooMany` where as many were as the books are for, `NoMemory` otherwise.
    pub fn session<R: Wait>(&self, rt: &R) -> Result<Session<'_, J, M, L>, Refusal>
        ensures new { IfOk result IsNew }
        ensures refused { IfErr result (TooManySessions J.most) }
    {
        let ticket = self.visit(rt).enrol()?;
        Ok(self.attach(ticket))
    }

    /// A viewer, which has learnt what is published. Until the first one there are no copies of the rows for viewers,
    /// and calls do no work for them.
    ///
    /// Refused `NoMemory`, or `TooMany` of limit 16, where that many were ever opened or no place for a reader was got;
    /// a refused one opened none.
    pub fn viewer<R: Wait>(&self, rt: &R) -> Result<Viewer<'_, J>, Refusal>
        ensures opened { IfOk result (λ v. v.seen ≡ v.told) }
        ensures refused { IfErr result RefusesViewing }
    {
        let reader = self.reader(rt)?;
        Ok(Viewer {
            reader,
            of: PhantomData,
        })
    }

    /// Ends the engine where as many tickets come back as sessions were made: the record is the history of one thread over a
    /// plain list of rows, and each session's answered entries are the calls that were answered to it. Of each session it has
    /// just the entries that the session showed, void ones too, each at its place; and it begins with the entries that the
    /// session saw, those of others as they were, or settled since.
    ///
    /// Refused `SharesOut` with both numbers otherwise; then the engine and the tickets come back, and it has waited
    /// for nobody. Where all tickets come back that there may be, it is not refused. It takes no memory. Where it is not
    /// refused it ends the writer of the copies; no viewer is left then, by their types.
    pub fn close<R: Wait>(
        self,
        rt: &R,
        tickets: Vec<Ticket<J>>,
    ) -> Result<Record, (Engine<J, M, L>, Vec<Ticket<J>>, Refusal)>
        ensures headline { IfOk result
            (IsHistoryOfOneThread J.columns J.opening J.limit (map answered_to tickets.items)) }
        ensures ended { IfOk result (λ r. All (IsEnded r.entries) tickets.items) }
        ensures made { IfOk result (λ _. All (IsMade (length tickets.items)) tickets.items) }
        ensures all { AreAll J.most tickets.items → IsOk result }
        ensures refused { IfErr result (λ e. RefusesClose J.most tickets.items e.1.items e.2) }
    {
        let Engine {
            alloc,
            opening,
            latches,
            came,
            desk,
            of,
        } = self;
        let mut desk = desk.into_inner().into_inner();
        let mut back = tickets;
        if let Err(refusal) = desk.all_back(&mut back) {
            let engine = Engine {
                alloc,
                opening,
                latches,
                came,
                desk: CachePadded::new(Mutex::new(desk)),
                of,
            };
            return Err((engine, back, refusal));
        }
        let mut desk = desk.end(rt);
        desk.give_all(back);
        Ok(desk.into_spine().into_record())
    }

    /// Gives a blank box to a head, which has it from its next select on. Until then it waits under the latch. Refused
    /// `NoMemory`, and that very box comes back.
    pub fn supply<R: Wait>(&self, rt: &R, head: usize, it: M) -> Result<(), (M, Refusal)>
        requires place { head < length J.columns }
        requires blank { M.held it ≡ blank }
        ensures { IfErr result (λ r. (r.0 ≡ it) × (r.1 ≡ NoMemory)) }
    {
        let mut alone = self.latches[head].take(rt);
        alone.inside().supply(it)
    }

    /// Drops up to so many boxes of a head, and answers how many.
    pub fn shed<R: Wait>(&self, rt: &R, head: usize, most: usize) -> usize
        requires { head < length J.columns }
        ensures { result ≤ most }
    {
        let mut alone = self.latches[head].take(rt);
        alone.inside().shed(most)
    }

    /// How many heads there are, one for each attribute.
    pub fn heads(&self) -> usize
        ensures { result ≡ length J.columns }
    {
        self.latches.len()
    }

    /// What a head tells of itself in numbers, under its latch.
    pub fn stats<R: Wait>(&self, rt: &R, head: usize) -> HeadStats
        requires { head < length J.columns }
    {
        let mut alone = self.latches[head].take(rt);
        alone.inside().stats()
    }

    /// That so much is published, for who asks a head as it stands.
    fn hint(&self, published: &Receipt<J>) {
        self.came.store(published.len(), Ordering::SeqCst);
    }

    /// Where its memory is from.
    fn alloc(&self) -> Global {
        self.alloc
    }

    /// The history, for one visit.
    fn visit<R: Wait>(&self, rt: &R) -> MutexGuard<'_, LockedDesk<J>> {
        take(rt, &self.desk)
    }

    /// The opening rows, shared in one visit. Refused `NoMemory` alone.
    fn opening_rows<R: Wait>(&self, rt: &R) -> Result<PackedRows, Refusal>
        ensures { MatchResult result (λ rows. rows.items ≡ J.opening) (λ e. e ≡ NoMemory) }
    {
        match self.visit(rt).opening_rows().share(self.alloc) {
            Ok(rows) => Ok(rows),
            Err(_) => Err(Refusal::NoMemory),
        }
    }

    /// The tables that the copies for viewers are made of, made outside the lock. Refused `NoMemory` alone.
    #[tactic(auto, using(sw_spine::proofs::ReplayLemmas::numbered_rise))]
    fn draft<R: Wait>(&self, rt: &R) -> Result<Draft<J>, Refusal>
        ensures { IsOkUnless result NoMemory }
    {
        // for the prover: the opening rows are in order
        let _heads = self.opening.heads();
        let rows = self.opening_rows(rt)?;
        let list = self.visit(rt).published();
        match Draft::new(self.alloc, &rows, list) {
            Ok(draft) => Ok(draft),
            Err(_) => Err(Refusal::NoMemory),
        }
    }

    /// The history, for a visit in which the draft lacks no more updates of the book than `PART`. Before, it takes the others in
    /// visits of so many, and makes them between the visits, as a head does by `reach`.
    fn bring_up<R: Wait>(
        &self,
        rt: &R,
        draft: Draft<J>,
    ) -> Result<(MutexGuard<'_, LockedDesk<J>>, Draft<J>), Refusal>
        ensures few { IfOk result (λ r. LacksFew PART r.1.made (updates_in r.0.value.shelf.booked)) }
        ensures refused { IsOkUnless result NoMemory }
    {
        let mut draft = draft;
        for _ in rt.forever() {
            let desk = self.visit(rt);
            if !desk.draft_part(&mut draft, PART)? {
                return Ok((desk, draft));
            }
            drop(desk);
            let Ok(made) = draft.make() else {
                return Err(Refusal::NoMemory);
            };
            draft = made;
        }
        unreachable!()
    }

    /// A reader of the copies, which are made of a draft where there are none.
    fn reader<R: Wait>(&self, rt: &R) -> Result<sw_versions::Viewer<J>, Refusal>
        ensures opened { IfOk result (λ v. v.seen ≡ v.told) }
        ensures refused { IfErr result RefusesViewing }
    {
        let opened = self.visit(rt).viewer(None);
        match opened {
            Err(Refusal::NoMemory) => {
                let draft = self.draft(rt)?;
                let (mut desk, draft) = self.bring_up(rt, draft)?;
                desk.viewer(Some(draft))
            }
            opened => opened,
        }
    }

    /// Makes a head that was never asked, of the opening rows, outside the lock; and gives it the boxes that wait for it.
    fn ready<R: Wait>(&self, rt: &R, head: &mut LatchedHead<J, M>) -> Result<(), Refusal>
        ensures taken { head.new.taken ≡ head.old.taken }
        ensures made { OnOk result (head.new.made ≡ true) }
        ensures boxes { KeepsBoxes head.old head.new }
        ensures handed { OnOk result (head.new.waiting ≡ 0) }
        ensures refused { IsOkUnless result NoMemory }
    {
        if !head.is_made() {
            let rows = self.opening_rows(rt)?;
            head.make(self.alloc, &self.opening, rows)?;
        }
        head.hand_over()
    }

    /// The history, for a visit in which the head lacks no more updates than `PART`. Before, it takes the others in visits of
    /// so many, and receives them between the visits. Others go on calling meanwhile; what a history may have of updates bounds
    /// these visits.
    fn reach<R: Wait>(
        &self,
        rt: &R,
        head: &mut LatchedHead<J, M>,
    ) -> Result<MutexGuard<'_, LockedDesk<J>>, Refusal>
        requires { head.old.made ≡ true }
        ensures made { head.new.made ≡ true }
        ensures few { IfOk result (λ d. LacksFew PART head.new.taken (updates d.value.desk.books)) }
        ensures refused { IsOkUnless result NoMemory }
    {
        for _ in rt.forever() {
            let mut desk = self.visit(rt);
            if !desk.hand_part(head, PART)? {
                return Ok(desk);
            }
            drop(desk);
            head.receive()?;
        }
        unreachable!()
    }

    /// The head that a query asks, shared, where it may be worth to ask it as it stands. None where others have it alone for long.
    fn share<R: Wait>(
        &self,
        rt: &R,
        query: &Query,
    ) -> Option<RwLockReadGuard<'_, LatchedHead<J, M>>>
        requires { CallsBelow (length J.columns) (Select query.now) }
    {
        let head = self.latches[head_of(query)].share(rt)?;
        if head.may_have(self.came.load(Ordering::SeqCst)) {
            Some(head)
        } else {
            None
        }
    }

    /// Answers a query from a head that is shared, where it is ready as it stands and lacks no update. None where it is not, or
    /// others have the head alone for long, and then nothing is left of the call.
    fn select_at_rest<R: Wait>(
        &self,
        rt: &R,
        ticket: &mut Ticket<J>,
        query: &Query,
    ) -> Result<Option<Reply>, Refusal>
        requires { CallsBelow (length J.columns) (Select query.now) }
        ensures answers { IfOk result (AnswersIfSome query.now ticket.old ticket.new) }
        ensures refused { IfErr result (IsRefused ticket.old ticket.new) }
    {
        let Some(head) = self.share(rt, query) else {
            return Ok(None);
        };
        let Some(told) = head.answer_at_rest(self.alloc, query) else {
            return Ok(None);
        };
        // the lock is let go before the head's own count
        let stood = self.visit(rt).answer(ticket, told);
        if let Ok(Some(_)) = &stood {
            head.count_at_rest(1);
        }
        stood
    }

    /// Answers the first of these calls from a head that is shared, as far as it is ready for them as it stands and lacks no update,
    /// and they stand in the history by one visit.
    fn select_together<R: Wait>(&self, rt: &R, ticket: &mut Ticket<J>, calls: &[Call]) -> Vec<Reply>
        requires { All (CallsBelow (length J.columns)) calls.now }
        ensures few { length result.items ≤ length calls.now }
        ensures most { length result.items ≤ TOGETHER }
        ensures selects { All (λ c. is_select c ≡ true) (take (length result.items) calls.now) }
        ensures answers { AnswersAll (zip calls.now result.items) ticket.old ticket.new }
    {
        let none = Vec::new(self.alloc);
        let Some(call) = calls.first() else {
            return none;
        };
        let Some(query) = short_query(call) else {
            return none;
        };
        let Some(head) = self.share(rt, query) else {
            return none;
        };
        let Some(told) = head.answer_all_at_rest(self.alloc, &self.came, calls) else {
            return none;
        };
        if told.replies.is_empty() {
            return none;
        }
        // the lock is let go before the head's own count
        let stood = self.visit(rt).answer_all(ticket, told);
        let Some(replies) = stood else {
            return none;
        };
        head.count_at_rest(replies.len());
        replies
    }

    /// Answers a query from the head as it stands, if that may be, and else with the head for it alone.
    fn select<R: Threads + Wait + Sync>(
        &self,
        rt: &R,
        ticket: &mut Ticket<J>,
        query: &Query,
    ) -> Result<Reply, Refusal>
        requires { CallsBelow (length J.columns) (Select query.now) }
        ensures answers { IfOk result (λ r. Answers (Select query.now) r ticket.old ticket.new) }
        ensures refused { IfErr result (λ e. GivesUp query.now ticket.old ticket.new × Refuses ticket.new.2.entries e) }
    {
        match self.select_at_rest(rt, ticket, query) {
            Ok(Some(reply)) => Ok(reply),
            Ok(None) => self.select_alone(rt, ticket, query),
            Err(refusal) => Err(refusal),
        }
    }

    /// Takes the head's latch and, for a visit each, the lock: the select begins, the head answers, and the reply stands in the
    /// history; or the select is given up.
    fn select_alone<R: Threads + Wait + Sync>(
        &self,
        rt: &R,
        ticket: &mut Ticket<J>,
        query: &Query,
    ) -> Result<Reply, Refusal>
        requires { CallsBelow (length J.columns) (Select query.now) }
        ensures answers { IfOk result (λ r. Answers (Select query.now) r ticket.old ticket.new) }
        ensures refused { IfErr result (λ e. GivesUp query.now ticket.old ticket.new × Refuses ticket.new.2.entries e) }
    {
        let Ok(asked) = query.copied(self.alloc) else {
            return Err(Refusal::NoMemory);
        };
        let mut alone = self.latches[head_of(query)].take(rt);
        let head = alone.inside();
        if self.ready(rt, head).is_err() {
            return Err(Refusal::NoMemory);
        }
        let Ok(mut desk) = self.reach(rt, head) else {
            return Err(Refusal::NoMemory);
        };
        desk.begin(&mut ticket.state, head, asked)?;
        drop(desk);
        let Ok((reply, kept)) = head.answer(rt, self.alloc, query) else {
            self.visit(rt).void(&mut ticket.state);
            return Err(Refusal::NoMemory);
        };
        self.visit(rt).finish(&mut ticket.state, kept);
        Ok(reply)
    }

    /// Publishes all updates of the history that are not published yet, in visits between which it waits for viewers that read
    /// the copy that is to be written. Without memory for it what a visit missed.
    fn publish<R: Wait>(&self, rt: &R, ticket: &mut Ticket<J>) -> Result<Receipt<J>, Miss>
        ensures stays { Stays ticket.old ticket.new }
        ensures receipt { IfOk result (λ r. updates_in r ≡ ticket.new.2.published) }
        ensures all { IfOk result (HaveAll J.limit J.opening ticket.new.2.entries) }
    {
        let backoff = Backoff::new();
        for _ in rt.forever() {
            let came = self.visit(rt).publish(rt, ticket);
            if came.whole {
                return Ok(came.receipt);
            }
            if let Some(miss) = came.miss {
                return Err(miss);
            }
            backoff.snooze();
        }
        unreachable!()
    }
}

/// A session. Contracts see its number, the calls that were answered to it, its receipt, how often it could not publish,
/// and the history as it was at its last visit: what was published, the entries, and how many sessions were made.
pub struct Session<'e, J: Naming, M: CrackerMap, L: Latch<LatchedHead<J, M>> = AloneLatch<J, M>> {
    engine: &'e Engine<J, M, L>,
    ticket: Ticket<J>,
}

// By hand: the drop of a derived one is written out at each way out of a function.
impl<'e, J: Naming, M: CrackerMap, L: Latch<LatchedHead<J, M>>> Drop for Session<'e, J, M, L> {
    fn drop(self) {
        let Self {
            engine: _,
            ticket: _ticket,
        } = self;
    }
}

impl<'e, J: Naming, M: CrackerMap, L: Latch<LatchedHead<J, M>>> Model for Session<'e, J, M, L> {
    ghost use Rattle.sw_engine.specs.Published.{Shown};

    ghost Value = { Shown };

    ghost view = { λ s. s.ticket };
}

impl<'e, J: Naming, M: CrackerMap, L: Latch<LatchedHead<J, M>>> Session<'e, J, M, L> {
    /// What a query is answered.
    ///
    /// Refused `NoMemory`, or `HistoryFull`; then no row has changed, and the call stands in the history at most as void.
    /// The caller's condition: the query names attributes of the table, 1 to 8 where it asks for rows.
    pub fn select<R: Threads + Wait + Sync>(
        &mut self,
        rt: &R,
        query: &Query,
    ) -> Result<Reply, Refusal>
        requires { CallsBelow (length J.columns) (Select query.now) }
        ensures number { self.new.0 ≡ self.old.0 }
        ensures mine { IfOk result (λ r. self.new.1 ≡ self.old.1 ++ (Select query.now, r) ∷ []) }
        ensures err { OnErr result (self.new.1 ≡ self.old.1) }
        ensures own { LeavesSelect query.now result self.old self.new }
        ensures grows { Begin self.old.2.entries self.new.2.entries }
        ensures receipt { self.new.2.given ≡ self.old.2.given }
        ensures missed { self.new.2.missed ≡ self.old.2.missed }
        ensures refused { IfErr result (λ e. RefusesCall e) }
        ensures full { IfErr result (TellsFull self.new.2.entries) }
    {
        self.engine.select(rt, &mut self.ticket, query)
    }

    /// Answers the first of these calls together, as far as they are selects that list no rows and ask one head, which answers them as
    /// it stands, and `TOGETHER` of them at most: they stand in the history one behind the other, by one visit. The replies come in
    /// order; a call without one was not made, and `call` makes it. It is never refused: where there is no memory, or no room in
    /// the history, it answers fewer, or none.
    ///
    /// The caller's condition is that of `call`, for each.
    pub fn select_together<R: Wait>(&mut self, rt: &R, calls: &[Call]) -> Vec<Reply>
        requires { All (CallsBelow (length J.columns)) calls.now }
        ensures number { self.new.0 ≡ self.old.0 }
        ensures few { length result.items ≤ length calls.now }
        ensures most { length result.items ≤ TOGETHER }
        ensures selects { All (λ c. is_select c ≡ true) (take (length result.items) calls.now) }
        ensures mine { self.new.1 ≡ self.old.1 ++ zip calls.now result.items }
        ensures own { LeavesAnswered (zip calls.now result.items) self.old self.new }
        ensures grows { Begin self.old.2.entries self.new.2.entries }
        ensures receipt { self.new.2.given ≡ self.old.2.given }
        ensures missed { self.new.2.missed ≡ self.old.2.missed }
    {
        self.engine.select_together(rt, &mut self.ticket, calls)
    }

    /// Commits a call that is no select, and has the receipt of what is published then.
    fn commit<R: Wait>(&mut self, rt: &R, call: Call) -> Result<Reply, Refusal>
        requires changes { is_select call ≡ false }
        requires below { CallsBelow (length J.columns) call }
        ensures number { self.new.0 ≡ self.old.0 }
        ensures mine { IfOk result (λ r. self.new.1 ≡ self.old.1 ++ (call, r) ∷ []) }
        ensures err { OnErr result (self.new.1 ≡ self.old.1) }
        ensures own { LeavesCommit call result self.old self.new }
        ensures grows { Begin self.old.2.entries self.new.2.entries }
        ensures receipt { GivesReceipt result self.old.2 self.new.2 }
        ensures missed { self.new.2.missed ≡ self.old.2.missed }
        ensures refused { IfErr result (λ e. RefusesCall e) }
        ensures full { IfErr result (TellsFull self.new.2.entries) }
    {
        let Session { engine, ticket } = self;
        let (reply, published) = engine.visit(rt).commit(rt, ticket, call)?;
        engine.hint(&published);
        ticket.receive(published);
        Ok(reply)
    }

    /// Inserts a row.
    pub fn insert<R: Wait>(&mut self, rt: &R, cells: [i64; 8]) -> Result<Reply, Refusal>
        ensures number { self.new.0 ≡ self.old.0 }
        ensures mine { IfOk result (λ r. self.new.1 ≡ self.old.1 ++ (Insert cells, r) ∷ []) }
        ensures err { OnErr result (self.new.1 ≡ self.old.1) }
        ensures own { LeavesCommit (Insert cells) result self.old self.new }
        ensures grows { Begin self.old.2.entries self.new.2.entries }
        ensures receipt { GivesReceipt result self.old.2 self.new.2 }
        ensures missed { self.new.2.missed ≡ self.old.2.missed }
        ensures refused { IfErr result (λ e. RefusesCall e) }
        ensures full { IfErr result (TellsFull self.new.2.entries) }
    {
        self.commit(rt, Call::Insert(cells))
    }

    /// Deletes the row of a key.
    pub fn delete<R: Wait>(&mut self, rt: &R, key: u64) -> Result<Reply, Refusal>
        ensures number { self.new.0 ≡ self.old.0 }
        ensures mine { IfOk result (λ r. self.new.1 ≡ self.old.1 ++ (Delete key, r) ∷ []) }
        ensures err { OnErr result (self.new.1 ≡ self.old.1) }
        ensures own { LeavesCommit (Delete key) result self.old self.new }
        ensures grows { Begin self.old.2.entries self.new.2.entries }
        ensures receipt { GivesReceipt result self.old.2 self.new.2 }
        ensures missed { self.new.2.missed ≡ self.old.2.missed }
        ensures refused { IfErr result (λ e. RefusesCall e) }
        ensures full { IfErr result (TellsFull self.new.2.entries) }
    {
        self.commit(rt, Call::Delete(key))
    }

    /// Deletes all rows that meet the conditions, as one call, and tells how many. The conditions are copied.
    ///
    /// Refused `NoMemory`, or `HistoryFull`; then nothing has changed. The caller's condition: there is a condition at
    /// least, and each names an attribute of the table and has a bound.
    pub fn delete_where<R: Wait>(&mut self, rt: &R, conds: &[Cond]) -> Result<Reply, Refusal>
        requires { CallsBelow (length J.columns) (DeleteWhere conds.now) }
        ensures number { self.new.0 ≡ self.old.0 }
        ensures mine { IfOk result (λ r. self.new.1 ≡ self.old.1 ++ (DeleteWhere conds.now, r) ∷ []) }
        ensures err { OnErr result (self.new.1 ≡ self.old.1) }
        ensures own { LeavesCommit (DeleteWhere conds.now) result self.old self.new }
        ensures grows { Begin self.old.2.entries self.new.2.entries }
        ensures receipt { GivesReceipt result self.old.2 self.new.2 }
        ensures missed { self.new.2.missed ≡ self.old.2.missed }
        ensures refused { IfErr result (λ e. RefusesCall e) }
        ensures full { IfErr result (TellsFull self.new.2.entries) }
    {
        let mut asked = Conds::new(self.engine.alloc());
        if add_all(&mut asked, conds).is_err() {
            return Err(Refusal::NoMemory);
        }
        self.commit(rt, Call::DeleteWhere(asked))
    }

    /// Makes a call.
    pub fn call<R: Threads + Wait + Sync>(&mut self, rt: &R, call: &Call) -> Result<Reply, Refusal>
        requires { CallsBelow (length J.columns) call.now }
        ensures number { self.new.0 ≡ self.old.0 }
        ensures mine { IfOk result (λ r. self.new.1 ≡ self.old.1 ++ (call.now, r) ∷ []) }
        ensures err { OnErr result (self.new.1 ≡ self.old.1) }
        ensures own { LeavesCall call.now result self.old self.new }
        ensures grows { Begin self.old.2.entries self.new.2.entries }
        ensures receipt { CallGives call.now result self.old.2 self.new.2 }
        ensures missed { self.new.2.missed ≡ self.old.2.missed }
        ensures refused { IfErr result (λ e. RefusesCall e) }
        ensures full { IfErr result (TellsFull self.new.2.entries) }
    {
        match call {
            Call::Select(query) => self.select(rt, query),
            Call::Insert(cells) => self.insert(rt, *cells),
            Call::Delete(key) => self.delete(rt, *key),
            Call::DeleteWhere(conds) => self.delete_where(rt, conds.as_slice()),
        }
    }

    /// The receipt of the list that was published when the session was opened, or at its last insert, delete, delete
    /// under conditions, publish or meeting that was answered. Each begins with the one before. It takes no memory, and
    /// waits for nobody.
    ///
    /// Of each entry of the history, what the session's share shows as published has all updates or none.
    pub fn receipt(&self) -> Receipt<J>
        ensures given { result ≡ self.now.2.given }
        ensures whole { IsOfFirst J.limit J.opening self.now.2.entries self.now.2.published }
        ensures mine { self.now.1 ≡ mine self.now.0 self.now.2.entries }
    {
        self.ticket.state.receipt().again()
    }

    /// Publishes all updates of the history that are not published yet, and the session has the receipt of all of them. For that
    /// it waits for viewers that read, and does not hold the history meanwhile.
    ///
    /// Refused `NoMemory` alone, where there was no memory for it, which is counted: never since a viewer reads. Then the
    /// session's receipt is as it was, and a later call publishes them.
    pub fn publish<R: Wait>(&mut self, rt: &R) -> Result<Receipt<J>, Refusal>
        ensures number { self.new.0 ≡ self.old.0 }
        ensures mine { self.new.1 ≡ self.old.1 }
        ensures own { own_of self.new ≡ own_of self.old }
        ensures grows { Begin self.old.2.entries self.new.2.entries }
        ensures receipt { GivesReceipt result self.old.2 self.new.2 }
        ensures told { IfOk result (λ r. r ≡ self.new.2.given) }
        ensures all { IfOk result (HaveAll J.limit J.opening self.new.2.entries) }
        ensures refused { CountsMisses result self.old.2 self.new.2 }
    {
        let Session { engine, ticket } = self;
        match engine.publish(rt, ticket) {
            Ok(published) => {
                ticket.receive(published.again());
                Ok(published)
            }
            Err(miss) => {
                ticket.miss(miss);
                Err(Refusal::NoMemory)
            }
        }
    }

    /// How often a publish of the session was refused, since there was no memory for it. The count stays at its type's greatest
    /// number once it is there.
    pub fn misses(&self) -> u64
        ensures { result ≡ self.now.2.missed }
    {
        self.ticket.state.misses()
    }

    /// Whether the session's receipt has all updates of the history, as it is now: what a commit could not publish, since a
    /// viewer read or there was no memory, it lacks.
    pub fn is_whole<R: Wait>(&mut self, rt: &R) -> bool
        ensures number { self.new.0 ≡ self.old.0 }
        ensures mine { self.new.1 ≡ self.old.1 }
        ensures own { own_of self.new ≡ own_of self.old }
        ensures grows { Begin self.old.2.entries self.new.2.entries }
        ensures receipt { self.new.2.given ≡ self.old.2.given }
        ensures missed { self.new.2.missed ≡ self.old.2.missed }
        ensures all { TellsAll J.limit J.opening self.new.2.entries self.new.2.given result }
    {
        let Session { engine, ticket } = self;
        engine.visit(rt).has_all(ticket)
    }

    /// The place of the session's last entry in the history, the first place being 0, or none where it has no entry. So it is
    /// its place in the record that `close` answers, and of two sessions' calls that with the lower one came first.
    pub fn place<R: Wait>(&mut self, rt: &R) -> Option<u64>
        ensures same { self.new ≡ self.old }
        ensures place { IsLastOwn self.old.0 self.old.2.entries result }
    {
        let Session { engine, ticket } = self;
        engine.visit(rt).place(ticket)
    }

    /// A viewer learns what is published, and the session has the receipt of it. What an earlier call could not publish, since
    /// viewers read or there was no memory, is published before; for that it waits for viewers that read, without holding the
    /// history meanwhile, and does without where there is no memory.
    ///
    /// Where it is answered, the viewer saw at its last answer of each entry of the history all updates, or none; and so at each
    /// answer before, since what was seen then begins what it saw last.
    ///
    /// Refused `Ahead` where the viewer has seen more updates than are published, both counted with the opening rows; then the
    /// viewer and the session's receipt are as they were.
    pub fn meet<R: Wait>(
        &mut self,
        rt: &R,
        viewer: &mut Viewer<'_, J>,
    ) -> Result<Receipt<J>, Refusal>
        ensures number { self.new.0 ≡ self.old.0 }
        ensures mine { self.new.1 ≡ self.old.1 }
        ensures own { own_of self.new ≡ own_of self.old }
        ensures grows { Begin self.old.2.entries self.new.2.entries }
        ensures receipt { GivesReceipt result self.old.2 self.new.2 }
        ensures missed { self.new.2.missed ≡ self.old.2.missed }
        ensures told { IfOk result (λ r. r ≡ self.new.2.given) }
        ensures ends { IfOk result (λ r. EndWithEntries J.limit J.opening self.new.2.entries r) }
        ensures saw { IfOk result (λ _. EndWithEntries J.limit J.opening self.new.2.entries viewer.new.seen) }
        ensures met { IfOk result (λ r. IsPrefix viewer.old.seen r × IsLonger viewer.old.told r viewer.new.told) }
        ensures seen { viewer.new.seen ≡ viewer.old.seen }
        ensures kept { OnErr result (viewer.new ≡ viewer.old) }
        ensures refused { IfErr result (IsAhead J.opening (updates_in viewer.old.seen) self.new.2.published) }
    {
        let Session { engine, ticket } = self;
        let _published = engine.publish(rt, ticket);
        let published = engine.visit(rt).meet(rt, ticket, &mut viewer.reader)?;
        ticket.receive(published.again());
        Ok(published)
    }

    /// The session's ticket, which shows what the session shows, and cannot be copied.
    pub fn end(self) -> Ticket<J>
        ensures { result ≡ self.entry }
    {
        let Session { engine: _, ticket } = self;
        ticket
    }
}
