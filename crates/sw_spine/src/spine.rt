//! The spine.

ghost use Rattle.std.specs.Prelude.{ℕ, ◌≡◌, ◌<◌, ◌≤◌, ◌+◌, ◌-◌, ◌++◌, ◌∷◌, [], true, false, Some, None, drop, length, map, slice_index_or, slice_set, vec_capacity, vec_len, All, IfErr, IfOk, IfSome, IsOkUnless, IsSome, IsSomeAnd, MatchResult, OnErr, OnOk};
ghost use Rattle.sw_lang.specs.Learning.{knowing, learned};
ghost use Rattle.sw_lang.specs.Reading.{Answers, line_at, refused};
ghost use Rattle.sw_table.specs.Updates.{rows_of};
ghost use Rattle.sw_rows.specs.Gives.{Gives};
ghost use Rattle.sw_rows.specs.Header.{has_texts, texts_of};
ghost use Rattle.sw_rows.specs.Texts.{cell_given, is_text};
ghost use Rattle.sw_spine.specs.Listed.{met};
ghost use Rattle.sw_query.specs.declared.query.Call.TheVariants.{Select, Insert, Delete, DeleteWhere};
ghost use Rattle.sw_query.specs.declared.refusal.Refusal.TheVariants.{NoMemory};
ghost use Rattle.sw_spine.specs.Table.{inserted, is_numbered, removed, reply_to, updates_then};
ghost use Rattle.sw_spine.specs.History.{CallsBelow, IsLegal, IsSound, all_given, is_absent, is_given, is_select, mine, open_place, settled};
ghost use Rattle.sw_spine.specs.Receivable.{AreUpdates};
ghost use Rattle.sw_spine.specs.Rest.{none_open};
ghost use Rattle.sw_rows.specs.declared.table.TheConstants.{MOST_ROWS};
ghost use Rattle.sw_spine.specs.Books.{HasAnswered, HasBegun, HasOneMore, IsCount, IsNewSpine, IsNotBegun, IsRefusedBy, KeepsOtherHeads, KeepsOthers, KeepsTaken, Opens, RefusesEntries, RefusesEntry, RefusesRows, RefusesSession, as_calls, forgetting, history_of, is_opened, next_for, reply_now, told_entry, took, untaken, updates, waits_for, with_all_answered, with_answered, with_columns, with_open, with_published, with_settled, with_taken};
ghost use Rattle.sw_spine.specs.declared.history.State.TheVariants.{Answered, Void};

use crate::given::Given;
use crate::history::{KeptCall, KeptEntry, KeptQuery, Record, RecordRef, State};
use crate::room::make_room;
use crate::store::Store;
use std::alloc::{AllocError, Global};
use std::marker::Model;
use std::mem::size_of;
use sw_lang::parse_line;
use sw_rows::{Call, Conds, PackedRows, Query, Refusal, Reply, Schema, Update};

/// The greatest number of entries of a history.
pub const MOST_ENTRIES: usize = 1048576;

/// The greatest number of sessions.
pub const MOST_SESSIONS: usize = 1024;

/// The history of all sessions' calls, the rows ever inserted, and the updates that heads take from. It has no lock.
///
/// Each call is one visit. Contracts see what it keeps: the attributes, the opening rows, the limit, the entries, how many
/// updates each of eight heads has taken, how many sessions were opened and how many updates are published, the opening
/// rows counted among the updates. Of every spine it is known that its history is legal: each answered reply is that of
/// one thread over a plain list of rows.
pub struct Spine {
    schema: Schema,
    store: Store,
    entries: Vec<KeptEntry>,
    /// For each session the place of its open entry.
    places: Vec<Option<usize>>,
    taken: [usize; 8],
    sessions: u64,
    published: u64,
}

// By hand: the drop of a derived one is written out at each way out of a function.
impl Drop for Spine {
    fn drop(self) {
        let Self {
            schema: _schema,
            store: _store,
            entries: _entries,
            places: _places,
            taken: _,
            sessions: _,
            published: _,
        } = self;
    }
}

impl Model for Spine {
    ghost use Rattle.sw_spine.specs.Books.{Books, IsSpine, books_of};

    ghost Value = { Books };

    ghost view = { λ s. books_of s.schema s.store s.entries.items s.taken s.sessions s.published };

    ghost invariant = { λ s. IsSpine
        (books_of s.schema s.store s.entries.items s.taken s.sessions s.published)
        s.store.later
        s.places.items };
}

/// The reply to an insert, by the key that was given.
fn inserted(given: Option<u64>) -> Reply
    ensures { result ≡ inserted given }
{
    match given {
        Some(key) => Reply::Inserted(key),
        None => Reply::Full,
    }
}

/// The reply to a delete, by whether the key was there.
fn removed(found: bool) -> Reply
    ensures { result ≡ removed found }
{
    if found {
        Reply::Removed
    } else {
        Reply::NoSuchKey
    }
}

/// Adds the entries of queries that a session was answered, for which there is room.
fn push_told(entries: &mut Vec<KeptEntry>, session: u64, told: Vec<(KeptQuery, Reply)>)
    requires few { session ≤ MOST_SESSIONS }
    requires room { vec_len entries.old + length told.items ≤ vec_capacity entries.old }
    ensures { entries.new.items ≡ entries.old.items ++ map (told_entry session) told.items }
{
    for one in told {
        let (query, reply) = one;
        entries.push_reserved(query.into_call().answered(session, reply));
    }
}

/// Changes the state of a session's open entry.
fn settle(entries: &mut Vec<KeptEntry>, places: &mut Vec<Option<usize>>, session: u64, state: State)
    requires place { slice_index_or places.old.items (session - 1) None ≡ open_place session entries.old.items }
    requires some { 0 < session }
    requires slot { session - 1 < length places.old.items }
    requires given { is_given state ≡ true }
    ensures entries { entries.new.items ≡ settled session state entries.old.items }
    ensures places { places.new.items ≡ slice_set places.old.items (session - 1) None }
{
    let slot = &mut places[(session - 1) as usize];
    if let Some(place) = slot.take() {
        entries[place].settle(state);
    }
}

impl Spine {
    /// A spine of opening rows with no entries and no sessions.
    ///
    /// Refused `TooMany` of the limit where there are more rows, `NoMemory` otherwise. The caller's conditions: the limit is
    /// 1 to 1,048,576, and the rows have the keys 1, 2, 3 and so on.
    pub fn new(
        alloc: Global,
        schema: Schema,
        rows: PackedRows,
        limit: u64,
    ) -> Result<Spine, Refusal>
        requires some { 0 < limit }
        requires most { limit ≤ MOST_ROWS }
        requires numbered { is_numbered 1 rows.items ≡ true }
        ensures { MatchResult result (IsNewSpine schema rows.items limit) (RefusesRows limit rows.items) }
    {
        if rows.len() as u64 > limit {
            return Err(Refusal::TooMany { limit });
        }
        let count = rows.len();
        let Ok(store) = Store::new(alloc, rows, limit) else {
            return Err(Refusal::NoMemory);
        };
        Ok(Spine {
            schema,
            store,
            entries: Vec::new(alloc),
            places: Vec::new(alloc),
            taken: [count; 8],
            sessions: 0,
            published: count as u64,
        })
    }

    /// Opens the next session and answers its number, from 1. The session has made no calls and waits for nothing.
    ///
    /// Refused `TooMany` of limit 1,024 where that many were opened, `NoMemory` otherwise; after a refusal nothing has
    /// changed.
    pub fn open_session(&mut self) -> Result<u64, Refusal>
        ensures opened { MatchResult result (Opens self.old self.new) (IsRefusedBy RefusesSession self.old self.new) }
        ensures begun { IfOk result (λ n. (mine n self.new.entries ≡ []) × (waits_for n self.new ≡ None)) }
    {
        if self.places.len() == MOST_SESSIONS {
            return Err(Refusal::TooMany {
                limit: MOST_SESSIONS as u64,
            });
        }
        if self.places.push(None).is_err() {
            return Err(Refusal::NoMemory);
        }
        self.sessions += 1;
        Ok(self.sessions)
    }

    /// The limit of rows ever inserted.
    pub fn limit(&self) -> u64
        ensures { result ≡ self.now.limit }
    {
        self.store.limit()
    }

    /// The attributes.
    pub fn schema(&self) -> &Schema
        ensures { result.now ≡ self.now.columns }
    {
        &self.schema
    }

    /// The opening rows.
    pub fn opening_rows(&self) -> &PackedRows
        ensures { result.now.items ≡ self.now.rows }
    {
        self.store.rows()
    }

    /// The history so far, which is sound and legal, with entries of opened sessions alone and no reply as lines.
    pub fn entries(&self) -> &[KeptEntry]
        ensures entries { result.now ≡ self.now.entries }
        ensures sound { IsSound (history_of self.now) }
        ensures legal { IsLegal (history_of self.now) }
        ensures given { all_given self.now.entries ≡ true }
        ensures known { (s : ℕ) → is_opened s self.now ≡ false → is_absent s self.now.entries ≡ true }
    {
        self.entries.as_slice()
    }

    /// The history so far, as a record that is read where it stands. It is legal.
    pub fn record(&self) -> RecordRef<'_>
        ensures record_is { result ≡ history_of self.now }
        ensures legal { IsLegal (history_of self.now) }
    {
        RecordRef {
            schema: &self.schema,
            rows: self.store.rows(),
            limit: self.store.limit(),
            entries: self.entries.as_slice(),
        }
    }

    /// The rows ever inserted, of which a pass meets those that the plain table has at the history's end.
    pub fn given(&self) -> Given<'_>
        ensures { met result ≡ rows_of (updates self.now) }
    {
        self.store.given()
    }

    /// The call of a line, whose texts become known, as `parse_line` of sw_lang reads it. Refused, nothing has changed.
    pub fn read_line(&mut self, line: u32, text: &str) -> Result<Option<Call>, Refusal>
        ensures read { Answers result (refused line (line_at (learned self.old.columns text.now) text.now)) }
        ensures below { IfOk result (λ call. IfSome call (CallsBelow (length self.old.columns))) }
        ensures learned { OnOk result (self.new ≡ with_columns (learned self.old.columns text.now) self.old) }
        ensures unchanged { OnErr result (self.new ≡ self.old) }
        ensures wide { length self.new.columns ≡ length self.old.columns }
    {
        let alloc = *self.entries.allocator();
        match parse_line(alloc, &mut self.schema, line, text) {
            Ok(call) => Ok(call),
            Err(e) => Err(e),
        }
    }

    /// The code of a text, which becomes known where it is not. Refused, nothing has changed: `TooMany` where there are as
    /// many texts as there may be, or `NoMemory`.
    ///
    /// The caller's conditions: an attribute is of texts, and the text may be one of a cell.
    pub fn add_text(&mut self, text: &str) -> Result<i64, Refusal>
        requires some { has_texts self.old.columns ≡ true }
        requires text { is_text text.now ≡ true }
        ensures code { Gives ⊥ (λ code. code) result (cell_given (texts_of self.old.columns) text.now) }
        ensures added { OnOk result (self.new ≡ with_columns (knowing (text.now ∷ []) self.old.columns) self.old) }
        ensures unchanged { OnErr result (self.new ≡ self.old) }
        ensures wide { length self.new.columns ≡ length self.old.columns }
    {
        match self.schema.add_text(text) {
            Ok(code) => Ok(code),
            Err(e) => Err(e),
        }
    }

    /// Forgets the texts that came last, so that the first `count` are left. Where there are no more, nothing changes.
    pub fn forget_texts(&mut self, count: usize)
        ensures left { self.new ≡ with_columns (forgetting count self.old.columns) self.old }
        ensures wide { length self.new.columns ≡ length self.old.columns }
    {
        self.schema.forget_texts(count);
    }

    /// A select begins: its place is the end of the history, and the updates that the head has not taken go to the
    /// inbox's end and count as taken. The opening rows count as taken by every head from the start. All updates of the
    /// history are such as a table may get: the inserted rows have the next keys, within the limit, and the removed
    /// keys are live.
    ///
    /// Refused `HistoryFull` where the history has 1,048,576 entries, `NoMemory` otherwise; after a refusal nothing has
    /// changed. The caller's conditions: the session was opened and has no open entry, the query names attributes of the
    /// table, 1 to 8 where it asks for rows, and the head's number, which says only who takes the updates, is below 8.
    pub fn begin(
        &mut self,
        session: u64,
        query: Query,
        head: usize,
        inbox: &mut Vec<Update>,
    ) -> Result<(), Refusal>
        requires opened { is_opened session self.old ≡ true }
        requires rest { waits_for session self.old ≡ None }
        requires asks { CallsBelow (length self.old.columns) (Select query) }
        requires head { head < 8 }
        ensures begun { OnOk result (self.new ≡ with_open session query head self.old) }
        ensures inbox { OnOk result (inbox.new.items ≡ inbox.old.items ++ untaken head self.old) }
        ensures room { OnOk result (length self.old.entries < MOST_ENTRIES) }
        ensures refused { IfErr result (IsNotBegun self.old self.new inbox.old.items inbox.new.items) }

        // What follows of the books.
        ensures waits { OnOk result (waits_for session self.new ≡ Some (Select query, updates self.old)) }
        ensures mine { mine session self.new.entries ≡ mine session self.old.entries }
        ensures others { KeepsOthers session self.old self.new }
        ensures updates { updates self.new ≡ updates self.old }
        ensures took { OnOk result (took head self.new ≡ updates self.old) }
        ensures heads { KeepsOtherHeads head self.old self.new }
        ensures may_come { OnOk result (AreUpdates self.new.limit (updates self.new)) }
    {
        if self.entries.len() == MOST_ENTRIES {
            return Err(Refusal::HistoryFull {
                entries: MOST_ENTRIES as u64,
            });
        }
        match self.add_open(session, query, head, inbox) {
            Ok(()) => Ok(()),
            Err(_) => Err(Refusal::NoMemory),
        }
    }

    fn add_open(
        &mut self,
        session: u64,
        query: Query,
        head: usize,
        inbox: &mut Vec<Update>,
    ) -> Result<(), AllocError>
        requires opened { is_opened session self.old ≡ true }
        requires rest { waits_for session self.old ≡ None }
        requires asks { CallsBelow (length self.old.columns) (Select query) }
        requires head { head < 8 }
        requires room { length self.old.entries < MOST_ENTRIES }
        ensures ok { OnOk result (HasBegun session query head self.old self.new inbox.old.items inbox.new.items) }
        ensures err { OnErr result ((self.new ≡ self.old) × (inbox.new.items ≡ inbox.old.items)) }
    {
        make_room(&mut self.entries, 1, size_of::<KeptEntry>())?;
        let from = self.taken[head];
        let call = KeptCall::new(*self.entries.allocator(), Call::Select(query))?;
        inbox.extend_from_slice(self.store.since(from))?;
        let place = self.entries.len();
        let entry = call.opened(session);
        self.entries.push_reserved(entry);
        self.places[(session - 1) as usize] = Some(place);
        self.taken[head] = self.store.count();
        Ok(())
    }

    /// How many updates a head has not taken. The caller's condition: the head's number is below 8.
    pub fn untaken_count(&self, head: usize) -> usize
        requires { head < 8 }
        ensures { result ≡ length (untaken head self.now) }
    {
        self.store.since(self.taken[head]).len()
    }

    /// The next updates that a head has not taken, up to so many, go to the inbox's end and count as taken. So a head that lacks
    /// many takes them in several visits, and the one in which its select begins hands over what came since.
    ///
    /// Refused `NoMemory` alone; then nothing has changed. The caller's condition: the head's number is below 8.
    pub fn take_some(
        &mut self,
        head: usize,
        most: usize,
        inbox: &mut Vec<Update>,
    ) -> Result<(), Refusal>
        requires head { head < 8 }
        ensures taken { OnOk result (self.new ≡ with_taken head most self.old) }
        ensures inbox { OnOk result (inbox.new.items ≡ inbox.old.items ++ next_for head most self.old) }
        ensures kept { OnErr result ((self.new ≡ self.old) × (inbox.new.items ≡ inbox.old.items)) }
        ensures refused { IsOkUnless result NoMemory }

        // What follows of the books.
        ensures took { OnOk result (took head self.new ≡ took head self.old ++ next_for head most self.old) }
        ensures heads { KeepsOtherHeads head self.old self.new }
        ensures may_come { AreUpdates self.new.limit (took head self.new) }
    {
        // for the prover: the number of updates fits
        let _all = self.store.count();
        let from = self.taken[head];
        let lacked = self.store.since(from);
        let next = &lacked[..most.min(lacked.len())];
        if inbox.extend_from_slice(next).is_err() {
            return Err(Refusal::NoMemory);
        }
        self.taken[head] = from + next.len();
        Ok(())
    }

    /// A select whose reply is known stands at the end of the history, answered. No head takes updates for it.
    ///
    /// Refused `HistoryFull` where the history has 1,048,576 entries, `NoMemory` otherwise; after a refusal nothing has
    /// changed. The caller's conditions: the session was opened and has no open entry, the query names attributes of the
    /// table, 1 to 8 where it asks for rows, and the reply is the plain table's at the history's end.
    pub fn answer(&mut self, session: u64, query: KeptQuery, reply: Reply) -> Result<(), Refusal>
        requires opened { is_opened session self.old ≡ true }
        requires rest { waits_for session self.old ≡ None }
        requires asks { CallsBelow (length self.old.columns) (Select query) }
        requires reply { reply ≡ reply_now (Select query) self.old }
        ensures answered { OnOk result (self.new ≡ with_answered session (Select query) self.old) }
        ensures room { OnOk result (length self.old.entries < MOST_ENTRIES) }
        ensures refused { IfErr result (IsRefusedBy RefusesEntry self.old self.new) }

        // What follows of the books.
        ensures rest { waits_for session self.new ≡ None }
        ensures mine { OnOk result (HasOneMore session self.old self.new (Select query) reply) }
        ensures others { KeepsOthers session self.old self.new }
        ensures updates { updates self.new ≡ updates self.old }
        ensures taken { KeepsTaken self.old self.new }
    {
        if self.entries.len() == MOST_ENTRIES {
            return Err(Refusal::HistoryFull {
                entries: MOST_ENTRIES as u64,
            });
        }
        match self.add_answered(session, query, reply) {
            Ok(()) => Ok(()),
            Err(_) => Err(Refusal::NoMemory),
        }
    }

    fn add_answered(
        &mut self,
        session: u64,
        query: KeptQuery,
        reply: Reply,
    ) -> Result<(), AllocError>
        requires opened { is_opened session self.old ≡ true }
        requires rest { waits_for session self.old ≡ None }
        requires asks { CallsBelow (length self.old.columns) (Select query) }
        requires reply { reply ≡ reply_now (Select query) self.old }
        requires room { length self.old.entries < MOST_ENTRIES }
        ensures answered { OnOk result (self.new ≡ with_answered session (Select query) self.old) }
        ensures refused { OnErr result (self.new ≡ self.old) }
    {
        make_room(&mut self.entries, 1, size_of::<KeptEntry>())?;
        let entry = query.into_call().answered(session, reply);
        self.entries.push_reserved(entry);
        Ok(())
    }

    /// Selects whose replies are known stand at the end of the history, one behind the other, answered. No head takes updates
    /// for them.
    ///
    /// Refused `HistoryFull` where the history would have more than 1,048,576 entries, `NoMemory` otherwise; after a refusal
    /// nothing has changed, and none of them stands. The caller's conditions are those of `answer`, for each.
    pub fn answer_all(&mut self, session: u64, told: Vec<(KeptQuery, Reply)>) -> Result<(), Refusal>
        requires opened { is_opened session self.old ≡ true }
        requires rest { waits_for session self.old ≡ None }
        requires asks { All (λ t. CallsBelow (length self.old.columns) (Select t.0)) told.items }
        requires replies { All (λ t. t.1 ≡ reply_now (Select t.0) self.old) told.items }
        ensures answered { OnOk result (self.new ≡ with_all_answered session told.items self.old) }
        ensures room { OnOk result (length self.old.entries + length told.items ≤ MOST_ENTRIES) }
        ensures refused { IfErr result (IsRefusedBy (RefusesEntries (length told.items)) self.old self.new) }

        // What follows of the books.
        ensures rest { waits_for session self.new ≡ None }
        ensures mine { OnOk result (mine session self.new.entries ≡ mine session self.old.entries ++ as_calls told.items) }
        ensures others { KeepsOthers session self.old self.new }
        ensures updates { updates self.new ≡ updates self.old }
        ensures taken { KeepsTaken self.old self.new }
    {
        if told.len() > MOST_ENTRIES - self.entries.len() {
            return Err(Refusal::HistoryFull {
                entries: MOST_ENTRIES as u64,
            });
        }
        match self.add_all_answered(session, told) {
            Ok(()) => Ok(()),
            Err(_) => Err(Refusal::NoMemory),
        }
    }

    fn add_all_answered(
        &mut self,
        session: u64,
        told: Vec<(KeptQuery, Reply)>,
    ) -> Result<(), AllocError>
        requires opened { is_opened session self.old ≡ true }
        requires rest { waits_for session self.old ≡ None }
        requires asks { All (λ t. CallsBelow (length self.old.columns) (Select t.0)) told.items }
        requires replies { All (λ t. t.1 ≡ reply_now (Select t.0) self.old) told.items }
        requires room { length self.old.entries + length told.items ≤ MOST_ENTRIES }
        ensures answered { OnOk result (self.new ≡ with_all_answered session told.items self.old) }
        ensures refused { OnErr result (self.new ≡ self.old) }
    {
        make_room(&mut self.entries, told.len(), size_of::<KeptEntry>())?;
        push_told(&mut self.entries, session, told);
        Ok(())
    }

    /// The session's open select is answered. Nothing else changes, and no memory is taken.
    ///
    /// The caller's conditions: the session was opened and has an open entry, and the reply is the plain table's at the
    /// entry's place.
    pub fn finish(&mut self, session: u64, reply: Reply)
        requires opened { is_opened session self.old ≡ true }
        requires reply { IsSomeAnd (waits_for session self.old) (λ w. reply ≡ reply_to self.old.limit w.1 w.0) }
        ensures finished { self.new ≡ with_settled session (Answered reply) self.old }

        // What follows of the books.
        ensures rest { waits_for session self.new ≡ None }
        ensures mine { IfSome (waits_for session self.old) (λ w. HasOneMore session self.old self.new w.0 reply) }
        ensures others { KeepsOthers session self.old self.new }
        ensures updates { updates self.new ≡ updates self.old }
        ensures taken { KeepsTaken self.old self.new }
    {
        settle(
            &mut self.entries,
            &mut self.places,
            session,
            State::Answered(reply),
        );
    }

    /// The session's open select is given up. Nothing else changes, and no memory is taken.
    ///
    /// The caller's condition: the session was opened and has an open entry.
    pub fn void(&mut self, session: u64)
        requires opened { is_opened session self.old ≡ true }
        requires waits { IsSome (waits_for session self.old) }
        ensures voided { self.new ≡ with_settled session Void self.old }

        // What follows of the books.
        ensures rest { waits_for session self.new ≡ None }
        ensures mine { mine session self.new.entries ≡ mine session self.old.entries }
        ensures others { KeepsOthers session self.old self.new }
        ensures updates { updates self.new ≡ updates self.old }
        ensures taken { KeepsTaken self.old self.new }
    {
        settle(&mut self.entries, &mut self.places, session, State::Void);
    }

    /// A call that is no select is answered at the end of the history, with the plain table's reply there.
    ///
    /// Refused `HistoryFull` where the history has 1,048,576 entries, `NoMemory` otherwise; after a refusal nothing has
    /// changed. The caller's conditions: the call is no select, its conditions name attributes of the table, of a delete
    /// under conditions there is one at least, each with a bound, and the session was opened and has no open entry.
    pub fn commit(&mut self, session: u64, call: Call) -> Result<Reply, Refusal>
        requires opened { is_opened session self.old ≡ true }
        requires rest { waits_for session self.old ≡ None }
        requires changes { is_select call ≡ false }
        requires below { CallsBelow (length self.old.columns) call }
        ensures committed { IfOk result (HasAnswered session call self.old self.new) }
        ensures room { OnOk result (length self.old.entries < MOST_ENTRIES) }
        ensures refused { IfErr result (IsRefusedBy RefusesEntry self.old self.new) }

        // What follows of the books.
        ensures rest { waits_for session self.new ≡ None }
        ensures mine { IfOk result (HasOneMore session self.old self.new call) }
        ensures others { KeepsOthers session self.old self.new }
        ensures updates { OnOk result (updates self.new ≡ updates_then self.old.limit (updates self.old) call) }
        ensures taken { KeepsTaken self.old self.new }
    {
        if self.entries.len() == MOST_ENTRIES {
            return Err(Refusal::HistoryFull {
                entries: MOST_ENTRIES as u64,
            });
        }
        match self.change(session, call) {
            Ok(reply) => Ok(reply),
            Err(_) => Err(Refusal::NoMemory),
        }
    }

    fn change(&mut self, session: u64, call: Call) -> Result<Reply, AllocError>
        requires opened { is_opened session self.old ≡ true }
        requires rest { waits_for session self.old ≡ None }
        requires changes { is_select call ≡ false }
        requires below { CallsBelow (length self.old.columns) call }
        requires room { length self.old.entries < MOST_ENTRIES }
        ensures { MatchResult result (HasAnswered session call self.old self.new) (λ _. self.new ≡ self.old) }
    {
        match call {
            Call::Insert(cells) => self.insert(session, cells),
            Call::Delete(key) => self.delete(session, key),
            Call::DeleteWhere(conds) => self.delete_where(session, conds),
            Call::Select(_) => unreachable!(),
        }
    }

    fn insert(&mut self, session: u64, cells: [i64; 8]) -> Result<Reply, AllocError>
        requires opened { is_opened session self.old ≡ true }
        requires rest { waits_for session self.old ≡ None }
        requires room { length self.old.entries < MOST_ENTRIES }
        ensures { MatchResult result (HasAnswered session (Insert cells) self.old self.new) (λ _. self.new ≡ self.old) }
    {
        make_room(&mut self.entries, 1, size_of::<KeptEntry>())?;
        let call = KeptCall::new(*self.entries.allocator(), Call::Insert(cells))?;
        let given = self.store.insert(cells)?;
        let entry = call.answered(session, inserted(given));
        self.entries.push_reserved(entry);
        Ok(inserted(given))
    }

    fn delete(&mut self, session: u64, key: u64) -> Result<Reply, AllocError>
        requires opened { is_opened session self.old ≡ true }
        requires rest { waits_for session self.old ≡ None }
        requires room { length self.old.entries < MOST_ENTRIES }
        ensures { MatchResult result (HasAnswered session (Delete key) self.old self.new) (λ _. self.new ≡ self.old) }
    {
        make_room(&mut self.entries, 1, size_of::<KeptEntry>())?;
        let call = KeptCall::new(*self.entries.allocator(), Call::Delete(key))?;
        let found = self.store.delete(key)?;
        let entry = call.answered(session, removed(found));
        self.entries.push_reserved(entry);
        Ok(removed(found))
    }

    fn delete_where(&mut self, session: u64, conds: Conds) -> Result<Reply, AllocError>
        requires opened { is_opened session self.old ≡ true }
        requires rest { waits_for session self.old ≡ None }
        requires below { CallsBelow (length self.old.columns) (DeleteWhere conds) }
        requires room { length self.old.entries < MOST_ENTRIES }
        ensures { MatchResult result
            (HasAnswered session (DeleteWhere conds) self.old self.new)
            (λ _. self.new ≡ self.old) }
    {
        // for the prover: there are eight attributes at most
        let _width = self.schema.len();
        make_room(&mut self.entries, 1, size_of::<KeptEntry>())?;
        let call = KeptCall::new(*self.entries.allocator(), Call::DeleteWhere(conds))?;
        let many = match call.get() {
            Call::DeleteWhere(conds) => self.store.delete_where(conds.as_slice())?,
            _ => unreachable!(),
        };
        let entry = call.answered(session, Reply::RemovedMany(many));
        self.entries.push_reserved(entry);
        Ok(Reply::RemovedMany(many))
    }

    /// How many updates the history has, the opening rows counted.
    pub fn update_count(&self) -> u64
        ensures { result ≡ length (updates self.now) }
    {
        self.store.count() as u64
    }

    /// The updates from a place on, the opening rows counted.
    pub fn updates_from(&self, place: u64) -> &[Update]
        requires { IsCount self.now place }
        ensures { result.now ≡ drop place (updates self.now) }
    {
        self.store.since(place as usize)
    }

    /// How many of the updates are published, the opening rows counted; at first those alone are.
    pub fn published(&self) -> u64
        ensures value { result ≡ self.now.published }
        ensures count { IsCount self.now result }
    {
        self.published
    }

    /// Says how many of the updates are published. Nothing else changes, and no memory is taken.
    ///
    /// The caller's condition: at least as many as before, and at most as many as there are.
    pub fn set_published(&mut self, count: u64)
        requires low { self.old.published ≤ count }
        requires high { count ≤ length (updates self.old) }
        ensures { self.new ≡ with_published count self.old }
    {
        self.published = count;
    }

    /// The record of the history, which is sound and legal. It takes no memory.
    pub fn into_record(self) -> Record
        ensures record_is { result ≡ history_of self }
        ensures sound { IsSound (history_of self) }
        ensures legal { IsLegal (history_of self) }
        ensures given { all_given self.entries ≡ true }
        ensures known { (s : ℕ) → is_opened s self ≡ false → is_absent s self.entries ≡ true }
        ensures closed { ((s : ℕ) → is_opened s self ≡ true → waits_for s self ≡ None) → none_open self.entries ≡ true }
    {
        let Spine {
            schema,
            store,
            entries,
            places: _places,
            taken: _,
            sessions: _,
            published: _,
        } = self;
        let limit = store.limit();
        let rows = store.into_rows();
        Record {
            schema,
            rows,
            limit,
            entries,
        }
    }
}
