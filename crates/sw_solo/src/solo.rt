//! The engine.

ghost use Rattle.std.specs.Prelude.{ℕ, ◌≡◌, ◌<◌, ◌≤◌, ◌+◌, ◌∷◌, [], true, false, length, IfErr, IfOk, IfSome, IsOkUnless, OnErr, OnOk};
ghost use Rattle.sw_rows.specs.Gives.{Gives};
ghost use Rattle.sw_rows.specs.Header.{IsSchema, has_texts, texts_of};
ghost use Rattle.sw_rows.specs.Texts.{cell_given, is_text};
ghost use Rattle.sw_lang.specs.Learning.{knowing, learned};
ghost use Rattle.sw_lang.specs.Reading.{Answers, line_at, refused};
ghost use Rattle.sw_query.specs.Scan.{AsksBelow, answer};
ghost use Rattle.sw_query.specs.declared.query.Call.TheVariants.{Select};
ghost use Rattle.sw_query.specs.declared.refusal.Refusal.TheVariants.{NoMemory};
ghost use Rattle.sw_rows.specs.declared.table.TheConstants.{MOST_ROWS};
ghost use Rattle.sw_lang.specs.Cuts.{AreCuts, cuts_on};
ghost use Rattle.sw_map.specs.Held.{blank};
ghost use Rattle.sw_set.specs.Needs.{head_in};
ghost use Rattle.sw_table.specs.Updates.{rows_of};
ghost use Rattle.sw_spine.specs.Table.{is_numbered};
ghost use Rattle.sw_spine.specs.Listed.{met};
ghost use Rattle.sw_spine.specs.History.{CallsBelow, IsLegal, is_select, updates_of};
ghost use Rattle.sw_spine.specs.Rest.{none_open};
ghost use Rattle.sw_spine.specs.Books.{RefusesRows, forgetting, updates};
ghost use Rattle.sw_solo.specs.Called.{HasCalled, RefusesCall, RefusesSession, new_solo, reply_in, with_columns};
ghost use Rattle.sw_solo.specs.Seats.{AreNewSeats, IsSeated};

use crate::seat::{Seat, SeatStats};
use std::alloc::{AllocError, Global};
use std::marker::Model;
use sw_lang::Cuts;
use sw_map::CrackerMap;
use sw_rows::{Call, PackedRows, Query, Refusal, Reply, Schema, Update, scan};
use sw_spine::{Given, Record, RecordRef, Spine};

/// The attribute whose head is asked: that of the first condition, or the first attribute.
fn place_of(query: &Query) -> usize
    ensures is { result ≡ head_in query.now.conds }
    ensures below { (n : ℕ) → 0 < n → AsksBelow n query.now → result < n }
{
    match query.conds.as_slice().first() {
        Some(cond) => cond.attr,
        None => 0,
    }
}

/// A copy of a call.
fn copied(alloc: Global, call: &Call) -> Result<Call, Refusal>
    ensures copy { IfOk result (λ c. c ≡ call.now) }
    ensures refused { IsOkUnless result NoMemory }
{
    match call {
        Call::Select(query) => match query.copied(alloc) {
            Ok(query) => Ok(Call::Select(query)),
            Err(_) => Err(Refusal::NoMemory),
        },
        Call::Insert(cells) => Ok(Call::Insert(*cells)),
        Call::Delete(key) => Ok(Call::Delete(*key)),
        Call::DeleteWhere(conds) => match conds.copied(alloc) {
            Ok(conds) => Ok(Call::DeleteWhere(conds)),
            Err(_) => Err(Refusal::NoMemory),
        },
    }
}

/// A seat for each attribute.
#[tactic(auto, using(crate::proofs::Stands::seats_push))]
fn all_seats<M: CrackerMap>(
    alloc: Global,
    columns: usize,
    taken: u64,
) -> Result<Vec<Seat<M>>, AllocError>
    requires { columns ≤ 8 }
    ensures { IfOk result (λ v. AreNewSeats taken columns v.items) }
{
    let mut seats = Vec::new(alloc);
    for place in 0..columns {
        seats.push(Seat::new(alloc, place, taken))?;
    }
    Ok(seats)
}

/// Tells a caller what holds of the attributes: there are one to eight.
fn known(spine: &Spine)
    ensures { IsSchema spine.now.columns }
{
    let _width = spine.schema().len();
}

/// Makes the head of a seat, gives it what waits for it, and asks it. The one refusal is `NoMemory`.
fn serve<M: CrackerMap>(
    alloc: Global,
    spine: &Spine,
    cuts: &[i64],
    seat: &mut Seat<M>,
    query: &Query,
) -> Result<Reply, Refusal>
    requires seated { IsSeated spine.now seat.old.place seat.old }
    requires cuts { AreCuts cuts.now }
    requires asks { AsksBelow 8 query.now }
    requires head { head_in query.now.conds ≡ seat.old.place }
    ensures seated { IsSeated spine.now seat.old.place seat.new }
    ensures answered { IfOk result (λ r. r ≡ answer (rows_of (updates spine.now)) query.now) }
    ensures refused { IsOkUnless result NoMemory }
{
    // for the prover: the history is sound
    let _entries = spine.entries();
    seat.make(alloc, cuts, spine.opening_rows())?;
    seat.hand_over()?;
    let late = spine.updates_from(seat.taken());
    seat.receive(late, spine.update_count())?;
    seat.answer(query)
}

/// A table, the history of its calls, and a head for each attribute, for one visitor at a time.
///
/// Contracts see the history so far, and how many sessions were opened.
#[derive(Drop)]
pub struct Solo<M: CrackerMap> {
    alloc: Global,
    spine: Spine,
    sessions: u64,
    cuts: Cuts,
    seats: Vec<Seat<M>>,
    inbox: Vec<Update>,
}

impl<M: CrackerMap> Model for Solo<M> {
    ghost use Rattle.std.specs.Prelude.{◌≡◌};
    ghost use Rattle.sw_solo.specs.Called.{AllRest, SoloState, solo_of};
    ghost use Rattle.sw_solo.specs.Seats.{AreSeated, AreTableCuts};

    ghost Value = { SoloState };

    ghost view = { λ s. solo_of s.spine };

    ghost invariant = { λ s.
        AllRest s.spine × AreSeated s.spine s.seats.items × AreTableCuts s.spine s.cuts × (s.sessions ≡ s.spine.sessions) };
}

impl<M: CrackerMap> Solo<M> {
    /// An engine over opening rows, with no session. No head is made.
    ///
    /// Refused `TooMany` of the limit where there are more rows, `NoMemory` otherwise. The caller's conditions: the limit
    /// is 1 to 1,048,576, the rows have the keys 1, 2, 3 and so on, there are 1 to 8 attributes, and the cuts are lawful: a
    /// list for each attribute, of at most 15 values that rise.
    pub fn open(
        alloc: Global,
        schema: Schema,
        rows: PackedRows,
        cuts: Cuts,
        limit: u64,
    ) -> Result<Solo<M>, Refusal>
        requires some { 0 < limit }
        requires most { limit ≤ MOST_ROWS }
        requires numbered { is_numbered 1 rows.items ≡ true }
        requires lists { length cuts ≡ length schema }
        requires cuts { (a : ℕ) → a < length schema → AreCuts (cuts_on cuts a) }
        ensures opened { IfOk result (λ s. s ≡ new_solo schema rows.items limit) }
        ensures refused { IfErr result (RefusesRows limit rows.items) }
    {
        let columns = schema.len();
        let spine = Spine::new(alloc, schema, rows, limit)?;
        let Ok(seats) = all_seats(alloc, columns, spine.update_count()) else {
            return Err(Refusal::NoMemory);
        };
        Ok(Solo {
            alloc,
            spine,
            sessions: 0,
            cuts,
            seats,
            inbox: Vec::new(alloc),
        })
    }

    /// The attributes.
    pub fn schema(&self) -> &Schema
        ensures { result.now ≡ self.now.history.columns }
    {
        self.spine.schema()
    }

    /// Opens the next session and answers its number, from 1. Refused `TooMany` of limit 1,024, or `NoMemory`; then nothing
    /// has changed.
    pub fn session(&mut self) -> Result<u64, Refusal>
        ensures number { IfOk result (λ n. n ≡ self.old.sessions + 1) }
        ensures opened { OnOk result (self.new ≡ record self.old { sessions = self.old.sessions + 1 }) }
        ensures kept { OnErr result (self.new ≡ self.old) }
        ensures refused { IfErr result (RefusesSession self.old) }
    {
        let number = self.spine.open_session()?;
        self.sessions = number;
        Ok(number)
    }

    /// How many sessions were opened.
    pub fn sessions(&self) -> u64
        ensures { result ≡ self.now.sessions }
    {
        self.sessions
    }

    /// The history so far, as a record that is read where it stands. It is legal, and no entry of it is open.
    pub fn history(&self) -> RecordRef<'_>
        ensures record_is { result ≡ self.now.history }
        ensures legal { IsLegal self.now.history }
    {
        self.spine.record()
    }

    /// The rows ever inserted, of which a pass meets those that the plain table has at the history's end. Many may go over
    /// them while no call is made.
    pub fn view(&self) -> Given<'_>
        ensures { met result ≡ rows_of (updates_of self.now.history) }
    {
        self.spine.given()
    }

    /// What a query is answered over these rows. It is no call: no head is asked, and nothing is kept of it.
    pub fn look(&self, query: &Query) -> Result<Reply, Refusal>
        requires { AsksBelow (length self.now.history.columns) query.now }
        ensures answered { IfOk result (λ r. r ≡ reply_in self.now (Select query.now)) }
        ensures refused { IsOkUnless result NoMemory }
    {
        known(&self.spine);
        scan(self.alloc, &self.view(), query)
    }

    /// The call of a line, whose texts become known, as `parse_line` of sw_lang reads it. Refused, nothing has changed.
    pub fn read_line(&mut self, line: u32, text: &str) -> Result<Option<Call>, Refusal>
        ensures read { Answers result (refused line (line_at (learned self.old.history.columns text.now) text.now)) }
        ensures below { IfOk result (λ call. IfSome call (CallsBelow (length self.old.history.columns))) }
        ensures learned { OnOk result (self.new ≡ with_columns (learned self.old.history.columns text.now) self.old) }
        ensures unchanged { OnErr result (self.new ≡ self.old) }
    {
        match self.spine.read_line(line, text) {
            Ok(call) => Ok(call),
            Err(e) => Err(e),
        }
    }

    /// The code of a text, which becomes known where it is not. Refused, nothing has changed: `TooMany` where there are as
    /// many texts as there may be, or `NoMemory`.
    ///
    /// The caller's conditions: an attribute is of texts, and the text may be one of a cell.
    pub fn add_text(&mut self, text: &str) -> Result<i64, Refusal>
        requires some { has_texts self.old.history.columns ≡ true }
        requires text { is_text text.now ≡ true }
        ensures code { Gives ⊥ (λ code. code) result (cell_given (texts_of self.old.history.columns) text.now) }
        ensures added { OnOk result (self.new ≡ with_columns (knowing (text.now ∷ []) self.old.history.columns) self.old) }
        ensures unchanged { OnErr result (self.new ≡ self.old) }
    {
        match self.spine.add_text(text) {
            Ok(code) => Ok(code),
            Err(e) => Err(e),
        }
    }

    /// Forgets the texts that came last, so that the first `count` are left. Where there are no more, nothing changes.
    pub fn forget_texts(&mut self, count: usize)
        ensures { self.new ≡ with_columns (forgetting count self.old.history.columns) self.old }
    {
        self.spine.forget_texts(count);
    }

    /// What a query is answered, by the head of its first condition's attribute. Nothing that contracts see changes.
    fn ask(&mut self, query: &Query) -> Result<Reply, Refusal>
        requires { AsksBelow (length self.old.history.columns) query.now }
        ensures same { self.new ≡ self.old }
        ensures answered { IfOk result (λ r. r ≡ reply_in self.old (Select query.now)) }
        ensures refused { IsOkUnless result NoMemory }
    {
        let Solo {
            alloc,
            spine,
            cuts,
            seats,
            ..
        } = self;
        known(spine);
        let place = place_of(query);
        serve(*alloc, spine, cuts.of(place), &mut seats[place], query)
    }

    fn select(&mut self, session: u64, query: Query) -> Result<Reply, Refusal>
        requires some { 0 < session }
        requires opened { session ≤ self.old.sessions }
        requires below { CallsBelow (length self.old.history.columns) (Select query) }
        ensures called { IfOk result (HasCalled session (Select query) self.old self.new) }
        ensures kept { OnErr result (self.new ≡ self.old) }
        ensures refused { IfErr result (RefusesCall self.old) }
    {
        let reply = self.ask(&query)?;
        let Ok(told) = reply.copied(self.alloc) else {
            return Err(Refusal::NoMemory);
        };
        self.keep(session, query, told)?;
        Ok(reply)
    }

    /// A select stands answered at the history's end. Refused, nothing has changed.
    fn keep(&mut self, session: u64, query: Query, reply: Reply) -> Result<(), Refusal>
        requires some { 0 < session }
        requires opened { session ≤ self.old.sessions }
        requires below { CallsBelow (length self.old.history.columns) (Select query) }
        requires reply { reply ≡ reply_in self.old (Select query) }
        ensures called { OnOk result (HasCalled session (Select query) self.old self.new reply) }
        ensures kept { OnErr result (self.new ≡ self.old) }
        ensures refused { IfErr result (RefusesCall self.old) }
    {
        let Solo { spine, inbox, .. } = self;
        spine.begin(session, query, 0, inbox)?;
        inbox.clear();
        spine.finish(session, reply);
        Ok(())
    }

    fn change(&mut self, session: u64, call: Call) -> Result<Reply, Refusal>
        requires some { 0 < session }
        requires opened { session ≤ self.old.sessions }
        requires changes { is_select call ≡ false }
        requires below { CallsBelow (length self.old.history.columns) call }
        ensures called { IfOk result (HasCalled session call self.old self.new) }
        ensures kept { OnErr result (self.new ≡ self.old) }
        ensures refused { IfErr result (RefusesCall self.old) }
    {
        self.spine.commit(session, call)
    }

    /// Makes a call of a session: the reply is that of one thread over a plain list of rows, and the history has that entry
    /// more at its end.
    ///
    /// Refused `NoMemory`, or `HistoryFull`; then nothing has changed. The caller's conditions: the session was opened, and
    /// the call names attributes of the table, 1 to 8 where it asks for rows.
    pub fn make(&mut self, session: u64, call: Call) -> Result<Reply, Refusal>
        requires some { 0 < session }
        requires opened { session ≤ self.old.sessions }
        requires below { CallsBelow (length self.old.history.columns) call }
        ensures called { IfOk result (HasCalled session call self.old self.new) }
        ensures kept { OnErr result (self.new ≡ self.old) }
        ensures refused { IfErr result (RefusesCall self.old) }
    {
        match call {
            Call::Select(query) => self.select(session, query),
            Call::Insert(cells) => self.change(session, Call::Insert(cells)),
            Call::Delete(key) => self.change(session, Call::Delete(key)),
            Call::DeleteWhere(conds) => self.change(session, Call::DeleteWhere(conds)),
        }
    }

    /// The same of a copy of the call.
    pub fn call(&mut self, session: u64, call: &Call) -> Result<Reply, Refusal>
        requires some { 0 < session }
        requires opened { session ≤ self.old.sessions }
        requires below { CallsBelow (length self.old.history.columns) call.now }
        ensures called { IfOk result (HasCalled session call.now self.old self.new) }
        ensures kept { OnErr result (self.new ≡ self.old) }
        ensures refused { IfErr result (RefusesCall self.old) }
    {
        let made = copied(self.alloc, call)?;
        self.make(session, made)
    }

    /// Gives a blank box to a head, which has it from its next select on. Refused `NoMemory`, and that very box comes back.
    pub fn supply(&mut self, head: usize, it: M) -> Result<(), (M, Refusal)>
        requires place { head < length self.old.history.columns }
        requires blank { M.held it ≡ blank }
        ensures same { self.new ≡ self.old }
        ensures refused { IfErr result (λ r. (r.0 ≡ it) × (r.1 ≡ NoMemory)) }
    {
        self.seats[head].supply(it)
    }

    /// Drops up to so many boxes of a head, and answers how many.
    pub fn shed(&mut self, head: usize, most: usize) -> usize
        requires { head < length self.old.history.columns }
        ensures same { self.new ≡ self.old }
        ensures few { result ≤ most }
    {
        self.seats[head].shed(most)
    }

    /// What a head tells of itself in numbers.
    pub fn stats(&self, head: usize) -> SeatStats
        requires { head < length self.now.history.columns }
    {
        self.seats[head].stats()
    }

    /// The record of the history, which is legal: each reply in it is that of one thread over a plain list of rows. It
    /// takes no memory.
    pub fn close(self) -> Record
        ensures record_is { result ≡ self.history }
        ensures legal { IsLegal self.history }
        ensures closed { none_open self.history.entries ≡ true }
    {
        let Solo { spine, .. } = self;
        spine.into_record()
    }
}
