//! What lies under a head's latch.

ghost use Rattle.std.specs.Prelude.{ℕ, ◌≡◌, ◌+◌, ◌++◌, [], ◌<◌, ◌≤◌, true, false, length, map, take, All, IfErr, IfOk, IfSome, IsOkUnless, OnErr, OnOk};
ghost use Rattle.sw_query.specs.Scan.{AsksBelow, answer};
ghost use Rattle.sw_table.specs.Updates.{rows_of};
ghost use Rattle.sw_query.specs.declared.refusal.Refusal.TheVariants.{NoMemory};
ghost use Rattle.sw_map.specs.Held.{blank};
ghost use Rattle.sw_set.specs.Needs.{head_in};
ghost use Rattle.sw_chunks.specs.Heads.{IsSameHead};
ghost use Rattle.sw_chunks.specs.Routing.{MayFollow};
ghost use Rattle.sw_query.specs.declared.query.Call.TheVariants.{Select};
ghost use Rattle.sw_spine.specs.History.{CallsBelow};
ghost use Rattle.sw_spine.specs.Table.{opened};
ghost use Rattle.sw_engine.specs.declared.heads.latch.TheConstants.{TOGETHER};
ghost use Rattle.sw_versions.specs.Rules.{updates_in};
ghost use Rattle.sw_engine.specs.Desk.{IsSameButBoxes, KeepsBoxes};
ghost use Rattle.sw_engine.specs.Published.{answer_after};

use crate::heads::counting::{Counters, HeadStats, no_figures};
use crate::heads::leading::scan_led;
use crate::heads::opening::Opening;
use std::alloc::Global;
use std::marker::{Model, PhantomData};
use std::sync::atomic::{AtomicU64, Ordering};
use std::thread::Threads;
use sw_chunks::{Head, Waiting};
use sw_map::CrackerMap;
use sw_rows::{Call, PackedRows, Query, Refusal, Reply, Update, Want};
use sw_spine::{KeptQuery, Spine};
use sw_tie::Share;
use sw_versions::{Front, Naming};

/// How many calls are answered together at most. By then what a visit of the lock costs is a small part of them. Who wants the head
/// alone waits for as many.
pub const TOGETHER: usize = 64;

/// What a call asks, if it is a select that lists no rows.
pub(crate) fn short_query(call: &Call) -> Option<&Query>
    ensures { IfSome result (λ q. call.now ≡ Select q.now) }
{
    match call {
        Call::Select(query) => match query.want {
            Want::Rows(_) => None,
            _ => Some(query),
        },
        _ => None,
    }
}

/// The attribute whose head is asked: that of the first condition, or the first attribute.
pub fn head_of(query: &Query) -> usize
    ensures is { result ≡ head_in query.now.conds }
    ensures below { (n : ℕ) → 0 < n → AsksBelow n query.now → result < n }
{
    match query.conds.as_slice().first() {
        Some(cond) => cond.attr,
        None => 0,
    }
}

/// The answer of a head, and how many areas scanned for it. A head whose attribute is not that of the query's scans.
fn ask<M: CrackerMap, R: Threads + Sync>(
    rt: &R,
    alloc: Global,
    head: &mut Head<M>,
    query: &Query,
) -> Result<(Reply, usize), Refusal>
    requires asks { AsksBelow 8 query.now }
    requires attribute { head.old.attribute < 8 }
    ensures same { IsSameHead head.old head.new }
    ensures answered { IfOk result (λ r. r.0 ≡ answer (rows_of head.old.updates) query.now) }
    ensures refused { IsOkUnless result NoMemory }
{
    if usize::from(head.attribute()) != head_of(query) {
        let reply = scan_led(alloc, head, query)?;
        return Ok((reply, head.areas().len()));
    }
    head.answer(rt, query)
}

/// The answer of a head as it stands, if it is ready for the query, and its attribute is that of the query.
fn ask_at_rest<M: CrackerMap>(head: &Head<M>, query: &Query) -> Option<Reply>
    requires asks { AsksBelow 8 query.now }
    ensures { IfSome result (λ r. r ≡ answer (rows_of head.now.updates) query.now) }
{
    if usize::from(head.attribute()) != head_of(query) {
        return None;
    }
    match head.answer_at_rest(query) {
        Ok(reply) => reply,
        Err(_) => None,
    }
}

/// What a head answers as it stands, with a copy of the query and one of the reply, for the history. None too where there is no memory
/// for the copies.
fn ask_for_both<M: CrackerMap>(
    alloc: Global,
    head: &Head<M>,
    query: &Query,
) -> Option<(KeptQuery, Reply, Reply)>
    requires asks { AsksBelow 8 query.now }
    ensures asked { IfSome result (λ r. r.0 ≡ query.now) }
    ensures plain { IfSome result (λ r. r.1 ≡ answer (rows_of head.now.updates) query.now) }
    ensures same { IfSome result (λ r. r.2 ≡ r.1) }
{
    let reply = ask_at_rest(head, query)?;
    let Ok(copy) = query.copied(alloc) else {
        return None;
    };
    let Ok(asked) = KeptQuery::new(alloc, copy) else {
        return None;
    };
    let Ok(kept) = reply.copied(alloc) else {
        return None;
    };
    Some((asked, kept, reply))
}

/// The head receives what waits for it. The one refusal is `NoMemory`, and then both are as they were.
fn receive_all<M: CrackerMap>(head: &mut Head<M>, inbox: &mut Vec<Update>) -> Result<(), Refusal>
    requires may { MayFollow head.old.attribute head.old.updates inbox.old.items }
    ensures attribute { head.new.attribute ≡ head.old.attribute }
    ensures received { OnOk result (head.new.updates ≡ head.old.updates ++ inbox.old.items) }
    ensures emptied { OnOk result (inbox.new.items ≡ []) }
    ensures kept { OnErr result ((head.new.updates ≡ head.old.updates) × (inbox.new.items ≡ inbox.old.items)) }
    ensures refused { IsOkUnless result NoMemory }
{
    head.receive(inbox.as_slice())?;
    inbox.clear();
    Ok(())
}

/// What a head answered as it stands: the query, its answer twice, of which one is for the caller and one for the history, and a
/// receipt of the updates over which it was answered.
#[derive(Drop)]
pub struct AtRest<J: Naming> {
    pub(crate) asked: KeptQuery,
    pub(crate) reply: Reply,
    pub(crate) kept: Reply,
    pub(crate) receipt: Front<J>,
    pub ghost same: { kept ≡ reply },
    pub ghost plain: { reply ≡ answer_after J.limit J.opening (updates_in receipt) asked },
}

/// What a head answered as it stands, of queries one after the other: each with its reply, for the history, and the replies once
/// more, for the caller; and a receipt of the updates over which they were answered.
#[derive(Drop)]
pub struct AllAtRest<J: Naming> {
    pub(crate) kept: Vec<(KeptQuery, Reply)>,
    pub(crate) replies: Vec<Reply>,
    pub(crate) receipt: Front<J>,
    pub ghost same: { replies.items ≡ map (λ t. t.1) kept.items },
    pub ghost plain: { All (λ t. t.1 ≡ answer_after J.limit J.opening (updates_in receipt) t.0) kept.items },
}

/// A head, once it is made, the boxes that wait for it, and the updates that were taken for it and that it has not
/// received.
///
/// Contracts see all that was taken for it, the opening rows first, whether the head is made, and how many boxes wait
/// for it and how many it has.
pub struct LatchedHead<J: Naming, M: CrackerMap> {
    /// First, on the line of the latch's word, which those who share the head change too.
    pub(crate) counters: Counters,
    /// Unused, so that what they look at is on other lines, and is not fetched with that one.
    pub(crate) apart: [u64; 16],
    pub(crate) number: usize,
    pub(crate) head: Option<Head<M>>,
    pub(crate) inbox: Vec<Update>,
    pub(crate) boxes: Waiting<M>,
    pub(crate) share: Share<Spine>,
    /// A receipt of all that was taken for it, where there is one.
    pub(crate) receipt: Option<Front<J>>,
    pub(crate) of: PhantomData<J>,
}

// By hand: the drop of a derived one is written out at each way out of a function.
impl<J: Naming, M: CrackerMap> Drop for LatchedHead<J, M> {
    fn drop(self) {
        let Self {
            counters: _,
            apart: _,
            number: _,
            head: _head,
            inbox: _inbox,
            boxes: _boxes,
            share: _share,
            receipt: _receipt,
            of: _,
        } = self;
    }
}

impl<J: Naming, M: CrackerMap> Model for LatchedHead<J, M> {
    ghost use Rattle.sw_engine.specs.Desk.{IsLatched, LatchState, latched};

    ghost Value = { LatchState };

    ghost view = { λ h. latched J.opening h.head h.inbox.items h.boxes };

    ghost invariant = { λ h. IsLatched J.heads J.limit J.columns J.opening h.number h.head h.inbox.items h.share h.receipt };
}

impl<J: Naming, M: CrackerMap> LatchedHead<J, M> {
    /// Whether the head is made.
    pub(crate) fn is_made(&self) -> bool
        ensures { result ≡ self.now.made }
    {
        self.head.is_some()
    }

    /// Makes the head from the opening rows, a copy of which it takes over, if it was never asked. Refused `NoMemory`
    /// alone, and then nothing has changed.
    #[tactic(auto, using(crate::proofs::Latches::made_latch, crate::proofs::Latches::same_latch))]
    pub(crate) fn make(
        &mut self,
        alloc: Global,
        opening: &Opening<J>,
        rows: PackedRows,
    ) -> Result<(), Refusal>
        requires { rows.items ≡ J.opening }
        ensures made { OnOk result (self.new ≡ record self.old { made = true }) }
        ensures kept { OnErr result (self.new ≡ self.old) }
        ensures refused { IsOkUnless result NoMemory }
    {
        let LatchedHead { number, head, .. } = self;
        if head.is_none() {
            let made = opening.head(alloc, *number, rows)?;
            *head = Some(made);
        }
        Ok(())
    }

    /// Gives the head the boxes that wait for it, those first that came first. Refused `NoMemory` alone, the rest wait
    /// on: none is lost.
    pub(crate) fn hand_over(&mut self) -> Result<(), Refusal>
        requires { self.old.made ≡ true }
        ensures same { IsSameButBoxes self.old self.new }
        ensures boxes { KeepsBoxes self.old self.new }
        ensures handed { OnOk result (self.new.waiting ≡ 0) }
        ensures refused { IsOkUnless result NoMemory }
    {
        let LatchedHead { head, boxes, .. } = self;
        let Some(head) = head else {
            unreachable!();
        };
        boxes.hand_all(head)
    }

    /// Takes in what lies in the inbox. Refused `NoMemory` alone; whatever comes, what was taken for the head stays.
    pub(crate) fn receive(&mut self) -> Result<(), Refusal>
        requires { self.old.made ≡ true }
        ensures same { self.new ≡ record self.old { held = self.new.held } }
        ensures refused { IsOkUnless result NoMemory }
    {
        let LatchedHead { head, inbox, .. } = self;
        let Some(head) = head else {
            unreachable!();
        };
        receive_all(head, inbox)
    }

    /// Takes in what lies in the inbox, and answers.
    fn serve<R: Threads + Sync>(
        &mut self,
        rt: &R,
        alloc: Global,
        query: &Query,
    ) -> Result<Reply, Refusal>
        requires made { self.old.made ≡ true }
        requires asks { AsksBelow 8 query.now }
        ensures same { self.new ≡ record self.old { held = self.new.held } }
        ensures answered { IfOk result (λ r. r ≡ answer (rows_of self.old.taken) query.now) }
        ensures refused { IsOkUnless result NoMemory }
    {
        let LatchedHead {
            head,
            inbox,
            counters,
            ..
        } = self;
        let Some(head) = head else {
            unreachable!();
        };
        receive_all(head, inbox)?;
        let (reply, scans) = ask(rt, alloc, head, query)?;
        counters.count(scans);
        Ok(reply)
    }

    /// Takes in what lies in the inbox, and answers twice: one reply is for the caller, one for the history.
    ///
    /// Refused `NoMemory` alone; whatever comes, what was taken for it stays.
    pub(crate) fn answer<R: Threads + Sync>(
        &mut self,
        rt: &R,
        alloc: Global,
        query: &Query,
    ) -> Result<(Reply, Reply), Refusal>
        requires made { self.old.made ≡ true }
        requires asks { AsksBelow 8 query.now }
        ensures same { self.new ≡ record self.old { held = self.new.held } }
        ensures answered { IfOk result (λ r. (r.0 ≡ answer (rows_of self.old.taken) query.now) × (r.1 ≡ r.0)) }
        ensures refused { IsOkUnless result NoMemory }
    {
        let reply = self.serve(rt, alloc, query)?;
        match reply.copied(alloc) {
            Ok(kept) => Ok((reply, kept)),
            Err(_) => Err(Refusal::NoMemory),
        }
    }

    /// Keeps a receipt of all that was taken for the head, after the opening rows.
    pub(crate) fn keep(&mut self, receipt: Front<J>)
        requires { self.old.taken ≡ opened J.opening ++ updates_in receipt }
        ensures { self.new ≡ self.old }
    {
        self.receipt = Some(receipt);
    }

    /// Whether the head has a receipt of so many updates or more, so that it is worth to ask it as it stands. No clause rests
    /// on it.
    pub(crate) fn may_have(&self, updates: u64) -> bool {
        match &self.receipt {
            Some(receipt) => receipt.len() >= updates,
            None => false,
        }
    }

    /// Counts so many queries that the head answered as it stands, once they stand in the history.
    pub(crate) fn count_at_rest(&self, many: usize) {
        self.counters.count_at_rest(many);
    }

    /// The head, and the receipt of what was taken for it. None where it is not made, or waits for a box or an update, or has no
    /// receipt of what was taken for it.
    fn at_rest(&self) -> Option<(&Head<M>, &Front<J>)>
        ensures { IfSome result (λ r. r.0.now.updates ≡ opened J.opening ++ updates_in r.1.now) }
    {
        let Some(head) = &self.head else {
            return None;
        };
        let Some(receipt) = &self.receipt else {
            return None;
        };
        if self.inbox.len() > 0 || self.boxes.len() > 0 {
            return None;
        }
        Some((head, receipt))
    }

    /// What the head answers as it stands. Nothing but stamps changes, so many may be answered at a time.
    ///
    /// None where it is not at rest; where an area is not ready for the query as it stands, or its attribute is another one; and
    /// where there is no memory.
    pub(crate) fn answer_at_rest(&self, alloc: Global, query: &Query) -> Option<AtRest<J>>
        requires asks { AsksBelow 8 query.now }
        ensures asked { IfSome result (λ r. r.asked ≡ query.now) }
    {
        let (head, receipt) = self.at_rest()?;
        let (asked, kept, reply) = ask_for_both(alloc, head, query)?;
        Some(AtRest {
            asked,
            reply,
            kept,
            receipt: receipt.again(),
        })
    }

    /// What a head answers as it stands of the first of these calls: up to the first that is no select of that head, or lists rows, or
    /// that it is not ready for, or for whose copies there is no memory; and of no more than `TOGETHER`. Each query has its reply, and
    /// the replies come once more. None where there is no memory for the lists, and where more updates came than it `had`, as far as
    /// commits told.
    fn ask_all(
        alloc: Global,
        head: &Head<M>,
        had: u64,
        came: &AtomicU64,
        calls: &[Call],
    ) -> Option<(Vec<(KeptQuery, Reply)>, Vec<Reply>)>
        requires width { length J.columns ≤ 8 }
        requires asks { All (CallsBelow (length J.columns)) calls.now }
        ensures few { IfSome result (λ r. length r.0.items ≤ length calls.now) }
        ensures most { IfSome result (λ r. length r.0.items ≤ TOGETHER) }
        ensures asked { IfSome result (λ r. map (λ t. Select t.0) r.0.items ≡ take (length r.0.items) calls.now) }
        ensures plain { IfSome result (λ r. All (λ t. t.1 ≡ answer (rows_of head.now.updates) t.0) r.0.items) }
        ensures same { IfSome result (λ r. r.1.items ≡ map (λ t. t.1) r.0.items) }
    {
        let mut kept = Vec::new(alloc);
        let mut replies = Vec::new(alloc);
        let (firsts, _) = calls.split_at(TOGETHER.min(calls.len()));
        if kept.reserve(firsts.len()).is_err() {
            return None;
        }
        if replies.reserve(firsts.len()).is_err() {
            return None;
        }
        for call in firsts {
            let Some(query) = short_query(call) else {
                return Some((kept, replies));
            };
            if came.load(Ordering::SeqCst) > had {
                return None;
            }
            let Some((asked, copy, reply)) = ask_for_both(alloc, head, query) else {
                return Some((kept, replies));
            };
            kept.push_reserved((asked, copy));
            replies.push_reserved(reply);
        }
        Some((kept, replies))
    }

    /// What the head answers as it stands of the first of these calls, as far as it does, and as far as they list no rows: of no
    /// more than `TOGETHER`. None where it is not at rest, where there is no memory for the lists, and where updates came that it
    /// lacks, as far as commits told.
    pub(crate) fn answer_all_at_rest(
        &self,
        alloc: Global,
        came: &AtomicU64,
        calls: &[Call],
    ) -> Option<AllAtRest<J>>
        requires width { length J.columns ≤ 8 }
        requires asks { All (CallsBelow (length J.columns)) calls.now }
        ensures few { IfSome result (λ r. length r.kept.items ≤ length calls.now) }
        ensures most { IfSome result (λ r. length r.kept.items ≤ TOGETHER) }
        ensures asked { IfSome result (λ r. map (λ t. Select t.0) r.kept.items ≡ take (length r.kept.items) calls.now) }
    {
        let (head, receipt) = self.at_rest()?;
        let (kept, replies) = LatchedHead::<J, M>::ask_all(
            alloc,
            head,
            receipt.len(),
            came,
            calls,
        )?;
        Some(AllAtRest {
            kept,
            replies,
            receipt: receipt.again(),
        })
    }

    /// What the head tells of itself in numbers: no area before it is made.
    pub(crate) fn stats(&self) -> HeadStats
        ensures { self.now.made ≡ false → result.figures.areas ≡ 0 }
    {
        match &self.head {
            Some(head) => self.counters.beside(head.figures()),
            None => self.counters.beside(no_figures()),
        }
    }

    /// Takes a blank box, which waits until the head is asked. Refused `NoMemory`, nothing has changed, and that very
    /// box comes back.
    pub(crate) fn supply(&mut self, it: M) -> Result<(), (M, Refusal)>
        requires { M.held it ≡ blank }
        ensures kept { OnOk result (self.new ≡ record self.old { waiting = self.old.waiting + 1 }) }
        ensures refused { IfErr result (λ r. (self.new ≡ self.old) × (r.0 ≡ it) × (r.1 ≡ NoMemory)) }
    {
        self.boxes.add(it)
    }

    /// Drops up to so many boxes, those that wait first, and answers how many: as many as that, or all.
    pub(crate) fn shed(&mut self, most: usize) -> usize
        ensures same { IsSameButBoxes self.old self.new }
        ensures left { self.new.waiting + self.new.held + result ≡ self.old.waiting + self.old.held }
        ensures few { result ≤ most }
        ensures all { result < most → self.new.waiting + self.new.held ≡ 0 }
    {
        let LatchedHead { head, boxes, .. } = self;
        let gone = boxes.shed(most);
        match head {
            Some(head) => gone + head.shed(most - gone),
            None => gone,
        }
    }
}
