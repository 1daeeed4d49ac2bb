//! A head, once it is made, and what waits for it.

ghost use Rattle.std.specs.Prelude.{◌≡◌, ◌<◌, ◌≤◌, ◌+◌, ◌^◌, length, All, IfErr, IfOk, IfSome, IsOkUnless, IsSome, None, OnErr, OnOk};
ghost use Rattle.sw_query.specs.Scan.{AsksBelow, answer};
ghost use Rattle.sw_query.specs.declared.refusal.Refusal.TheVariants.{NoMemory};
ghost use Rattle.sw_table.specs.Updates.{rows_of};
ghost use Rattle.sw_table.specs.declared.row.Row.{Row};
ghost use Rattle.sw_map.specs.Held.{blank};
ghost use Rattle.sw_set.specs.Needs.{head_in};
ghost use Rattle.sw_set.specs.Shelf.{Rises, key_of};
ghost use Rattle.sw_chunks.specs.Cuts.{RiseAbove};
ghost use Rattle.sw_chunks.specs.Routing.{MayFollow};
ghost use Rattle.sw_chunks.specs.declared.places.TheConstants.{MOST_CUTS};
ghost use Rattle.sw_solo.specs.Seats.{received_or, with_more, with_received};

use std::alloc::Global;
use std::marker::Model;
use sw_chunks::{Figures, Head, Waiting};
use sw_map::CrackerMap;
use sw_rows::{PackedRows, Query, Refusal, Reply, Update};

/// What a head was asked, and what its areas tell.
#[derive(Clone, Copy)]
pub struct SeatStats {
    /// How many queries it answered. No clause speaks of it.
    pub queries: u64,
    /// How many areas scanned for them. No clause speaks of it.
    pub scans: u64,
    /// What its areas tell; None before its first query.
    pub figures: Option<Figures>,
}

/// The head of an attribute, once it is made, the blank boxes that wait for it, and how many updates it has received, the
/// opening rows counted.
///
/// Contracts see the attribute, what the head received once it is made, and that number.
#[derive(Drop)]
pub(crate) struct Seat<M: CrackerMap> {
    place: usize,
    head: Option<Head<M>>,
    taken: u64,
    boxes: Waiting<M>,
    queries: u64,
    scans: u64,
}

impl<M: CrackerMap> Model for Seat<M> {
    ghost use Rattle.sw_solo.specs.Seats.{IsSeat, SeatState, seated};

    ghost Value = { SeatState };

    ghost view = { λ s. seated s.place s.head s.taken };

    ghost invariant = { λ s. IsSeat s.place s.head };
}

/// Opening rows, for a head.
fn shared(alloc: Global, rows: &PackedRows) -> Result<PackedRows, Refusal>
    ensures rows { IfOk result (λ p. p.items ≡ rows.now.items) }
    ensures refused { IsOkUnless result NoMemory }
{
    match rows.share(alloc) {
        Ok(shared) => Ok(shared),
        Err(_) => Err(Refusal::NoMemory),
    }
}

impl<M: CrackerMap> Seat<M> {
    /// A seat whose head is not made, and counts so many opening rows as received.
    pub(crate) fn new(alloc: Global, place: usize, taken: u64) -> Seat<M>
        requires { place < 8 }
        ensures { result ≡ record { place = place; received = None; taken = taken } }
    {
        Seat {
            place,
            head: None,
            taken,
            boxes: Waiting::new(alloc),
            queries: 0,
            scans: 0,
        }
    }

    /// How many updates were received, the opening rows counted.
    pub(crate) fn taken(&self) -> u64
        ensures { result ≡ self.now.taken }
    {
        self.taken
    }

    /// Makes the head over the opening rows, if it is not made. Refused `NoMemory` alone, and then nothing has
    /// changed.
    #[tactic(auto, using(crate::proofs::Served::made_seat, crate::proofs::Served::same_seat))]
    pub(crate) fn make(
        &mut self,
        alloc: Global,
        cuts: &[i64],
        rows: &PackedRows,
    ) -> Result<(), Refusal>
        requires rising { RiseAbove None cuts.now }
        requires few { length cuts.now ≤ MOST_CUTS }
        requires keys { All (λ (r : Row). r.key < 2 ^ 63) rows.now.items }
        requires rise { Rises key_of rows.now.items }
        ensures made { OnOk result (self.new ≡ with_received (received_or rows.now.items self.old) self.old) }
        ensures kept { OnErr result (self.new ≡ self.old) }
        ensures refused { IsOkUnless result NoMemory }
    {
        let Seat { place, head, .. } = self;
        if head.is_none() {
            let rows = shared(alloc, rows)?;
            let made = Head::of(alloc, *place as u8, cuts, rows)?;
            *head = Some(made);
        }
        Ok(())
    }

    /// Gives the head the boxes that wait for it, those first that came first. Refused `NoMemory` alone, the rest wait on.
    pub(crate) fn hand_over(&mut self) -> Result<(), Refusal>
        requires { IsSome self.old.received }
        ensures same { self.new ≡ self.old }
        ensures refused { IsOkUnless result NoMemory }
    {
        let Seat { head, boxes, .. } = self;
        let Some(head) = head else {
            unreachable!();
        };
        boxes.hand_all(head)
    }

    /// The head receives updates, and counts so many as received then. Refused `NoMemory` alone, and then it has received
    /// what it had.
    pub(crate) fn receive(&mut self, late: &[Update], count: u64) -> Result<(), Refusal>
        requires made { IsSome self.old.received }
        requires may { IfSome self.old.received (λ us. MayFollow self.old.place us late.now) }
        requires count { count ≡ self.old.taken + length late.now }
        ensures received { OnOk result (self.new ≡ with_more late.now self.old) }
        ensures kept { OnErr result (self.new ≡ self.old) }
        ensures refused { IsOkUnless result NoMemory }
    {
        let Seat { head, taken, .. } = self;
        let Some(head) = head else {
            unreachable!();
        };
        head.receive(late)?;
        *taken = count;
        Ok(())
    }

    /// The answer over all rows that the head received. The one refusal is `NoMemory`.
    pub(crate) fn answer(&mut self, query: &Query) -> Result<Reply, Refusal>
        requires made { IsSome self.old.received }
        requires asks { AsksBelow 8 query.now }
        requires head { head_in query.now.conds ≡ self.old.place }
        ensures same { self.new ≡ self.old }
        ensures answered { IfOk result (λ r. IfSome self.old.received (λ us. r ≡ answer (rows_of us) query.now)) }
        ensures refused { IsOkUnless result NoMemory }
    {
        let Seat {
            head,
            queries,
            scans,
            ..
        } = self;
        let Some(head) = head else {
            unreachable!();
        };
        let (reply, scanned) = head.answer_in_turn(query)?;
        *queries = queries.saturating_add(1);
        *scans = scans.saturating_add(scanned as u64);
        Ok(reply)
    }

    /// Takes a blank box, which waits until the head is asked. Refused `NoMemory`, and that very box comes back.
    pub(crate) fn supply(&mut self, it: M) -> Result<(), (M, Refusal)>
        requires { M.held it ≡ blank }
        ensures same { self.new ≡ self.old }
        ensures refused { IfErr result (λ r. (r.0 ≡ it) × (r.1 ≡ NoMemory)) }
    {
        self.boxes.add(it)
    }

    /// Drops up to so many boxes, those that wait first, and answers how many.
    pub(crate) fn shed(&mut self, most: usize) -> usize
        ensures same { self.new ≡ self.old }
        ensures few { result ≤ most }
    {
        let Seat { head, boxes, .. } = self;
        let gone = boxes.shed(most);
        match head {
            Some(head) => gone + head.shed(most - gone),
            None => gone,
        }
    }

    /// What the head tells of itself in numbers.
    pub(crate) fn stats(&self) -> SeatStats {
        let figures = match &self.head {
            Some(head) => Some(head.figures()),
            None => None,
        };
        SeatStats {
            queries: self.queries,
            scans: self.scans,
            figures,
        }
    }
}
