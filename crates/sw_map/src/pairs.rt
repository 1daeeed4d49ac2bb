//! Pairs of head and tail as two flat lists and marks.

ghost use Rattle.std.specs.Prelude.{◌≡◌, ◌+◌, ◌++◌, ◌<◌, ◌≤◌, ◌^◌, All, IsOk, MatchResult, length, map, pos, slice_index_or, slice_range, vec_len, []};
ghost use Rattle.sw_query.specs.declared.refusal.Refusal.TheVariants.{NoMemory};
ghost use Rattle.sw_table.specs.declared.row.Row.{Row};
ghost use Rattle.sw_table.specs.Packed.{HasRoomFor, IsSameRoom};
ghost use Rattle.sw_query.specs.Scan.{cell_of};
ghost use Rattle.sw_kernel.specs.Arrangement.{joined, last};
ghost use Rattle.sw_kernel.specs.Replay.{inserted, loaded, ranged, removed, shown_step};
ghost use Rattle.sw_tape.specs.Entries.{step_of};
ghost use Rattle.sw_map.specs.Held.{KeysFit, pair_in, place_of, tail_value};
ghost use Rattle.sw_map.specs.Twins.{HaveSameHeads};
ghost use Rattle.sw_map.specs.Pieces.{HasPlace, HasRoomAfter, HasSteppedOr, TakesNoMemory, stepped};

use crate::crack::crack_range;
use crate::lists::{Lists, make_room};
use crate::places::find_mark;
use crate::tail::Tail;
use crate::twins::crack_twins;
use std::alloc::Global;
use std::marker::Model;
use sw_kernel::{Mark, ripple_in, ripple_out};
use sw_query::{Bound, Refusal, Row};
use sw_tape::{Entry, LoadRows};

/// Pairs of head and tail in pieces between bounds. Contracts see the pieces, and for how many pairs there is room; the lists
/// have memory for as many or some more.
#[derive(Drop)]
pub struct Pairs {
    lists: Lists,
    marks: Vec<Mark>,
    room: usize,
}

impl Model for Pairs {
    ghost use Rattle.sw_map.specs.Pieces.{Table, IsTable, table_of};
    ghost use Rattle.sw_map.specs.PairsCode.{table_code};

    ghost Value = { Table };

    ghost coded = { table_code };

    ghost view = { λ s. table_of s.lists.head s.lists.tail s.marks.items s.room };

    ghost invariant = { λ s. IsTable s.lists.head s.lists.tail s.marks.items s.room };
}

/// A row's cell of an attribute; 0 past the last.
fn cell_of(row: &Row, attribute: u8) -> i64
    ensures { result ≡ cell_of attribute row.now }
{
    let at = attribute as usize;
    if at < 8 { row.cells[at] } else { 0 }
}

/// What a tail shows of a row whose key fits a cell.
fn shown_by(tail: Tail, row: &Row) -> i64
    requires { row.now.key < 2 ^ 63 }
    ensures { result ≡ tail_value tail row.now }
{
    match tail {
        Tail::Key => row.key as i64,
        Tail::Cell(attribute) => cell_of(row, attribute),
    }
}

/// The value at a place.
fn value_at(values: &[i64], place: usize) -> i64
    requires { place < length values.now }
    ensures { result ≡ slice_index_or values.now place (pos 0) }
{
    values[place]
}

/// Copies the values from a place on into a slice, as many as it has.
fn copy_part(values: &[i64], place: usize, part: &mut [i64])
    requires { place + length part.old ≤ length values.now }
    ensures { part.new ≡ slice_range values.now place (place + length part.old) }
{
    let end = place + part.len();
    part.copy_from_slice(&values[place..end]);
}

/// Puts the heads and the tails of rows at the end of these lists, in which there is room.
fn append_pairs(heads: &mut Vec<i64>, tails: &mut Vec<i64>, head: u8, tail: Tail, rows: &LoadRows)
    requires heads { HasRoomFor (length rows.now.items) heads.old }
    requires tails { HasRoomFor (length rows.now.items) tails.old }
    requires keys { All (λ (r : Row). r.key < 2 ^ 63) rows.now.items }
    ensures heads { heads.new.items ≡ heads.old.items ++ map (cell_of head) rows.now.items }
    ensures tails { tails.new.items ≡ tails.old.items ++ map (tail_value tail) rows.now.items }
    ensures more_heads { vec_len heads.new ≡ vec_len heads.old + length rows.now.items }
    ensures more_tails { vec_len tails.new ≡ vec_len tails.old + length rows.now.items }
    ensures room { IsSameRoom heads.old heads.new × IsSameRoom tails.old tails.new }
{
    match tail {
        Tail::Key => rows.append_keys(usize::from(head), heads, tails),
        Tail::Cell(attribute) => {
            rows.append_cells(usize::from(head), usize::from(attribute), heads, tails);
        }
    }
}

impl Pairs {
    /// No pairs, and room for so many in head and tail, in the lists of an earlier map where these are not much longer. It
    /// is refused `NoMemory` alone, and then keeps no memory.
    pub(crate) fn new(alloc: Global, room: usize, lists: Option<Lists>) -> Result<Pairs, Refusal>
        ensures { MatchResult result (λ p. p ≡ record { pieces = last []; room = room }) (λ e. e ≡ NoMemory) }
    {
        match lists {
            Some(lists) => {
                if lists.suit(room) {
                    Pairs::in_lists(alloc, room, lists)
                } else {
                    drop(lists);
                    Pairs::with_room(alloc, room)
                }
            }
            None => Pairs::with_room(alloc, room),
        }
    }

    /// No pairs, and room for so many in these lists. It is refused `NoMemory` alone, and then keeps no memory.
    fn in_lists(alloc: Global, room: usize, lists: Lists) -> Result<Pairs, Refusal>
        ensures { MatchResult result (λ p. p ≡ record { pieces = last []; room = room }) (λ e. e ≡ NoMemory) }
    {
        let mut lists = lists;
        lists.head.clear();
        lists.tail.clear();
        let none = Pairs {
            lists,
            marks: Vec::new(alloc),
            room: 0,
        };
        none.grown(room)
    }

    /// Its lists, for the next map.
    pub(crate) fn into_lists(self) -> Lists {
        let Pairs { lists, .. } = self;
        lists
    }

    /// No pairs, and room for so many in head and tail. It is refused `NoMemory` alone, and then keeps no memory.
    fn with_room(alloc: Global, room: usize) -> Result<Pairs, Refusal>
        ensures { MatchResult result (λ p. p ≡ record { pieces = last []; room = room }) (λ e. e ≡ NoMemory) }
    {
        let Ok(head) = Vec::with_capacity(alloc, room) else {
            return Err(Refusal::NoMemory);
        };
        let Ok(tail) = Vec::with_capacity(alloc, room) else {
            return Err(Refusal::NoMemory);
        };
        Ok(Pairs {
            lists: Lists { head, tail },
            marks: Vec::new(alloc),
            room,
        })
    }

    /// The same pairs with room for so many. It is refused `NoMemory` alone, and then keeps no pairs and no memory.
    pub(crate) fn grown(self, room: usize) -> Result<Pairs, Refusal>
        requires { self.room ≤ room }
        ensures { MatchResult result (λ p. p ≡ record self { room = room }) (λ e. e ≡ NoMemory) }
    {
        let Pairs {
            mut lists,
            marks,
            ..
        } = self;
        make_room(&mut lists.head, room)?;
        make_room(&mut lists.tail, room)?;
        Ok(Pairs { lists, marks, room })
    }

    /// The number of pairs.
    pub(crate) fn len(&self) -> usize
        ensures { result ≡ length (joined self.now.pieces) }
    {
        self.lists.head.len()
    }

    /// For how many pairs there is room.
    pub(crate) fn room(&self) -> usize
        ensures { result ≡ self.now.room }
    {
        self.room
    }

    /// The head of the pair at a place.
    pub(crate) fn head_at(&self, place: usize) -> i64
        requires { place < length (joined self.now.pieces) }
        ensures { result ≡ (slice_index_or (joined self.now.pieces) place (pos 0, pos 0)).0 }
    {
        value_at(&self.lists.head, place)
    }

    /// The tail of the pair at a place.
    pub(crate) fn tail_at(&self, place: usize) -> i64
        requires { place < length (joined self.now.pieces) }
        ensures { result ≡ (slice_index_or (joined self.now.pieces) place (pos 0, pos 0)).1 }
    {
        value_at(&self.lists.tail, place)
    }

    /// Copies the tails from a place on into a slice, as many as it has.
    pub(crate) fn read_tails(&self, place: usize, tails: &mut [i64])
        requires { place + length tails.old ≤ length (joined self.now.pieces) }
        ensures { tails.new ≡ slice_range (map (λ p. p.1) (joined self.now.pieces)) place (place + length tails.old) }
    {
        copy_part(&self.lists.tail, place, tails);
    }

    /// How many pairs stand before the bound, if it is one of those between the pieces.
    pub(crate) fn find(&self, bound: Bound) -> Option<usize>
        ensures { result ≡ place_of bound self.now.pieces }
    {
        find_mark(&self.marks, bound)
    }

    /// Puts the pairs of rows at the end of the last piece. It takes no memory.
    pub(crate) fn load(&mut self, head: u8, tail: Tail, rows: &LoadRows)
        requires room { length (joined self.old.pieces) + length rows.now.items ≤ self.old.room }
        requires keys { All (λ (r : Row). r.key < 2 ^ 63) rows.now.items }
        ensures { self.new ≡ stepped (loaded (map (pair_in head tail) rows.now.items)) self.old }
    {
        append_pairs(&mut self.lists.head, &mut self.lists.tail, head, tail, rows);
    }

    /// Puts a pair at the end of its piece. It takes no memory.
    pub(crate) fn insert(&mut self, head: i64, tail: i64)
        requires { length (joined self.old.pieces) < self.old.room }
        ensures { self.new ≡ stepped (inserted (head, tail)) self.old }
    {
        ripple_in(
            &mut self.lists.head,
            &mut self.lists.tail,
            &mut self.marks,
            head,
            tail,
        );
    }

    /// Takes the pair at a place out. It takes no memory.
    pub(crate) fn remove(&mut self, place: usize)
        requires { place < length (joined self.old.pieces) }
        ensures { self.new ≡ stepped (removed place) self.old }
    {
        ripple_out(
            &mut self.lists.head,
            &mut self.lists.tail,
            &mut self.marks,
            place,
        );
    }

    /// Cracks at two bounds, where they are there. It is refused `NoMemory` alone, before anything is changed.
    pub(crate) fn range(
        &mut self,
        lower: Option<Bound>,
        upper: Option<Bound>,
    ) -> Result<(), Refusal>
        ensures { HasSteppedOr result (ranged lower upper) self.old self.new }
    {
        if self.marks.reserve(2).is_err() {
            return Err(Refusal::NoMemory);
        }
        crack_range(
            &mut self.lists.head,
            &mut self.lists.tail,
            &mut self.marks,
            lower,
            upper,
        );
        Ok(())
    }

    /// Cracks these pairs and others, whose heads are the same in the same pieces, at two bounds, where they are there. It is
    /// refused `NoMemory` alone, if there is none for one of them, before anything is changed.
    pub(crate) fn range_both(
        &mut self,
        twin: &mut Pairs,
        lower: Option<Bound>,
        upper: Option<Bound>,
    ) -> Result<(), Refusal>
        requires { HaveSameHeads self.old.pieces twin.old.pieces }
        ensures steps { HasSteppedOr result (ranged lower upper) self.old self.new }
        ensures twin_steps { HasSteppedOr result (ranged lower upper) twin.old twin.new }
    {
        if self.marks.reserve(2).is_err() || twin.marks.reserve(2).is_err() {
            return Err(Refusal::NoMemory);
        }
        crack_twins(
            &mut self.lists,
            &mut twin.lists,
            &mut self.marks,
            &mut twin.marks,
            lower,
        );
        crack_twins(
            &mut self.lists,
            &mut twin.lists,
            &mut self.marks,
            &mut twin.marks,
            upper,
        );
        Ok(())
    }

    /// Puts a row's pair at the end of its piece. It takes no memory.
    fn insert_row(&mut self, head: u8, tail: Tail, row: &Row)
        requires room { length (joined self.old.pieces) < self.old.room }
        requires key { row.now.key < 2 ^ 63 }
        ensures { self.new ≡ stepped (inserted (pair_in head tail row.now)) self.old }
    {
        self.insert(cell_of(row, head), shown_by(tail, row));
    }

    /// Replays an entry of a tape, each row as the pair of this head and tail. It is refused `NoMemory` alone, at a range
    /// alone, and then nothing has changed.
    pub(crate) fn replay(&mut self, head: u8, tail: Tail, entry: &Entry) -> Result<(), Refusal>
        requires room { HasRoomAfter (shown_step (pair_in head tail) (step_of entry.now)) self.old }
        requires place { HasPlace (shown_step (pair_in head tail) (step_of entry.now)) self.old }
        requires keys { KeysFit (step_of entry.now) }
        ensures steps { HasSteppedOr result (shown_step (pair_in head tail) (step_of entry.now)) self.old self.new }
        ensures memory { TakesNoMemory (step_of entry.now) → IsOk result }
    {
        match entry {
            Entry::Load(rows) => {
                self.load(head, tail, rows);
                Ok(())
            }
            Entry::Insert(row) => {
                self.insert_row(head, tail, row);
                Ok(())
            }
            Entry::Remove(place) => {
                self.remove(*place);
                Ok(())
            }
            Entry::Range(lower, upper) => self.range(*lower, *upper),
        }
    }
}
