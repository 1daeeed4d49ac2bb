//! Rows as one flat list of cells.

ghost use Rattle.std.specs.Prelude.{◌≡◌, ◌≤◌, ◌<◌, ◌*◌, ◌+◌, ◌^◌, ◌++◌, ◌∷◌, [], ℕ, ℤ, length, map, take, drop, slice_index_or, vec_len, All, Decides, IfOk, IsOk, MatchOption, OnOk, OnErr};
ghost use Rattle.sw_table.specs.declared.row.Row.{Row};
ghost use Rattle.sw_table.specs.Rows.{HasNoRow, IsRowAt, cell_of};
ghost use Rattle.sw_table.specs.Exchanged.{with_exchanged};
ghost use Rattle.sw_table.specs.Kept.{kept};
ghost use Rattle.sw_table.specs.Live.{Rises, key_of};
ghost use Rattle.sw_table.specs.Packed.{HasRoomFor, IsLeastWidth, IsSameRoom, IsWithin, KeepsWidth, Packed, behind, numbered, row_of, stretch, with_stretch, zeros};

use crate::cell_list::CellList;
use crate::keys::Keys;
use crate::row::Row;
use std::alloc::{AllocError, Global};
use std::marker::Model;
use std::mem;

/// The cells of one row of a flat list.
#[inline]
fn stretch(cells: &[i64], width: usize, place: usize) -> &[i64]
    requires { place * width + width ≤ length cells.now }
    ensures { result.now ≡ stretch (place * width) width cells.now }
{
    let start = place * width;
    &cells[start..start + width]
}

/// The cells of so many rows of a flat list, from a place on.
fn stretches(cells: &[i64], width: usize, start: usize, many: usize) -> &[i64]
    requires { start * width + many * width ≤ length cells.now }
    ensures { result.now ≡ stretch (start * width) (many * width) cells.now }
{
    let at = start * width;
    &cells[at..at + many * width]
}

/// A cell of one row of a flat list.
#[inline]
fn cell_of(cells: &[i64], width: usize, place: usize, attr: usize) -> i64
    requires { place * width + attr < length cells.now }
    ensures { (d : ℤ) → result ≡ slice_index_or cells.now (place * width + attr) d }
{
    cells[place * width + attr]
}

/// A cell of one row of a flat list, 0 past its cells.
#[inline]
fn cell_in(cells: &[i64], width: usize, place: usize, attr: usize) -> i64
    requires { place * width + width ≤ length cells.now }
    ensures { (key : ℕ) → result ≡ cell_of attr (row_of width key (drop (place * width) cells.now)) }
{
    if width <= attr {
        return 0;
    }
    cell_of(cells, width, place, attr)
}

/// A row's cells, and 0 after them.
#[inline]
fn padded(cells: &[i64]) -> [i64; 8]
    requires { length cells.now ≤ 8 }
    ensures { result ≡ cells.now ++ drop (length cells.now) zeros }
{
    let mut all = [0; 8];
    all[..cells.len()].copy_from_slice(cells);
    all
}

/// How many cells of a row are used, one at least.
fn used(row: &Row) -> usize
    ensures some { 1 ≤ result }
    ensures most { result ≤ 8 }
    ensures within { IsWithin result row.now }
    ensures least { (n : ℕ) → 1 ≤ n → IsWithin n row.now → result ≤ n }
{
    let mut used = 8;
    while used > 1 && row.cells[used - 1] == 0 {
        used -= 1;
    }
    used
}

/// How many cells are used of each of some rows at most, one at least.
fn most_used(rows: &[Row]) -> usize
    ensures { IsLeastWidth rows.now result }
{
    let mut most = 1;
    for row in rows {
        most = most.max(used(row));
    }
    most
}

/// Makes room for so many more cells, if it is not there; the cells stay.
fn make_room(out: &mut Vec<i64>, more: usize) -> Result<(), AllocError>
    ensures items { out.new.items ≡ out.old.items }
    ensures len { vec_len out.new ≡ vec_len out.old }
    ensures ok { OnOk result (HasRoomFor more out.new) }
    ensures there { HasRoomFor more out.old → IsOk result × IsSameRoom out.old out.new }
{
    if out.capacity() - out.len() < more {
        out.reserve(more)?;
    }
    Ok(())
}

/// Takes the list out: what fills a list of its own holds its length in a register, and not in memory.
#[inline]
fn taken(out: &mut Vec<i64>) -> Vec<i64>
    ensures { result ≡ out.old }
{
    let alloc = *out.allocator();
    mem::replace(out, Vec::new(alloc))
}

/// A list of rows of as many attributes as its width: no more cells than those are kept of a row, one row after
/// another.
#[derive(Debug)]
pub struct PackedRows {
    width: usize,
    keys: Keys,
    cells: CellList,
}

// By hand: the drop of a derived one is written out at each way out of a function.
impl Drop for PackedRows {
    fn drop(self) {
        let Self {
            width: _,
            keys: _keys,
            cells: _cells,
        } = self;
    }
}

impl Model for PackedRows {
    ghost use Rattle.sw_table.specs.Packed.{IsWhole, Packed, rows_in};

    ghost Value = { Packed };

    ghost view = { λ p. record { width = p.width; items = rows_in p.width p.keys p.cells } };

    ghost invariant = { λ p. IsWhole p.width p.keys p.cells };
}

impl PackedRows {
    /// No rows yet.
    pub fn new(alloc: Global, width: usize) -> PackedRows
        requires some { 1 ≤ width }
        requires most { width ≤ 8 }
        ensures { result ≡ record { width = width; items = [] } }
    {
        PackedRows {
            width,
            keys: Keys::new(),
            cells: CellList::new(alloc),
        }
    }

    /// No rows yet, with room for so many. The one error is that there is no memory for it.
    pub fn with_capacity(alloc: Global, width: usize, many: usize) -> Result<PackedRows, AllocError>
        requires some { 1 ≤ width }
        requires most { width ≤ 8 }
        ensures { IfOk result (λ p. p ≡ record { width = width; items = [] }) }
    {
        let mut packed = PackedRows::new(alloc, width);
        packed.reserve(many)?;
        Ok(packed)
    }

    /// The rows of these cells, which stand one row's after another's, with the keys 1, 2, 3 and so on. Nothing is
    /// copied.
    pub fn of_cells(width: usize, many: usize, cells: Vec<i64>) -> PackedRows
        requires some { 1 ≤ width }
        requires most { width ≤ 8 }
        requires whole { length cells.items ≡ many * width }
        ensures { result ≡ numbered width many cells.items }
    {
        PackedRows {
            width,
            keys: Keys::from_one(many),
            cells: CellList::of(cells),
        }
    }

    /// How many cells are kept of a row.
    #[inline]
    pub fn width(&self) -> usize
        ensures value { result ≡ self.now.width }
        ensures some { 1 ≤ self.now.width }
        ensures most { self.now.width ≤ 8 }
    {
        self.width
    }

    /// How many rows there are.
    #[inline]
    pub fn len(&self) -> usize
        ensures many { result ≡ length self.now.items }
        ensures few { result < 2 ^ 63 }
    {
        let _cells = self.cells.len();
        self.keys.len()
    }

    /// Whether a row has no cells past the width but 0.
    fn fits(&self, row: &Row) -> bool
        ensures fits { Decides result (IsWithin self.now.width row.now) }
        ensures all { IsWithin 8 row.now }
    {
        row.cells[self.width..] == [0; 8][self.width..]
    }

    /// The row at a place.
    pub fn get(&self, place: usize) -> Row
        requires { place < length self.now.items }
        ensures { (d : Row) → result ≡ slice_index_or self.now.items place d }
    {
        Row {
            key: self.keys.at(place),
            cells: padded(stretch(self.cells.as_slice(), self.width, place)),
        }
    }

    /// The key of the row at a place.
    #[inline]
    pub fn key(&self, place: usize) -> u64
        requires { place < length self.now.items }
        ensures { (d : Row) → result ≡ (slice_index_or self.now.items place d).key }
    {
        self.keys.at(place)
    }

    /// A cell of the row at a place, 0 past its cells.
    #[inline]
    pub fn cell(&self, place: usize, attr: usize) -> i64
        requires place { place < length self.now.items }
        ensures { (d : Row) → result ≡ cell_of attr (slice_index_or self.now.items place d) }
    {
        cell_in(self.cells.as_slice(), self.width, place, attr)
    }

    /// Adds each row's cell of an attribute at the end of a list; after an error the list is as it was.
    pub fn append_column(&self, attr: usize, out: &mut Vec<i64>) -> Result<(), AllocError>
        ensures ok { OnOk result (out.new.items ≡ out.old.items ++ map (cell_of attr) self.now.items) }
        ensures err { OnErr result (out.new.items ≡ out.old.items) }
        ensures room { HasRoomFor (length self.now.items) out.old → IsOk result × IsSameRoom out.old out.new }
    {
        make_room(out, self.len())?;
        let cells = self.cells.as_slice();
        let mut list = taken(out);
        for place in 0..self.len() {
            list.push_reserved(cell_in(cells, self.width, place, attr));
        }
        *out = list;
        Ok(())
    }

    /// The rows as a list. The one error is that there is no memory for it.
    pub fn to_rows(&self, alloc: Global) -> Result<Vec<Row>, AllocError>
        ensures { IfOk result (λ rows. rows.items ≡ self.now.items) }
    {
        let mut rows = Vec::with_capacity(alloc, self.len())?;
        for place in 0..self.len() {
            rows.push(self.get(place))?;
        }
        Ok(rows)
    }

    /// Makes room for so many more rows; the rows stay. No clause tells of the room.
    pub fn reserve(&mut self, more: usize) -> Result<(), AllocError>
        ensures { self.new ≡ self.old }
    {
        self.keys.reserve(more)?;
        self.cells.reserve(more.saturating_mul(self.width))
    }

    /// Adds a row at the end; after an error nothing has changed.
    pub fn push(&mut self, row: &Row) -> Result<(), AllocError>
        requires { IsWithin self.old.width row.now }
        ensures ok { OnOk result (self.new ≡ record self.old { items = self.old.items ++ row.now ∷ [] }) }
        ensures err { OnErr result (self.new ≡ self.old) }
    {
        let alloc = self.cells.alloc();
        let before = self.cells.len();
        self.cells.extend_from_slice(&row.cells[..self.width])?;
        match self.keys.push(alloc, row.key) {
            Ok(()) => Ok(()),
            Err(e) => {
                self.cells.truncate(before);
                Err(e)
            }
        }
    }

    /// The place of the row of a key, by a sum where the keys are 1, 2, 3 and so on, else by binary search.
    pub fn find(&self, key: u64) -> Option<usize>
        requires { Rises key_of self.now.items }
        ensures { MatchOption result (HasNoRow key self.now.items) (IsRowAt key self.now.items) }
    {
        self.keys.find(key)
    }

    /// Takes the rows out whose flags are false, in place; the others move up, in their order. After an error nothing
    /// has changed.
    pub fn keep(&mut self, live: &[bool]) -> Result<(), AllocError>
        requires { length live.now ≡ length self.old.items }
        ensures ok { OnOk result (self.new ≡ record self.old { items = kept live.now self.old.items }) }
        ensures err { OnErr result (self.new ≡ self.old) }
    {
        let alloc = self.cells.alloc();
        self.keys.keep(alloc, live)?;
        self.cells.keep(self.width, live);
        Ok(())
    }

    /// Exchanges an attribute's cells for numbers of a list: 1 for the first number, 2 for the second, and so on. Any
    /// other cell stays.
    pub fn exchange(&mut self, attr: usize, codes: &[i64])
        requires { attr < self.old.width }
        ensures { self.new ≡ record self.old { items = map (with_exchanged attr codes.now) self.old.items } }
    {
        let many = self.keys.len();
        self.cells.exchange(self.width, many, attr, codes);
    }

    /// The same rows, with all eight cells kept. The one error is that there is no memory for them.
    fn widened(&self) -> Result<PackedRows, AllocError>
        ensures { IfOk result (λ p. p ≡ record { width = 8; items = self.now.items }) }
    {
        let mut wide = PackedRows::new(self.cells.alloc(), 8);
        wide.reserve(self.len())?;
        for place in 0..self.len() {
            wide.push(&self.get(place))?;
        }
        Ok(wide)
    }

    /// Makes the rows wide enough for one more, where they are not; the rows stay, and after an error nothing has
    /// changed.
    pub(crate) fn widen(&mut self, row: &Row) -> Result<(), AllocError>
        ensures rows { self.new.items ≡ self.old.items }
        ensures fitting { IsWithin self.old.width row.now → self.new ≡ self.old }
        ensures ok { OnOk result (IsWithin self.new.width row.now) }
        ensures err { OnErr result (self.new ≡ self.old) }
    {
        if !self.fits(row) {
            let wide = self.widened()?;
            *self = wide;
        }
        Ok(())
    }

    /// Adds a row at the end, whatever its cells: one that does not fit the width widens it to eight. After an error
    /// the rows are as they were.
    pub fn add(&mut self, row: &Row) -> Result<(), AllocError>
        ensures width { IsWithin self.old.width row.now → self.new.width ≡ self.old.width }
        ensures ok { OnOk result (self.new.items ≡ self.old.items ++ row.now ∷ []) }
        ensures err { OnErr result (self.new.items ≡ self.old.items) }
    {
        self.widen(row)?;
        self.push(row)
    }

    /// Keeps so many rows at most, the first ones.
    pub fn truncate(&mut self, many: usize)
        ensures { self.new ≡ record self.old { items = take many self.old.items } }
    {
        if many < self.keys.len() {
            let _cells = self.cells.len();
            self.keys.truncate(many);
            self.cells.truncate(many * self.width);
        }
    }

    /// Adds rows at the end, whatever their cells; after an error the rows are as they were.
    fn extend_from_slice(&mut self, rows: &[Row]) -> Result<(), AllocError>
        ensures width { KeepsWidth rows.now self.old self.new }
        ensures ok { OnOk result (self.new.items ≡ self.old.items ++ rows.now) }
        ensures err { OnErr result (self.new.items ≡ self.old.items) }
    {
        let before = self.len();
        for row in rows {
            if let Err(e) = self.add(row) {
                self.truncate(before);
                return Err(e);
            }
        }
        Ok(())
    }

    /// Adds so many rows of a list of the same width, from a place on, all cells at once; after an error nothing has
    /// changed.
    fn extend_flat(
        &mut self,
        rows: &PackedRows,
        start: usize,
        many: usize,
    ) -> Result<(), AllocError>
        requires width { rows.now.width ≡ self.old.width }
        requires within { start + many ≤ length rows.now.items }
        ensures ok { OnOk result (self.new ≡ with_stretch start many rows.now.items self.old) }
        ensures err { OnErr result (self.new ≡ self.old) }
    {
        let alloc = self.cells.alloc();
        let before = self.cells.len();
        self.cells
            .extend_from_slice(stretches(rows.cells.as_slice(), rows.width, start, many))?;
        match self.keys.extend_from(alloc, &rows.keys, start, many) {
            Ok(()) => Ok(()),
            Err(e) => {
                self.cells.truncate(before);
                Err(e)
            }
        }
    }

    /// Adds so many rows of a list, from a place on, one by one; after an error the rows are as they were.
    fn extend_each(
        &mut self,
        rows: &PackedRows,
        start: usize,
        many: usize,
    ) -> Result<(), AllocError>
        requires within { start + many ≤ length rows.now.items }
        ensures width { KeepsWidth (stretch start many rows.now.items) self.old self.new }
        ensures ok { OnOk result (self.new.items ≡ self.old.items ++ stretch start many rows.now.items) }
        ensures err { OnErr result (self.new.items ≡ self.old.items) }
    {
        let before = self.len();
        let _all = rows.len();
        for done in 0..many {
            if let Err(e) = self.add(&rows.get(start + done)) {
                self.truncate(before);
                return Err(e);
            }
        }
        Ok(())
    }

    /// Where a part begins, and how many rows it has: from a place on, so many at most.
    fn bounds(&self, from: usize, most: usize) -> (usize, usize)
        ensures within { result.0 + result.1 ≤ length self.now.items }
        ensures part { stretch result.0 result.1 self.now.items ≡ stretch from most self.now.items }
    {
        let start = from.min(self.len());
        (start, most.min(self.len() - start))
    }

    /// A copy of the rows from a place on, so many at most. The one error is that there is no memory for it.
    pub fn part(&self, alloc: Global, from: usize, most: usize) -> Result<PackedRows, AllocError>
        ensures { IfOk result (λ p. p ≡ record self.now { items = stretch from most self.now.items }) }
    {
        let (start, many) = self.bounds(from, most);
        let mut part = PackedRows::with_capacity(alloc, self.width, many)?;
        part.extend_flat(self, start, many)?;
        Ok(part)
    }

    /// Lets the lists that `share` makes have the cells of this one, which then stand once; after an error nothing has
    /// changed.
    pub fn make_shared(&mut self) -> Result<(), AllocError>
        ensures { self.new ≡ self.old }
    {
        self.cells.make_shared()
    }

    /// The same rows. Their cells are not copied once `make_shared` was called, and each list can be changed as if they
    /// were its own. Room for a copy is taken all the same: the one error is that there is no memory for it.
    pub fn share(&self, alloc: Global) -> Result<PackedRows, AllocError>
        ensures { IfOk result (λ p. p ≡ self.now) }
    {
        let mut keys = Keys::new();
        keys.extend_from(alloc, &self.keys, 0, self.keys.len())?;
        Ok(PackedRows {
            width: self.width,
            keys,
            cells: self.cells.share(alloc)?,
        })
    }

    /// Adds the rows of another list from a place on, so many at most; after an error the rows are as they were. Lists
    /// of the same width are copied as they lie, and the width stays where all these rows are within it.
    pub fn extend_from(
        &mut self,
        rows: &PackedRows,
        from: usize,
        most: usize,
    ) -> Result<(), AllocError>
        ensures width { KeepsWidth (stretch from most rows.now.items) self.old self.new }
        ensures ok { OnOk result (self.new.items ≡ self.old.items ++ stretch from most rows.now.items) }
        ensures err { OnErr result (self.new.items ≡ self.old.items) }
    {
        let (start, many) = rows.bounds(from, most);
        if rows.width() == self.width() {
            self.extend_flat(rows, start, many)
        } else {
            self.extend_each(rows, start, many)
        }
    }

    /// Adds all rows of a list of the same width, each with its key raised by how many rows there are; after an error
    /// nothing has changed. Where the keys of both are 1, 2, 3 and so on, so are those of all, and no list of keys is
    /// made.
    pub fn extend_behind(&mut self, rows: &PackedRows) -> Result<(), AllocError>
        requires width { rows.now.width ≡ self.old.width }
        requires small { All (λ (r : Row). r.key < 2 ^ 63) rows.now.items }
        ensures ok { OnOk result (self.new ≡ record self.old { items = behind self.old.items rows.now.items }) }
        ensures err { OnErr result (self.new ≡ self.old) }
    {
        let alloc = self.cells.alloc();
        let before = self.cells.len();
        self.cells.extend_from_slice(rows.cells.as_slice())?;
        let _all = self.cells.len();
        match self.keys.extend_behind(alloc, &rows.keys) {
            Ok(()) => Ok(()),
            Err(e) => {
                self.cells.truncate(before);
                Err(e)
            }
        }
    }

    /// These rows, whatever their cells. The width is the most that one of them uses. The one error is that there is no
    /// memory for them.
    pub fn of(alloc: Global, rows: &[Row]) -> Result<PackedRows, AllocError>
        ensures rows { IfOk result (λ p. p.items ≡ rows.now) }
        ensures width { IfOk result (λ p. IsLeastWidth rows.now p.width) }
    {
        let mut packed = PackedRows::new(alloc, most_used(rows));
        packed.reserve(rows.len())?;
        packed.extend_from_slice(rows)?;
        Ok(packed)
    }
}
