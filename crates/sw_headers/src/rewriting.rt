//! The records of a text, byte by byte, without the fields that are passed by.
//!
//! Fields go on byte for byte, as they are written. Each line end of the text goes on too, those of fields that are passed by
//! behind their record, where they are empty lines and no records: so each record keeps its line.

ghost use Rattle.std.specs.Prelude.{◌≡◌, ◌<◌, ◌≤◌, ◌==◌, ◌||◌, ◌++◌, [], length, min, position, replicate, take, true, IfOk, OnErr, OnOk};
ghost use Rattle.std.specs.List.{list_all};
ghost use Rattle.sw_headers.specs.Steps.{Gives, Goes, TakesIn, begun, by, closing, closing_first, closing_later, copied, copied_run, entered, fed, finished, fresh, going_on, goes_by, inside, is_kept, is_line_end, is_mark, missed_after, missed_in, next_spot, opened, outside, place_after, start, stays, stepped, taken, unmarked, waiting};
ghost use Rattle.sw_headers.specs.declared.rewriting.Spot.TheVariants.{Before, Plain, Quoted};

use crate::header::Header;
use std::alloc::{AllocError, Global};

/// The bytes of a byte order mark.
const MARK: [u8; 3] = [0xef, 0xbb, 0xbf];

/// Where in a record the next byte stands.
#[derive(Clone, Copy, PartialEq, Eq)]
pub(crate) enum Spot {
    /// Before a record.
    Before,
    /// At the beginning of a field.
    Field,
    /// In a field without quotes.
    Plain,
    /// Between quotes.
    Quoted,
    /// Behind a quote that stood between quotes.
    Closed,
}

/// Whether a byte ends a line.
fn is_line_end(byte: u8) -> bool
    ensures { result ≡ is_line_end byte }
{
    byte == b'\n' || byte == b'\r'
}

/// Where the byte after one in no quotes stands.
fn outside(byte: u8) -> Spot
    ensures { result ≡ outside byte }
{
    match byte {
        b',' => Spot::Field,
        b'\n' | b'\r' => Spot::Before,
        _ => Spot::Plain,
    }
}

/// The same after the first byte of a field.
fn opened(byte: u8) -> Spot
    ensures { result ≡ opened byte }
{
    if byte == b'"' {
        Spot::Quoted
    } else {
        outside(byte)
    }
}

/// Where the byte after one at a spot stands.
fn next_spot(spot: Spot, byte: u8) -> Spot
    ensures { result ≡ next_spot spot byte }
{
    match spot {
        Spot::Before if is_line_end(byte) => Spot::Before,
        Spot::Before | Spot::Field => opened(byte),
        Spot::Plain => outside(byte),
        Spot::Quoted if byte == b'"' => Spot::Closed,
        Spot::Quoted => Spot::Quoted,
        Spot::Closed if byte == b'"' => Spot::Quoted,
        Spot::Closed => outside(byte),
    }
}

/// Where the next byte of a text stands.
#[derive(Clone, Copy)]
pub(crate) struct Place {
    spot: Spot,
    /// How many bytes of a byte order mark went by; three where none can come.
    marked: usize,
    /// Whether the first record did not end yet.
    is_first: bool,
    /// The place of the field at hand in its record, at most that behind the last column.
    field: usize,
    /// Whether one of the record's fields so far was kept.
    has_given: bool,
    /// Whether a byte of the record was given on.
    has_bytes: bool,
    /// How many line ends of the record were passed by.
    missed: usize,
}

impl Place {
    /// Before a text.
    fn start() -> Place
        ensures { result ≡ start }
    {
        Place {
            spot: Spot::Before,
            marked: 0,
            is_first: true,
            field: 0,
            has_given: false,
            has_bytes: false,
            missed: 0,
        }
    }

    /// Before a record that is not the first.
    fn fresh(self) -> Place
        ensures { result ≡ fresh self }
    {
        Place {
            spot: Spot::Before,
            marked: self.marked,
            is_first: false,
            field: 0,
            has_given: false,
            has_bytes: false,
            missed: 0,
        }
    }

    /// Whether a byte belongs to a byte order mark before the text.
    fn is_mark(self, byte: u8) -> bool
        ensures { result ≡ is_mark self byte }
    {
        match MARK.get(self.marked) {
            Some(next) => *next == byte,
            None => false,
        }
    }

    /// The same place, where the next byte can be no part of a byte order mark: a part that went by begins the first record.
    fn unmarked(self) -> Place
        ensures { result ≡ unmarked self }
    {
        let spot = if 0 < self.marked && self.marked < MARK.len() {
            Spot::Plain
        } else {
            self.spot
        };
        Place {
            spot,
            marked: MARK.len(),
            ..self
        }
    }

    /// How many bytes at the front of a text surely belong to the field at hand, and change nothing else. No byte does
    /// where a byte order mark may come.
    fn run_of(self, text: &[u8]) -> usize
        ensures bound { result ≤ length text.now }
        ensures stays { list_all (stays self.spot) (take result text.now) ≡ true }
        ensures marked { 0 < result → self.marked ≡ 3 }
    {
        if self.marked != MARK.len() {
            return 0;
        }
        run_of(self.spot, text)
    }
}

/// Where the first comma or line end is.
fn separator_at(text: &[u8]) -> Option<usize>
    ensures { result ≡ position (λ c. (c == 44) || is_line_end c) text.now }
{
    text.iter()
        .position(|byte| *byte == b',' || is_line_end(*byte))
}

/// Where the first double quote is.
fn quote_at(text: &[u8]) -> Option<usize>
    ensures { result ≡ position (λ c. c == 34) text.now }
{
    text.iter().position(|byte| *byte == b'"')
}

/// How many bytes at the front of a text are neither a comma nor a line end.
fn plain_run(text: &[u8]) -> usize
    ensures bound { result ≤ length text.now }
    ensures stays { list_all (stays Plain) (take result text.now) ≡ true }
{
    match separator_at(text) {
        Some(end) => end,
        None => text.len(),
    }
}

/// How many bytes at the front of a text are no double quote.
fn quoted_run(text: &[u8]) -> usize
    ensures bound { result ≤ length text.now }
    ensures stays { list_all (stays Quoted) (take result text.now) ≡ true }
{
    match quote_at(text) {
        Some(end) => end,
        None => text.len(),
    }
}

/// How many bytes at the front of a text surely belong to the field at hand, and change nothing else.
fn run_of(spot: Spot, text: &[u8]) -> usize
    ensures bound { result ≤ length text.now }
    ensures stays { list_all (stays spot) (take result text.now) ≡ true }
{
    match spot {
        Spot::Plain => plain_run(text),
        Spot::Quoted => quoted_run(text),
        _ => 0,
    }
}

/// How many line ends were passed by, after one more byte.
fn missed_after(missed: usize, byte: u8) -> usize
    ensures { result ≡ missed_after missed byte }
{
    if byte == b'\n' {
        missed.saturating_add(1)
    } else {
        missed
    }
}

/// The same after more bytes.
fn missed_in(missed: usize, run: &[u8]) -> usize
    ensures { result ≡ missed_in missed run.now }
{
    let mut missed = missed;
    let mut rest = run;
    while let Some((byte, more)) = rest.split_first() {
        missed = missed_after(missed, *byte);
        rest = more;
    }
    missed
}

/// What goes by of a text, and what of it was not yet given on.
#[derive(Drop)]
pub(crate) struct Rewriter {
    header: Header,
    place: Place,
    /// What goes on, and how many bytes of it were given.
    out: Vec<u8>,
    handed: usize,
}

impl Rewriter {
    /// Before a text.
    pub(crate) fn new(alloc: Global, header: Header) -> Rewriter
        ensures header { result.header ≡ header }
        ensures place { result.place ≡ start }
        ensures out { result.out.items ≡ [] }
        ensures handed { result.handed ≡ 0 }
    {
        Rewriter {
            header,
            place: Place::start(),
            out: Vec::new(alloc),
            handed: 0,
        }
    }

    /// What goes on.
    pub(crate) fn into_bytes(self) -> Vec<u8>
        ensures { result ≡ self.out }
    {
        let Rewriter { out, .. } = self;
        out
    }

    /// Gives the next bytes of what goes on into the front of `buf`, and says how many.
    pub(crate) fn give(&mut self, buf: &mut [u8]) -> usize
        ensures count { result ≡ min (length (waiting self.old)) (length buf.new) }
        ensures given { Gives self.old self.new (take result buf.new) }
    {
        let (_, left) = self
            .out
            .as_slice()
            .split_at(self.handed.min(self.out.len()));
        let count = left.len().min(buf.len());
        buf[..count].copy_from_slice(&left[..count]);
        if count == left.len() {
            self.out.clear();
            self.handed = 0;
        } else {
            self.handed = self.handed.saturating_add(count);
        }
        count
    }

    /// Whether what is left of the text goes on as it is: no column is passed by, and the first record is over.
    pub(crate) fn goes_by(&self) -> bool
        ensures { result ≡ goes_by self.now.header.keeps.items self.now.place }
    {
        !self.place.is_first && self.header.keeps_all()
    }

    /// Whether the field at hand is kept. None of the first record is.
    fn is_kept(&self) -> bool
        ensures { result ≡ is_kept self.now.header.keeps.items self.now.place }
    {
        !self.place.is_first && self.header.keeps(self.place.field)
    }

    /// Gives a byte of the field at hand on, or passes it by.
    fn copy(&mut self, byte: u8) -> Result<(), AllocError>
        ensures header { self.new.header ≡ self.old.header }
        ensures goes { OnOk result (Goes self.old self.new (copied self.old.header.keeps.items self.old.place byte)) }
    {
        if self.is_kept() {
            self.place.has_bytes = true;
            self.out.push(byte)?;
        } else {
            self.place.missed = missed_after(self.place.missed, byte);
        }
        Ok(())
    }

    /// The same of bytes that belong to the field at hand.
    fn copy_run(&mut self, run: &[u8]) -> Result<(), AllocError>
        requires { 0 < length run.now }
        ensures header { self.new.header ≡ self.old.header }
        ensures goes { OnOk result (Goes self.old self.new (copied_run self.old.header.keeps.items self.old.place run.now)) }
    {
        if self.is_kept() {
            self.place.has_bytes = true;
            return self.out.extend_from_slice(run);
        }
        self.place.missed = missed_in(self.place.missed, run);
        Ok(())
    }

    /// A field begins; behind another that is kept with a comma.
    fn begin_field(&mut self) -> Result<(), AllocError>
        ensures header { self.new.header ≡ self.old.header }
        ensures goes { OnOk result (Goes self.old self.new (begun self.old.header.keeps.items self.old.place)) }
    {
        if !self.is_kept() {
            return Ok(());
        }
        if self.place.has_given {
            self.place.has_bytes = true;
            self.out.push(b',')?;
        } else {
            self.place.has_given = true;
        }
        Ok(())
    }

    /// Gives so many of a byte on.
    fn push_many(&mut self, byte: u8, count: usize) -> Result<(), AllocError>
        ensures header { self.new.header ≡ self.old.header }
        ensures goes { OnOk result (Goes self.old self.new (self.old.place, replicate count byte)) }
    {
        let mut left = count;
        while left > 0 {
            self.out.push(byte)?;
            left -= 1;
        }
        Ok(())
    }

    /// The first record at hand ends: the header stands in its place.
    fn close_first(&mut self) -> Result<(), AllocError>
        ensures header { self.new.header ≡ self.old.header }
        ensures goes { OnOk result (Goes self.old self.new (self.old.place, by closing_first self.old)) }
    {
        if !self.place.has_bytes && self.header.record().is_empty() {
            return self.push_many(b'"', 2);
        }
        self.out.extend_from_slice(self.header.record())
    }

    /// A record at hand ends. One with fewer fields than the text has columns becomes one with another number than are kept,
    /// and one of which nothing was given on an empty field.
    fn close_other(&mut self) -> Result<(), AllocError>
        ensures header { self.new.header ≡ self.old.header }
        ensures goes { OnOk result (Goes self.old self.new (self.old.place, by closing_later self.old)) }
    {
        let commas = self.header.commas(self.place.field);
        if !self.place.has_bytes && commas == 0 {
            return self.push_many(b'"', 2);
        }
        self.push_many(b',', commas)
    }

    /// The record at hand ends.
    fn close(&mut self) -> Result<(), AllocError>
        ensures header { self.new.header ≡ self.old.header }
        ensures goes { OnOk result (Goes self.old self.new (self.old.place, by closing self.old)) }
    {
        if self.place.is_first {
            self.close_first()
        } else {
            self.close_other()
        }
    }

    /// The record at hand ends with its line, behind which come the line ends that were passed by.
    fn end_record(&mut self, byte: u8) -> Result<(), AllocError>
        ensures header { self.new.header ≡ self.old.header }
        ensures goes { OnOk result (Goes self.old self.new (by inside self.old Before byte)) }
    {
        self.close()?;
        self.out.push(byte)?;
        self.push_many(b'\n', self.place.missed)?;
        self.place = self.place.fresh();
        Ok(())
    }

    /// A byte that stands in a record, with the spot after it.
    fn go_on(&mut self, spot: Spot, byte: u8) -> Result<(), AllocError>
        ensures header { self.new.header ≡ self.old.header }
        ensures goes { OnOk result (Goes self.old self.new (by inside self.old spot byte)) }
    {
        match spot {
            Spot::Before => self.end_record(byte),
            Spot::Field => {
                self.place.spot = spot;
                self.place.field = self.header.next_field(self.place.field);
                self.begin_field()
            }
            _ => {
                self.place.spot = spot;
                self.copy(byte)
            }
        }
    }

    /// A byte that stands before a record, with the spot after it. A record begins with a field.
    fn enter(&mut self, spot: Spot, byte: u8) -> Result<(), AllocError>
        ensures header { self.new.header ≡ self.old.header }
        ensures goes { OnOk result (Goes self.old self.new (by entered self.old spot byte)) }
    {
        match spot {
            Spot::Before => {
                self.out.push(byte)?;
                Ok(())
            }
            Spot::Field | Spot::Plain | Spot::Quoted | Spot::Closed => {
                self.place.has_given = self.is_kept();
                self.go_on(spot, byte)
            }
        }
    }

    /// A byte behind a byte order mark.
    fn step(&mut self, byte: u8) -> Result<(), AllocError>
        ensures header { self.new.header ≡ self.old.header }
        ensures goes { OnOk result (Goes self.old self.new (by stepped self.old byte)) }
    {
        let spot = next_spot(self.place.spot, byte);
        match self.place.spot {
            Spot::Before => self.enter(spot, byte),
            Spot::Field | Spot::Plain | Spot::Quoted | Spot::Closed => self.go_on(spot, byte),
        }
    }

    /// Takes a byte in.
    fn take(&mut self, byte: u8) -> Result<(), AllocError>
        ensures header { self.new.header ≡ self.old.header }
        ensures goes { OnOk result (Goes self.old self.new (by taken self.old byte)) }
    {
        if self.place.is_mark(byte) {
            self.place.marked += 1;
            return Ok(());
        }
        self.place = self.place.unmarked();
        self.step(byte)
    }

    /// Takes the first of some bytes in, and says which are left.
    fn take_one<'t>(&mut self, text: &'t [u8]) -> Result<&'t [u8], AllocError>
        requires { 0 < length text.now }
        ensures header { self.new.header ≡ self.old.header }
        ensures shorter { IfOk result (λ left. length left.now < length text.now) }
        ensures takes { IfOk result (λ left. TakesIn self.old self.new text.now left.now) }
    {
        let Some((first, left)) = text.split_first() else {
            return Ok(text);
        };
        self.take(*first)?;
        Ok(left)
    }

    /// Takes so many bytes in that belong to the field at hand, and says which are left.
    fn take_run<'t>(&mut self, text: &'t [u8], count: usize) -> Result<&'t [u8], AllocError>
        requires some { (0 < count) × (count ≤ length text.now) }
        requires stays { list_all (stays self.old.place.spot) (take count text.now) ≡ true }
        requires marked { self.old.place.marked ≡ 3 }
        ensures header { self.new.header ≡ self.old.header }
        ensures shorter { IfOk result (λ left. length left.now < length text.now) }
        ensures takes { IfOk result (λ left. TakesIn self.old self.new text.now left.now) }
    {
        let (run, left) = text.split_at(count);
        self.copy_run(run)?;
        Ok(left)
    }

    /// Takes some bytes in, one at least, and says which are left.
    fn take_some<'t>(&mut self, text: &'t [u8]) -> Result<&'t [u8], AllocError>
        requires { 0 < length text.now }
        ensures header { self.new.header ≡ self.old.header }
        ensures shorter { IfOk result (λ left. length left.now < length text.now) }
        ensures takes { IfOk result (λ left. TakesIn self.old self.new text.now left.now) }
    {
        let count = self.place.run_of(text);
        if count == 0 {
            self.take_one(text)
        } else {
            self.take_run(text, count)
        }
    }

    /// Takes bytes of the text in.
    pub(crate) fn feed(&mut self, text: &[u8]) -> Result<(), AllocError>
        ensures header { self.new.header ≡ self.old.header }
        ensures goes { OnOk result (Goes self.old self.new (by fed self.old text.now)) }
    {
        let mut left = text;
        while !left.is_empty() {
            left = self.take_some(left)?;
        }
        Ok(())
    }

    /// The text is over, perhaps in the middle of a record: quotes that are open are closed, but in one that goes on as it is.
    pub(crate) fn finish(&mut self) -> Result<(), AllocError>
        ensures header { self.new.header ≡ self.old.header }
        ensures went { OnOk result (self.new.out.items ≡ self.old.out.items ++ by finished self.old) }
        ensures handed { OnOk result (self.new.handed ≡ self.old.handed) }
    {
        self.place = self.place.unmarked();
        match self.place.spot {
            Spot::Before => Ok(()),
            Spot::Quoted if self.goes_by() => Ok(()),
            Spot::Quoted => {
                self.copy(b'"')?;
                self.close()
            }
            _ => self.close(),
        }
    }

    /// Before the place again, where nothing waits.
    fn put_back(&mut self, place: Place)
        ensures header { self.new.header ≡ self.old.header }
        ensures place { self.new.place ≡ place }
        ensures out { self.new.out.items ≡ [] }
        ensures handed { self.new.handed ≡ 0 }
    {
        self.place = place;
        self.out.clear();
        self.handed = 0;
    }

    /// Takes bytes of the text in, where nothing waits. After an error they can be taken in again.
    pub(crate) fn take_in(&mut self, text: &[u8]) -> Result<(), AllocError>
        ensures header { self.new.header ≡ self.old.header }
        ensures place { OnOk result (self.new.place ≡ by place_after self.old text.now) }
        ensures went { OnOk result (waiting self.new ≡ by going_on self.old text.now) }
        ensures stays { OnErr result (self.new.place ≡ self.old.place) }
        ensures none { OnErr result (waiting self.new ≡ []) }
    {
        let place = self.place;
        self.put_back(place);
        match self.feed(text) {
            Ok(()) => Ok(()),
            Err(error) => {
                self.put_back(place);
                Err(error)
            }
        }
    }

    /// The text is over, where nothing waits. After an error it can be ended again.
    pub(crate) fn end(&mut self) -> Result<(), AllocError>
        ensures header { self.new.header ≡ self.old.header }
        ensures went { OnOk result (waiting self.new ≡ by finished self.old) }
        ensures stays { OnErr result (self.new.place ≡ self.old.place) }
        ensures none { OnErr result (waiting self.new ≡ []) }
    {
        let place = self.place;
        self.put_back(place);
        match self.finish() {
            Ok(()) => Ok(()),
            Err(error) => {
                self.put_back(place);
                Err(error)
            }
        }
    }
}
