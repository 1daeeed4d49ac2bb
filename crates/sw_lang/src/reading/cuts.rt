//! Where heads are cut before the first query.

ghost use Rattle.std.specs.Prelude.{◌≡◌, ◌<◌, ◌++◌, ◌∷◌, [], List, ℤ, length, position, replicate, int_lt, slice_set, option_map, IfOk, IfSome, OnOk};
ghost use Rattle.std.specs.List.{list_all, slice_split};
ghost use Rattle.sw_lang.specs.Shown.{AreSound, domain_of};
ghost use Rattle.sw_rows.specs.Header.{IsSchema};
ghost use Rattle.sw_lang.specs.Agreement.{AnswersRelated};
ghost use Rattle.sw_lang.specs.Cuts.{FitCuts, IsCuts, cuts_on};
ghost use Rattle.sw_lang.specs.CutsReading.{before, cut_name, cut_split, cut_value, cuts_at, equals_at, is_divider, parts_after, with_cut};
ghost use Rattle.sw_lang.specs.Reading.{refused, Answers, Gives};

use crate::domain::{AttrValues, attr_values};
use crate::fault::{Fault, ParseError, bad};
use crate::reading::single::{attr_of, read_word};
use std::alloc::{AllocError, Global};
use std::marker::Model;
use sw_rows::{Refusal, Schema, Why};

/// The greatest number of cuts of one attribute.
pub const MOST_CUTS: usize = 15;

/// The cuts of one attribute.
#[derive(Debug)]
struct Values {
    items: Vec<i64>,
}

// By hand: the drop of a derived one is written out at each way out of a function.
impl Drop for Values {
    fn drop(self) {
        let Self { items: _items } = self;
    }
}

impl Model for Values {
    ghost use Rattle.std.specs.Prelude.{List, ℤ};

    ghost Value = { List ℤ };

    ghost view = { λ v. v.items.items };
}

impl Values {
    fn new(alloc: Global) -> Values
        ensures { result ≡ [] }
    {
        Values {
            items: Vec::new(alloc),
        }
    }

    fn push(&mut self, value: i64) -> Result<(), AllocError>
        ensures { OnOk result (self.new ≡ self.old ++ value ∷ []) }
    {
        self.items.push(value)?;
        Ok(())
    }

    fn as_slice(&self) -> &[i64]
        ensures { result.now ≡ self.now }
    {
        self.items.as_slice()
    }
}

/// For each attribute of a table the values at which its head is cut, rising.
#[derive(Debug)]
pub struct Cuts {
    lists: Vec<Values>,
}

// By hand: the drop of a derived one is written out at each way out of a function.
impl Drop for Cuts {
    fn drop(self) {
        let Self { lists: _lists } = self;
    }
}

impl Model for Cuts {
    ghost use Rattle.std.specs.Prelude.{List, ℤ};

    ghost Value = { List (List ℤ) };

    ghost view = { λ c. c.lists.items };
}

impl Cuts {
    /// No cuts of so many attributes.
    fn none(alloc: Global, attrs: usize) -> Result<Cuts, AllocError>
        ensures { IfOk result (λ cuts. cuts ≡ replicate attrs []) }
    {
        let mut lists = Vec::new(alloc);
        for _ in 0..attrs {
            lists.push(Values::new(alloc))?;
        }
        Ok(Cuts { lists })
    }

    /// How many attributes there are, those without cuts among them.
    pub fn len(&self) -> usize
        ensures { result ≡ length self.now }
    {
        self.lists.len()
    }

    /// The cuts of an attribute.
    pub fn of(&self, attr: usize) -> &[i64]
        requires { attr < length self.now }
        ensures { result.now ≡ cuts_on self.now attr }
    {
        self.lists[attr].as_slice()
    }

    fn push(&mut self, attr: usize, value: i64) -> Result<(), AllocError>
        requires { attr < length self.old }
        ensures { OnOk result (self.new ≡ slice_set self.old attr (cuts_on self.old attr ++ value ∷ [])) }
    {
        self.lists[attr].push(value)?;
        Ok(())
    }
}

/// The attribute that is cut, which has room for one more.
#[tactic(auto, unfolding(crate::specs::CutsReading::cut_name, crate::specs::CutsReading::with_room))]
fn cut_name(alloc: Global, schema: &Schema, cuts: &Cuts, name: &[u8]) -> Result<usize, ParseError>
    requires { length cuts.now ≡ length schema.now }
    ensures gives { Gives (λ a. a) result (cut_name schema.now cuts.now name.now) }
    ensures within { IfOk result (λ a. a < length schema.now) }
{
    let attr = attr_of(alloc, schema, name, Why::Cuts)?;
    if cuts.of(attr).len() >= MOST_CUTS {
        return Err(ParseError::Fault(Fault::Excess(MOST_CUTS as u64)));
    }
    Ok(attr)
}

/// The value after '='.
#[tactic(auto, unfolding(crate::specs::CutsReading::cut_value))]
fn cut_value(values: AttrValues, part: &[u8], equals: Option<usize>) -> Result<i64, ParseError>
    requires sound { AreSound values }
    requires within { IfSome equals (λ i. i < length part.now) }
    ensures { Gives (λ z. z) result (cut_value (domain_of values.entry) part.now equals) }
{
    let Some(equals) = equals else {
        return Err(bad(Why::Cuts));
    };
    match read_word(values, &part[equals + 1..]) {
        Some(value) => Ok(value),
        None => Err(bad(Why::Cuts)),
    }
}

/// Whether a value stands above all of a list.
fn is_above(values: &[i64], value: i64) -> bool
    ensures { result ≡ list_all (λ y. int_lt y value) values.now }
{
    values.iter().all(|y| *y < value)
}

#[tactic(auto, unfolding(crate::specs::CutsReading::with_cut))]
fn add_cut(cuts: &mut Cuts, attr: usize, value: i64) -> Result<(), ParseError>
    requires { attr < length cuts.old }
    ensures gives { Gives (λ _. cuts.new) result (with_cut cuts.old attr value) }
    ensures lists { OnOk result (length cuts.new ≡ length cuts.old) }
{
    if !is_above(cuts.of(attr), value) {
        return Err(bad(Why::Cuts));
    }
    cuts.push(attr, value)?;
    Ok(())
}

/// Where the first '=' is.
fn equals_at(part: &[u8]) -> Option<usize>
    ensures value { result ≡ equals_at part.now }
    ensures within { IfSome result (λ i. i < length part.now) }
{
    part.iter().position(|b| *b == b'=')
}

fn before(part: &[u8], equals: Option<usize>) -> &[u8]
    requires { IfSome equals (λ i. i < length part.now) }
    ensures { result.now ≡ before part.now equals }
{
    match equals {
        Some(equals) => &part[..equals],
        None => part,
    }
}

/// Adds the cut of a name, '=' and a value.
#[tactic(auto, unfolding(crate::specs::CutsReading::cut_split))]
fn add_part(alloc: Global, schema: &Schema, cuts: &mut Cuts, part: &[u8]) -> Result<(), ParseError>
    requires { length cuts.old ≡ length schema.now }
    ensures gives { Gives (λ _. cuts.new) result (cut_split schema.now cuts.old part.now (equals_at part.now)) }
    ensures lists { OnOk result (length cuts.new ≡ length cuts.old) }
{
    let equals = equals_at(part);
    let attr = cut_name(alloc, schema, cuts, before(part, equals))?;
    let value = cut_value(attr_values(schema, attr), part, equals)?;
    add_cut(cuts, attr, value)?;
    Ok(())
}

/// Where the first ';' is.
fn divider_at(text: &[u8]) -> Option<usize>
    ensures value { result ≡ position is_divider text.now }
    ensures within { IfSome result (λ i. i < length text.now) }
{
    text.iter().position(|b| *b == b';')
}

/// The bytes before the first ';', and those after it, if there is one.
fn first_part(text: &[u8]) -> (&[u8], Option<&[u8]>)
    ensures parts { slice_split is_divider text.now
        ≡ result.0.now ∷ parts_after (option_map (λ rest. rest.now) result.1) }
    ensures shorter { IfSome result.1 (λ rest. length rest.now < length text.now) }
{
    let Some(end) = divider_at(text) else {
        return (text, None);
    };
    let (_, rest) = text.split_at(end + 1);
    (&text[..end], Some(rest))
}

fn cuts_at(alloc: Global, schema: &Schema, text: &[u8]) -> Result<Cuts, ParseError>
    ensures { Gives (λ c. c) result (cuts_at schema.now text.now) }
{
    let mut cuts = Cuts::none(alloc, schema.len())?;
    if text.is_empty() {
        return Ok(cuts);
    }
    let mut rest = text;
    loop {
        let (part, after) = first_part(rest);
        add_part(alloc, schema, &mut cuts, part)?;
        let Some(next) = after else {
            return Ok(cuts);
        };
        rest = next;
    }
}

/// The cuts that a text gives: nothing, or a list of `name=value` divided by `;`, without blanks.
///
/// A value is a cell of its attribute's kind, and those of one attribute rise. The first fault from the left decides:
/// `UnknownAttribute` at a well-formed name that no attribute has, `TooMany` of limit `MOST_CUTS` at the name of an
/// attribute's sixteenth cut, and `BadLine` of line 0 and why `Cuts` at anything else.
pub fn parse_cuts(alloc: Global, schema: &Schema, text: &str) -> Result<Cuts, Refusal>
    ensures reading { Answers result (refused 0 (cuts_at schema.now text.now)) }

    // cuts come just where the relation of cuts relates them to the text
    ensures grammar { IfOk result (IsCuts schema.now text.now) }
    ensures only { IsSchema schema.now → AnswersRelated result (IsCuts schema.now text.now) }

    // of each attribute at most MOST_CUTS, which rise, each a cell of its kind
    ensures fits { IfOk result (FitCuts schema.now) }
{
    match cuts_at(alloc, schema, text.as_bytes()) {
        Ok(cuts) => Ok(cuts),
        Err(ParseError::Memory) => Err(Refusal::NoMemory),
        Err(ParseError::Fault(Fault::Bad(why))) => Err(Refusal::BadLine { line: 0, why }),
        Err(ParseError::Fault(Fault::Unknown(name))) => Err(Refusal::UnknownAttribute { name }),
        Err(ParseError::Fault(Fault::Excess(limit))) => Err(Refusal::TooMany { limit }),
    }
}
