//! The blocks of a script, and their calls.

ghost use Rattle.std.specs.Prelude.{◌≡◌, ◌≤◌, ◌+◌, ℕ, [], length, IfErr, IfOk, IfSome, OnErr, OnOk};
ghost use Rattle.std.specs.List.{list_all};
ghost use Rattle.sw_rows.specs.declared.loading.TheConstants.{MOST_BYTES};
ghost use Rattle.sw_lang.specs.Learning.{learned};
ghost use Rattle.sw_lang.specs.Reading.{Answers};
ghost use Rattle.sw_lang.specs.Tokens.{is_blank};
ghost use Rattle.sw_spine.specs.History.{CallsBelow};
ghost use Rattle.sw_cli.specs.declared.script.TheConstants.{MOST_CALLS};
ghost use Rattle.sw_cli.specs.Script.{AreBlocks, AreSound, blocks_of, call_of_line, calls_in, is_divider, so_far, spelled, whole, with_block, with_call, with_line};
ghost use Rattle.sw_histories.specs.Told.{Reads, TellsText};

use crate::calls_left::CallsLeft;
use bstr::ByteSlice;
use core::mem::replace;
use std::alloc::Global;
use std::marker::Model;
use sw_lang::{MOST_LINE, parse_line};
use sw_rows::{Call, Refusal, Schema, Why};

/// How many calls a script has at most.
pub const MOST_CALLS: usize = 1_048_576;

/// How many blocks a script has at most.
pub const MOST_BLOCKS: usize = 1_024;

/// The calls of a block. Contracts see a list.
#[derive(Drop)]
pub struct Block {
    calls: Vec<Call>,
}

impl Model for Block {
    ghost use Rattle.std.specs.Prelude.{List};
    ghost use Rattle.sw_query.specs.declared.query.Call.{Call};

    ghost Value = { List Call };

    ghost view = { λ b. b.calls.items };
}

impl Block {
    /// The calls.
    pub(crate) fn calls(&self) -> &[Call]
        ensures { result.now ≡ self.now }
    {
        self.calls.as_slice()
    }

    /// The calls, all of which are still to be made. None are left in the block.
    pub(crate) fn take(&mut self) -> CallsLeft
        ensures calls { result ≡ self.old }
        ensures left { self.new ≡ [] }
    {
        let none = Vec::new(*self.calls.allocator());
        CallsLeft::of(replace(&mut self.calls, none))
    }
}

fn is_blank(bytes: &[u8]) -> bool
    ensures { result ≡ list_all is_blank bytes.now }
{
    bytes.iter().all(|byte| *byte == b' ' || *byte == b'\t')
}

/// Whether a line divides blocks.
fn is_divider(line: &[u8]) -> bool
    ensures { result ≡ is_divider line.now }
{
    if line.len() > MOST_LINE {
        return false;
    }
    match line.strip_prefix(b"---".as_slice()) {
        Some(rest) => is_blank(rest),
        None => false,
    }
}

/// The call of a line of this number, if it has one: none of an empty line or a comment. Its texts become known.
///
/// Refused `BadLine` with the number, why `Length` where the line has more than 4,096 bytes, `Encoding` where it is not
/// UTF-8, or what `parse_line` finds; else as `parse_line` is. After a refusal the schema is as it was.
pub fn call_of_line(
    alloc: Global,
    schema: &mut Schema,
    number: u32,
    line: &[u8],
) -> Result<Option<Call>, Refusal>
    ensures answers { Answers result (call_of_line schema.old number line.now) }
    ensures learned { OnOk result (schema.new ≡ learned schema.old line.now) }
    ensures unchanged { OnErr result (schema.new ≡ schema.old) }
    ensures below { IfOk result (λ call. IfSome call (CallsBelow (length schema.old))) }
    ensures why { IfErr result TellsText }
{
    if line.len() > MOST_LINE {
        let why = Why::Length;
        return Err(Refusal::BadLine { line: number, why });
    }
    match std::str::from_utf8(line) {
        Ok(text) => parse_line(alloc, schema, number, text),
        Err(_) => {
            let why = Why::Encoding;
            Err(Refusal::BadLine { line: number, why })
        }
    }
}

/// The lines so far: the schema with the texts that are known by now, and the blocks, the last one apart. Contracts
/// see all three.
#[derive(Drop)]
struct Blocks {
    schema: Schema,
    closed: Vec<Block>,
    last: Vec<Call>,
    before: usize,
}

impl Model for Blocks {
    ghost use Rattle.std.specs.Prelude.{◌≡◌};
    ghost use Rattle.sw_cli.specs.Script.{SoFar, calls_in, so_far};

    ghost Value = { SoFar };

    ghost view = { λ p. so_far p.schema p.closed.items p.last.items };

    ghost invariant = { λ p. p.before ≡ calls_in p.closed.items };
}

impl Blocks {
    /// One block without calls.
    fn new(alloc: Global, schema: Schema) -> Blocks
        ensures { result ≡ so_far schema [] [] }
    {
        Blocks {
            schema,
            closed: Vec::new(alloc),
            last: Vec::new(alloc),
            before: 0,
        }
    }

    /// Begins a block.
    fn divide(&mut self, alloc: Global) -> Result<(), Refusal>
        requires { calls_in self.old.closed + length self.old.last ≤ MOST_CALLS }
        ensures answers { Reads (λ _. self.new) result (with_block self.old) }
        ensures sound { (n : ℕ) → AreSound n self.old → OnOk result (AreSound n self.new) }
        ensures why { IfErr result TellsText }
    {
        if self.closed.len() + 1 >= MOST_BLOCKS {
            let limit = MOST_BLOCKS as u64;
            return Err(Refusal::TooMany { limit });
        }
        if self.closed.reserve(1).is_err() {
            return Err(Refusal::NoMemory);
        }
        self.before += self.last.len();
        let calls = replace(&mut self.last, Vec::new(alloc));
        self.closed.push_reserved(Block { calls });
        Ok(())
    }

    /// Adds a line's call, if it has one.
    fn add(&mut self, call: Option<Call>) -> Result<(), Refusal>
        requires { calls_in self.old.closed + length self.old.last ≤ MOST_CALLS }
        ensures answers { Reads (λ _. self.new) result (with_call self.old call) }
        ensures sound { (n : ℕ) → IfSome call (CallsBelow n) → AreSound n self.old → OnOk result (AreSound n self.new) }
        ensures why { IfErr result TellsText }
    {
        let Some(call) = call else {
            return Ok(());
        };
        if self.before + self.last.len() >= MOST_CALLS {
            let limit = MOST_CALLS as u64;
            return Err(Refusal::TooMany { limit });
        }
        match self.last.push(call) {
            Ok(()) => Ok(()),
            Err(_) => Err(Refusal::NoMemory),
        }
    }

    /// Reads one more line, of this number.
    fn read(&mut self, alloc: Global, number: u32, line: &[u8]) -> Result<(), Refusal>
        requires { calls_in self.old.closed + length self.old.last ≤ MOST_CALLS }
        ensures answers { Reads (λ _. self.new) result (with_line number self.old line.now) }
        ensures sound { (n : ℕ) → AreSound n self.old → OnOk result (AreSound n self.new) }
        ensures why { IfErr result TellsText }
    {
        if is_divider(line) {
            return self.divide(alloc);
        }
        match call_of_line(alloc, &mut self.schema, number, line) {
            Ok(call) => self.add(call),
            Err(e) => Err(e),
        }
    }

    /// The schema, and all blocks.
    fn close(self) -> Result<(Schema, Vec<Block>), Refusal>
        ensures all { IfOk result (λ p. spelled p.0 p.1.items ≡ whole self) }
        ensures refused { IfErr result (λ e. e ≡ Refusal.NoMemory) }
    {
        let Blocks {
            schema,
            mut closed,
            last,
            ..
        } = self;
        match closed.push(Block { calls: last }) {
            Ok(()) => Ok((schema, closed)),
            Err(_) => Err(Refusal::NoMemory),
        }
    }
}

/// The calls of a script's blocks, in the order of its lines, and the schema with their texts. A line `---` divides two
/// blocks; a block may have no calls.
///
/// The texts of a line become known as it is read, and stay so for the lines after it. The first fault in the order of
/// lines refuses it: `BadLine` with the line's number, from 1, and why `Length` where it has more than 4,096 bytes,
/// `Encoding` where it is not UTF-8, or what `parse_line` finds; `UnknownAttribute`; `TooMany` of 1,048,576 at the
/// call of that number and one, of as many at the text that is one too many, and of 1,024 at the line that begins
/// block 1,025.
pub(crate) fn read_blocks(
    alloc: Global,
    schema: Schema,
    text: &[u8],
) -> Result<(Schema, Vec<Block>), Refusal>
    requires { length text.now ≤ MOST_BYTES }
    ensures answers { Reads (λ p. spelled p.0 p.1.items) result (blocks_of schema text.now) }
    ensures width { IfOk result (λ p. length p.0 ≡ length schema) }
    ensures sound { IfOk result (λ p. AreBlocks (length schema) p.1.items) }
    ensures why { IfErr result TellsText }
{
    let mut blocks = Blocks::new(alloc, schema);
    let mut number: u32 = 0;
    for line in text.lines() {
        number += 1;
        match blocks.read(alloc, number, line) {
            Ok(()) => {}
            Err(e) => return Err(e),
        }
    }
    blocks.close()
}
