//! Entries of a history.

ghost use Rattle.std.specs.Prelude.{◌≡◌, ◌≤◌, [], length, map, option_map, string_bytes, IfErr, IfOk, IsOkUnless, OnOk};
ghost use Rattle.serde_json.specs.View.{view};
ghost use Rattle.sw_lang.specs.Learning.{learned};
ghost use Rattle.sw_spine.specs.History.{AllBelow, CallsBelow};
ghost use Rattle.sw_spine.specs.declared.spine.TheConstants.{MOST_ENTRIES};
ghost use Rattle.sw_histories.specs.FromTokens.{AreFew};
ghost use Rattle.sw_histories.specs.Outlines.{ReadsEntries, values_in, values_of};
ghost use Rattle.sw_histories.specs.Told.{Reads, TellsText};
ghost use Rattle.sw_histories.specs.RecordReading.{call_in, entry_in, entry_learned, has_call, may_stand, state_in, texts_after, word_in};

use super::no_history;
use crate::reading::members::{has_members, number_at, text_at, texts};
use crate::reading::outline::{ArrayOf, enter};
use crate::reading::values::{NoValue, read};
use crate::writing::is_delete_where;
use json::{Reader, Scratch};
use serde_json::Value;
use std::alloc::{AllocError, Global};
use sw_lang::parse_line;
use sw_rows::{Call, Refusal, Schema};
use sw_spine::{Entry, KeptEntry, Lines, MOST_SESSIONS, State};

/// The text of an entry's call, where the entry has just the members of one.
fn text_of_call<'a>(value: &'a Value) -> Option<&'a str>
    ensures { option_map (λ t. t.now) result ≡ has_call (view value.now) }
{
    if !has_members(value, 3) {
        return None;
    }
    if value.get("reply").is_none() {
        return None;
    }
    if value.get("session").is_none() {
        return None;
    }
    text_at(value, "call")
}

/// Whether a call may stand in a file of this format.
fn may_stand(format: u64, call: &Call) -> bool
    ensures { result ≡ may_stand format call.now }
{
    !is_delete_where(call) || format == 3
}

/// The call of a line in a file of this format. The texts of the line are made known.
#[tactic(auto, using(sw_spine::proofs::Histories::fits_below))]
fn read_call(
    alloc: Global,
    format: u64,
    schema: &mut Schema,
    line: u32,
    text: &str,
) -> Result<Call, Refusal>
    ensures answers { Reads (λ call. call) result (call_in format schema.old line text.now) }
    ensures learned { OnOk result (schema.new ≡ learned schema.old text.now) }
    ensures below { IfOk result (CallsBelow (length schema.new)) }
    ensures why { IfErr result TellsText }
{
    match parse_line(alloc, schema, line, text) {
        Ok(Some(call)) => {
            if may_stand(format, &call) {
                Ok(call)
            } else {
                Err(no_history(line))
            }
        }
        Ok(None) => Err(no_history(line)),
        Err(e) => Err(e),
    }
}

/// The word for a select that is open or void.
fn word_of(call: &Call, word: &str) -> Option<State>
    ensures { result ≡ word_in call.now word.now }
{
    let Call::Select(_) = call else {
        return None;
    };
    match word {
        "open" => Some(State::Open),
        "void" => Some(State::Void),
        _ => None,
    }
}

fn copies(alloc: Global, texts: &[&str]) -> Result<Vec<String>, AllocError>
    ensures { IfOk result (λ v. map (λ t. string_bytes t) v.items ≡ map (λ t. t.now) texts.now) }
{
    let mut found = Vec::with_capacity(alloc, texts.len())?;
    for text in texts {
        found.push(String::from_str(alloc, text)?)?;
    }
    Ok(found)
}

fn read_lines(alloc: Global, items: &[Value]) -> Result<Option<Lines>, AllocError>
    ensures { IfOk result (λ o. o ≡ texts_after [] (map view items.now)) }
{
    match texts(alloc, items)? {
        Some(found) => Ok(Some(Lines::of(copies(alloc, found.as_slice())?))),
        None => Ok(None),
    }
}

/// What has become of an entry's call.
fn read_state(alloc: Global, call: &Call, value: &Value) -> Result<Option<State>, AllocError>
    ensures { IfOk result (λ o. o ≡ state_in call.now (view value.now)) }
{
    let Some(reply) = value.get("reply") else {
        return Ok(None);
    };
    if let Some(word) = reply.as_str() {
        return Ok(word_of(call, word));
    }
    let Some(items) = reply.as_array() else {
        return Ok(None);
    };
    match read_lines(alloc, items.as_slice())? {
        Some(lines) => Ok(Some(State::Lines(lines))),
        None => Ok(None),
    }
}

/// An entry to be kept. The one refusal is `NoMemory`.
fn kept(alloc: Global, entry: Entry) -> Result<KeptEntry, Refusal>
    ensures kept { IfOk result (λ kept. kept ≡ entry) }
    ensures refused { IsOkUnless result Refusal.NoMemory }
{
    match KeptEntry::new(alloc, entry) {
        Ok(kept) => Ok(kept),
        Err(_) => Err(Refusal::NoMemory),
    }
}

/// The entry of a line in a file of this format: its members are looked at first, then its call, whose texts are made
/// known, then its session and its reply.
fn read_entry(
    alloc: Global,
    format: u64,
    schema: &mut Schema,
    line: u32,
    value: &Value,
) -> Result<KeptEntry, Refusal>
    ensures answers { Reads (λ e. e) result (entry_in format schema.old line (view value.now)) }
    ensures learned { OnOk result (schema.new ≡ entry_learned schema.old (view value.now)) }
    ensures below { IfOk result (λ e. CallsBelow (length schema.new) e.call) }
    ensures why { IfErr result TellsText }
{
    let Some(text) = text_of_call(value) else {
        return Err(no_history(line));
    };
    let call = match read_call(alloc, format, schema, line, text) {
        Ok(call) => call,
        Err(e) => return Err(e),
    };
    let Some(session) = number_at(value, "session", 1, MOST_SESSIONS as u64) else {
        return Err(no_history(line));
    };
    match read_state(alloc, &call, value) {
        Ok(Some(state)) => kept(
            alloc,
            Entry {
                session,
                call,
                state,
            },
        ),
        Ok(None) => Err(no_history(line)),
        Err(_) => Err(Refusal::NoMemory),
    }
}

/// The entry of a line, whose value is let go.
fn take_entry(
    alloc: Global,
    format: u64,
    schema: &mut Schema,
    line: u32,
    value: Value,
) -> Result<KeptEntry, Refusal>
    ensures answers { Reads (λ e. e) result (entry_in format schema.old line (view value)) }
    ensures learned { OnOk result (schema.new ≡ entry_learned schema.old (view value)) }
    ensures below { IfOk result (λ e. CallsBelow (length schema.new) e.call) }
    ensures why { IfErr result TellsText }
{
    read_entry(alloc, format, schema, line, &value)
}

/// Entries of a file of this format in order, up to the end of their array; they count from 1. The texts of their calls
/// are known then.
fn read_entries(
    alloc: Global,
    format: u64,
    schema: &mut Schema,
    reader: &mut Reader<'_>,
) -> Result<Vec<KeptEntry>, Refusal>
    requires { AreFew (values_in reader.old) }
    ensures answers { ReadsEntries format schema.old schema.new (values_in reader.old) result }
    ensures below { IfOk result (λ entries. AllBelow (length schema.new) entries.items) }
    ensures few { IfOk result (λ entries. length entries.items ≤ MOST_ENTRIES) }
    ensures why { IfErr result TellsText }
{
    let mut entries: Vec<KeptEntry> = Vec::new(alloc);
    'entries: while !reader.take_end_array() {
        let value = match read(alloc, reader, 125) {
            Ok(value) => value,
            Err(NoValue::Memory) => return Err(Refusal::NoMemory),
            Err(NoValue::Invalid) => unreachable!(),
        };
        if entries.reserve(1).is_err() {
            return Err(Refusal::NoMemory);
        }
        let line = entries.len() as u32 + 1;
        let entry = match take_entry(alloc, format, schema, line, value) {
            Ok(entry) => entry,
            Err(e) => return Err(e),
        };
        entries.push_reserved(entry);
    }
    Ok(entries)
}

/// The entries of an array of a text's object.
pub(super) fn read_entries_of(
    alloc: Global,
    format: u64,
    schema: &mut Schema,
    items: ArrayOf<'_>,
    scratch: &mut Scratch,
) -> Result<Vec<KeptEntry>, Refusal>
    requires { AreFew (values_of items) }
    ensures answers { ReadsEntries format schema.old schema.new (values_of items.entry) result }
    ensures below { IfOk result (λ entries. AllBelow (length schema.new) entries.items) }
    ensures few { IfOk result (λ entries. length entries.items ≤ MOST_ENTRIES) }
    ensures why { IfErr result TellsText }
{
    let Ok(mut reader) = Reader::new(items.text, scratch) else {
        return Err(Refusal::NoMemory);
    };
    match enter(&mut reader, items.at.place) {
        Ok(()) => read_entries(alloc, format, schema, &mut reader),
        Err(_) => unreachable!(),
    }
}
