//! What is wrong with an entry of a history file.

use crate::shown::named;
use json::{Error, Reader, Scratch, Token, Value};
use std::alloc::{AllocError, Global};

/// The members of an entry.
const MEMBERS: [&str; 3] = ["call", "reply", "session"];

/// The greatest number of a session.
const MOST_SESSIONS: u64 = 1024;

/// How deep what stands in a history file may nest.
const DEPTH: usize = 126;

/// Passes over so many values of an array that was begun.
fn pass(reader: &mut Reader<'_>, count: u64) -> Result<(), Error> {
    for _ in 0..count {
        reader.skip_value(DEPTH)?;
    }
    Ok(())
}

/// Passes over the values of an array that was begun, and its end.
fn pass_rest(reader: &mut Reader<'_>) -> Result<(), Error> {
    for _ in 0..u64::MAX {
        if reader.take_end_array() {
            return Ok(());
        }
        reader.skip_value(DEPTH)?;
    }
    Ok(())
}

/// The value of a number, from 1, of the array that comes next.
fn item<'t>(alloc: Global, reader: &mut Reader<'t>, number: u64) -> Result<Value<'t>, Error> {
    let Some(Token::BeginArray) = reader.next() else {
        return Err(Error::Invalid);
    };
    pass(reader, number.saturating_sub(1))?;
    let value = Value::read(alloc, reader, DEPTH)?;
    pass_rest(reader)?;
    Ok(value)
}

/// The entry of a number, from 1, of a history file's text. Of arrays of entries the last is the history's.
fn entry_in<'t>(alloc: Global, reader: &mut Reader<'t>, number: u64) -> Result<Value<'t>, Error> {
    let Some(Token::BeginObject) = reader.next() else {
        return Err(Error::Invalid);
    };
    let mut found = Value::Null;
    for _ in 0..u64::MAX {
        match reader.next_key()? {
            Some("entries") => found = item(alloc, reader, number)?,
            Some(_) => reader.skip_value(DEPTH)?,
            None => return Ok(found),
        }
    }
    Ok(found)
}

/// Whether all values are texts.
fn are_texts(values: &[Value<'_>]) -> bool {
    for value in values {
        if value.as_str().is_none() {
            return false;
        }
    }
    true
}

/// Whether a value is lines.
fn are_lines(value: &Value<'_>) -> bool {
    match value {
        Value::Array(items) => are_texts(items.as_slice()),
        _ => false,
    }
}

/// Whether a value is a word in the place of a select's reply.
fn is_word(value: &Value<'_>) -> bool {
    matches!(value.as_str(), Some("open" | "void"))
}

/// Whether a value is the number of a session.
fn is_session(value: &Value<'_>) -> bool {
    match value.as_u64() {
        Some(number) => number >= 1 && number <= MOST_SESSIONS,
        None => false,
    }
}

/// Whether a line is that of an insert or a delete.
fn is_update(line: &str) -> bool {
    let text = line.trim_start();
    text.starts_with("insert") || text.starts_with("delete")
}

/// What is wrong with a reply to the call of a line; nothing where nothing is.
fn wrong_reply(line: &str, reply: &Value<'_>) -> Option<&'static str> {
    if is_word(reply) {
        return if is_update(line) {
            Some("\"open\" and \"void\" stand at selects alone")
        } else {
            None
        };
    }
    if are_lines(reply) {
        None
    } else {
        Some("member \"reply\" is no array of lines, nor \"open\" or \"void\"")
    }
}

/// What is wrong with the call of a line; nothing where nothing is seen.
fn wrong_call(line: &str) -> Option<&'static str> {
    let text = line.trim_start();
    if text.is_empty() || text.starts_with('#') {
        Some("member \"call\" has no call")
    } else {
        None
    }
}

/// What is wrong with the values of members that an entry has.
fn wrong_values(entry: &Value<'_>) -> &'static str {
    let Some(Value::String(line)) = entry.get("call") else {
        return "member \"call\" is no text";
    };
    if let Some(wrong) = wrong_call(line) {
        return wrong;
    }
    let (Some(session), Some(reply)) = (entry.get("session"), entry.get("reply")) else {
        return "";
    };
    if !is_session(session) {
        return "member \"session\" is no whole number from 1 to 1024";
    }
    match wrong_reply(line, reply) {
        Some(wrong) => wrong,
        None => "a delete where stands in a file of format 3 alone",
    }
}

/// The name of the first member that no entry has, if there is one.
fn odd_member<'v>(members: &'v [(&str, Value<'_>)]) -> Option<&'v str> {
    for (name, _) in members {
        match *name {
            "call" | "reply" | "session" => {}
            name => return Some(name),
        }
    }
    None
}

/// The name of the first member that an entry lacks, if it lacks one.
fn missing_member(entry: &Value<'_>) -> Option<&'static str> {
    for name in MEMBERS {
        if entry.get(name).is_none() {
            return Some(name);
        }
    }
    None
}

/// What is wrong with an entry that is an object: a member that no entry has, one that is missing, or the value of one.
fn wrong_object(
    alloc: Global,
    entry: &Value<'_>,
    members: &[(&str, Value<'_>)],
) -> Result<String, AllocError> {
    if let Some(name) = odd_member(members) {
        let shown = named(alloc, name)?;
        return format!(in alloc; "member {shown} is not one of call, reply, session");
    }
    if let Some(name) = missing_member(entry) {
        return format!(in alloc; "member \"{name}\" is missing");
    }
    String::from_str(alloc, wrong_values(entry))
}

/// What is wrong with an entry.
fn wrong(alloc: Global, entry: &Value<'_>) -> Result<String, AllocError> {
    match entry {
        Value::Object(members) => wrong_object(alloc, entry, members.as_slice()),
        _ => String::from_str(alloc, "no object of call, reply, session"),
    }
}

/// What is wrong with the entry of a number, from 1, of the history file of a name that is refused at it, as a line; nothing
/// where no words can be found. The one error is that there is no memory.
pub fn wrong_entry(
    alloc: Global,
    name: &str,
    bytes: &[u8],
    number: u64,
) -> Result<String, AllocError> {
    let Ok(text) = std::str::from_utf8(bytes) else {
        return Ok(String::new(alloc));
    };
    let mut scratch = Scratch::new(alloc);
    let mut reader = Reader::new(text, &mut scratch)?;
    match entry_in(alloc, &mut reader, number) {
        Ok(entry) => {
            let told = wrong(alloc, &entry)?;
            format!(in alloc; "{name} entry {number}: {told}\n")
        }
        Err(Error::OutOfMemory) => Err(AllocError),
        Err(_) => Ok(String::new(alloc)),
    }
}
