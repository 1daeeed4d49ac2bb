//! Calls of lines, and their replies.

use crate::telling::{HEADER, TURNS};
use std::alloc::Global;
use std::io;
use sw_lang::{parse_known, write_reply};
use sw_rows::{Call, Counted, Reply, Schema, TextKey};

/// The schema of the four rows.
pub(crate) fn schema_again<R: Print>(rt: &R, alloc: Global) -> io::Result<Option<Schema>> {
    for _turn in 0..TURNS {
        println!(rt; "> schema")?;
        match Schema::of(alloc, TextKey::fixed(), &HEADER) {
            Ok(schema) => {
                println!(rt; "done\n= none")?;
                return Ok(Some(schema));
            }
            Err(e) => println!(rt; "refused {e}\n= none")?,
        }
    }
    Ok(None)
}

/// The call of a line; none where it has none, or is refused again and again.
pub(crate) fn call_of<R: Print>(
    rt: &R,
    alloc: Global,
    schema: &Schema,
    line: &str,
) -> io::Result<Option<Call>> {
    for _turn in 0..TURNS {
        match parse_known(alloc, schema, 1, line) {
            Ok(call) => return Ok(call),
            Err(e) => println!(rt; "> read {line}\nrefused {e}\n= none")?,
        }
    }
    Ok(None)
}

/// Writes a reply.
pub(crate) fn tell_reply<R: Print>(
    rt: &R,
    schema: &Schema,
    call: &Call,
    reply: &Reply,
) -> io::Result<()> {
    match write_reply(schema, call, reply, &mut Counted::new(io::writer(rt))) {
        Ok(()) => Ok(()),
        Err(_) => println!(rt; "no reply was written"),
    }
}
