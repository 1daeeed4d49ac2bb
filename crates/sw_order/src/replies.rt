//! Replies as numbers, as far as logs' lines are replies.

use crate::tasks::{MANY, Weigh};
use std::alloc::{AllocError, Global};
use sw_rows::{Call, Query, Reply, Schema, Want};
use sw_spine::Lines;

/// The one line of a reply, if it has just one.
fn only_line(lines: &Lines) -> Option<&str> {
    match lines.as_slice() {
        [line] => Some(line.as_str()),
        _ => None,
    }
}

/// The number that digits write, without a sign or zeros before it.
fn number_of(digits: &str) -> Option<u64> {
    if digits.starts_with('+') || (digits.starts_with('0') && digits.len() > 1) {
        return None;
    }
    digits.parse::<u64>().ok()
}

/// The number between two texts.
pub(crate) fn number_between(text: &str, before: &str, after: &str) -> Option<u64> {
    let rest = text.strip_prefix(before)?;
    number_of(rest.strip_suffix(after)?)
}

/// The digits of a number, whatever else stands among them, as one whole number.
fn units_of(text: &str) -> Option<i128> {
    let mut units: i128 = 0;
    for byte in text.bytes() {
        if byte.is_ascii_digit() {
            units = units.checked_mul(10)?.checked_add(i128::from(byte - b'0'))?;
        }
    }
    if text.starts_with('-') {
        units.checked_neg()
    } else {
        Some(units)
    }
}

/// The least or the greatest cell that a line tells; None where it tells none.
fn extreme_of(line: &str) -> Option<Option<i64>> {
    match line {
        "none" => Some(None),
        "true" => Some(Some(1)),
        "false" => Some(Some(0)),
        _ => match i64::try_from(units_of(line)?) {
            Ok(cell) => Some(Some(cell)),
            Err(_) => None,
        },
    }
}

/// The reply of one line that a call was perhaps given.
fn reply_of(call: &Call, line: &str) -> Option<Reply> {
    match call {
        Call::Insert(_) if line == "full" => Some(Reply::Full),
        Call::Insert(_) => Some(Reply::Inserted(number_between(line, "key ", "")?)),
        Call::Delete(_) if line == "removed" => Some(Reply::Removed),
        Call::Delete(_) => Some(Reply::NoSuchKey),
        Call::DeleteWhere(_) => Some(Reply::RemovedMany(number_between(line, "(", " removed)")?)),
        Call::Select(query) => match query.want {
            Want::Rows(_) => None,
            Want::Count => Some(Reply::Count(number_between(line, "", "")?)),
            Want::Sum(_) => Some(Reply::Sum(units_of(line)?)),
            Want::Min(_) | Want::Max(_) => Some(Reply::Least(extreme_of(line)?)),
        },
    }
}

/// The reply that lines are, where they are one line and that of a reply.
pub(crate) fn short_reply(
    alloc: Global,
    schema: &Schema,
    call: &Call,
    lines: &Lines,
) -> Result<Option<Reply>, AllocError> {
    let Some(line) = only_line(lines) else {
        return Ok(None);
    };
    let Some(reply) = reply_of(call, line) else {
        return Ok(None);
    };
    let printed = Lines::of_reply(alloc, schema, call, &reply)?;
    if printed.are(lines) {
        Ok(Some(reply))
    } else {
        Ok(None)
    }
}

/// How the rows of a query count, and the least and the greatest number by which the reply is a given one.
pub(crate) fn weighing(query: &Query, reply: &Reply) -> Option<(Weigh, i128, i128)> {
    match (&query.want, reply) {
        (Want::Count, Reply::Count(count)) => {
            Some((Weigh::One, i128::from(*count), i128::from(*count)))
        }
        (Want::Sum(attr), Reply::Sum(sum)) => Some((Weigh::Cell(*attr), *sum, *sum)),
        (Want::Min(attr), Reply::Least(Some(cell))) => {
            Some((Weigh::Least(*attr, *cell), 1, MANY - 1))
        }
        (Want::Max(attr), Reply::Least(Some(cell))) => {
            Some((Weigh::Greatest(*attr, *cell), 1, MANY - 1))
        }
        (Want::Min(_) | Want::Max(_), Reply::Least(None)) => Some((Weigh::One, 0, 0)),
        _ => None,
    }
}

/// The key with which a line of a row begins.
pub(crate) fn key_of(line: &str) -> Option<u64> {
    let (key, _) = line.split_once(':')?;
    number_of(key)
}
