//! How large the stacks of threads are.

use std::alloc::Global;
use std::rt::Files;
use sw_files::read_file;

/// Where the system tells the limits of this process, a line each.
const LIMITS: &str = "/proc/self/limits";

/// What the line of stacks begins with; behind it stand the bytes, or `unlimited`.
const OF_STACKS: &[u8] = b"Max stack size";

/// The bytes of stack with which a block has a thread of its own: many times what it needs.
const AMPLE: u64 = 1_048_576;

/// The number that a line of the limits has behind its name; none where it has none there.
fn number_in(line: &[u8]) -> Option<u64> {
    let text = str::from_utf8(line).ok()?;
    text.split_whitespace().next()?.parse::<u64>().ok()
}

/// The bytes of a stack, by the lines that tell the limits; none where they tell of no limit.
fn stack_of(limits: &[u8]) -> Option<u64> {
    for line in limits.split(|byte| *byte == b'\n') {
        if let Some(rest) = line.strip_prefix(OF_STACKS) {
            return number_in(rest);
        }
    }
    None
}

/// Whether threads get ample stacks. The system makes each as large as the limit of this process says, and ends the
/// process by a signal where that is too small for what the thread does. Where it tells of no limit they are ample.
pub fn are_ample<R: Files>(rt: &R, alloc: Global) -> bool {
    match read_file(rt, alloc, LIMITS) {
        Ok(limits) => match stack_of(limits.as_slice()) {
            Some(bytes) => bytes >= AMPLE,
            None => true,
        },
        Err(_) => true,
    }
}
