//! Who looks on while a run makes its calls.

use sw_rows::{Call, Refusal, Reply};

/// Who looks on while a run makes its calls, in any of its threads. It is told of each call before and after, of those of
/// a block in their order, and of calls that are answered together that the first begins, and that each has ended; where that one was
/// asked so in vain, once more that it begins. It can touch neither the calls nor what comes of them. No clause speaks of what it sees.
pub trait Onlooker: Sync {
    /// Whether it asks when each call was made, so that each is made by itself.
    fn is_timing(&self) -> bool;

    /// A call begins. The number comes back when the call has ended.
    fn begins(&self, call: &Call) -> u64;

    /// The call of a block, by the block's number from 1, that began with this number has ended with this answer.
    fn ended(&self, block: u64, call: &Call, begun: u64, answer: &Result<Reply, Refusal>);
}

/// Nobody looks on.
#[derive(Clone, Copy)]
pub struct Nobody;

impl Onlooker for Nobody {
    fn is_timing(&self) -> bool {
        false
    }

    fn begins(&self, _call: &Call) -> u64 {
        0
    }

    fn ended(&self, _block: u64, _call: &Call, _begun: u64, _answer: &Result<Reply, Refusal>) {}
}
