//! A fixed sequence of numbers.

/// Numbers that look random and are the same in each run.
#[derive(Drop)]
pub struct Dice {
    state: u64,
}

impl Dice {
    /// The sequence of a seed; that of an even one is the next odd one's.
    pub fn of(seed: u64) -> Dice {
        Dice { state: seed | 1 }
    }

    /// The next number below a limit, or 0 where that is 0.
    pub fn roll(&mut self, below: u64) -> u64 {
        let mut x = self.state;
        x ^= x << 13;
        x ^= x >> 7;
        x ^= x << 17;
        self.state = x;
        (x >> 32) % below.max(1)
    }
}
