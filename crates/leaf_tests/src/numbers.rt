//! Numbers that look random and are the same in each run.

ghost use Rattle.std.specs.Prelude.{◌<◌, ◌≤ℤ◌, neg_ℤ, pos};

/// The generator of Park and Miller, "Random number generators: good ones are hard to find", with its later multiplier.
#[derive(Drop)]
pub(crate) struct Numbers {
    state: u64,
    ghost small: { state < 2147483647 },
}

impl Numbers {
    pub(crate) fn from_seed(seed: u32) -> Numbers {
        Numbers {
            state: u64::from(seed) % 2147483646 + 1,
        }
    }

    /// A number from 0 on that is below the count.
    pub(crate) fn below(&mut self, count: u64) -> u64
        requires { 0 < count }
        ensures { result < count }
    {
        self.state = self.state * 48271 % 2147483647;
        self.state / 8 % count
    }

    /// A number that is at most so great in size.
    pub(crate) fn within(&mut self, size: u32) -> i64
        ensures low { neg_ℤ (pos size) ≤ℤ result }
        ensures high { result ≤ℤ pos size }
    {
        let size = u64::from(size);
        self.below(2 * size + 1) as i64 - size as i64
    }
}
