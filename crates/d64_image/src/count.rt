//! A count that stays at its greatest value once there.
ghost use Rattle.std.specs.Prelude.{◌≤◌};

/// A device's count of calls, from 0 to 2^64 - 1.
#[derive(Clone, Copy, Debug, PartialEq, Eq)]
pub struct Count {
    n: u64,
    ghost fits: { n ≤ 18446744073709551615 },
}

impl Count {
    ghost use Rattle.std.specs.Prelude.{◌≡◌, ◌+◌, min};
    ghost use Rattle.d64_image.specs.Counts.{calls_of};

    /// No call so far.
    pub fn zero() -> Count
        ensures { calls_of result ≡ 0 }
    {
        Count { n: 0 }
    }

    /// Counts one more call. A count of 2^64 - 1 stays.
    pub fn add_one(&mut self)
        ensures { calls_of self.new ≡ min (calls_of self.old + 1) 18446744073709551615 }
    {
        self.n = self.n.saturating_add(1);
    }

    /// The number of calls counted.
    pub fn get(&self) -> u64
        ensures { result ≡ calls_of self.now }
    {
        self.n
    }
}
