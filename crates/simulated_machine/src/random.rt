//! Numbers by a seed.
ghost use Rattle.std.specs.Prelude.{◌≤◌, ◌<◌};

/// Numbers that look random. The same seed gives the same ones (splitmix64, by Steele, Lea and Flood).
#[derive(Clone, Copy)]
pub struct Random {
    state: u64,
}

impl Random {
    /// The numbers of this seed.
    pub fn new(seed: u64) -> Random {
        Random { state: seed }
    }

    /// The next number, of 64 bits.
    pub fn draw(&mut self) -> u64 {
        self.state = self.state.wrapping_add(0x9E37_79B9_7F4A_7C15);
        let state = self.state;
        let once = (state ^ (state >> 30)).wrapping_mul(0xBF58_476D_1CE4_E5B9);
        let twice = (once ^ (once >> 27)).wrapping_mul(0x94D0_49BB_1331_11EB);
        twice ^ (twice >> 31)
    }

    /// A number below this one; 0 if that is 0.
    pub fn below(&mut self, limit: u64) -> u64
        ensures { result ≤ limit }
    {
        if limit == 0 {
            return 0;
        }
        self.draw() % limit
    }

    /// The same, for a number of things.
    pub fn index(&mut self, count: usize) -> usize {
        self.below(count as u64) as usize
    }

    /// Whether it happens, if it happens once in so many times.
    pub fn once_in(&mut self, times: u64) -> bool {
        self.below(times) == 0
    }
}
