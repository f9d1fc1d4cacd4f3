// Numbers that look random and are the same in each run: a linear congruential generator.

/// A generator of numbers.
#[derive(Drop)]
pub struct Generator {
    state: u64,
}

impl Generator {
    /// The generator that starts at `seed`.
    pub fn new(seed: u64) -> Generator {
        Generator { state: seed }
    }

    /// The next number of 64 bits.
    pub fn word(&mut self) -> u64 {
        let _ = self.below(0);
        let high = self.state >> 32;
        let _ = self.below(0);
        (high << 32) | (self.state >> 32)
    }

    /// The next number below `limit`, or 0 where `limit` is 0.
    pub fn below(&mut self, limit: u8) -> u8 {
        self.state = self
            .state
            .wrapping_mul(6364136223846793005)
            .wrapping_add(1442695040888963407);
        if limit == 0 {
            return 0;
        }
        let high = self.state >> 33;
        (high % u64::from(limit)) as u8
    }
}
