//! Pseudo-random numbers.

/// A linear congruential generator with Knuth's factor for 64 bits.
#[derive(Drop)]
pub struct Dice {
    state: u64,
}

impl Dice {
    /// The generator with this seed.
    pub fn new(seed: u32) -> Dice {
        Dice {
            state: u64::from(seed),
        }
    }

    /// A number below `bound`; 0 if the bound is 0.
    pub fn below(&mut self, bound: usize) -> usize {
        self.state = self
            .state
            .wrapping_mul(6364136223846793005)
            .wrapping_add(1442695040888963407);
        (self.state >> 33) as usize % bound.max(1)
    }
}
