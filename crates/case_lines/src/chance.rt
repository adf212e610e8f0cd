//! Numbers that look random, by a fixed rule.

ghost use Rattle.std.specs.Prelude.{◌<◌};

/// A sequence of numbers that look random, the same each time.
#[derive(Drop)]
pub struct Chance {
    state: u64,
}

impl Chance {
    /// The sequence with this number.
    pub fn new(number: u64) -> Chance {
        Chance {
            state: number.wrapping_mul(0x9E37_79B9_7F4A_7C15),
        }
    }

    /// The next number below this limit.
    pub fn below(&mut self, limit: u32) -> u32
        requires { 0 < limit }
        ensures { result < limit }
    {
        self.state = self
            .state
            .wrapping_mul(6_364_136_223_846_793_005)
            .wrapping_add(1_442_695_040_888_963_407);
        (self.state >> 33) as u32 % limit
    }

    /// True for one number in `cases`, on average.
    pub fn is_one_in(&mut self, cases: u32) -> bool
        requires { 0 < cases }
    {
        self.below(cases) == 0
    }
}
