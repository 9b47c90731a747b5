//! Numbers that look like chance and are the same in each run.

/// A generator of such numbers.
#[derive(Clone, Copy)]
pub(crate) struct Dice {
    state: u64,
}

impl Dice {
    /// The generator of all that needs one alone.
    pub(crate) fn new() -> Dice {
        Dice { state: 1 }
    }

    /// The generator of a seed.
    pub(crate) fn of(seed: u64) -> Dice {
        // seeds that are near one another are to give other numbers
        Dice {
            state: seed.wrapping_mul(0x9E37_79B9_7F4A_7C15) | 1,
        }
    }

    /// A number below this one; 0 where there is none.
    pub(crate) fn below(&mut self, limit: u64) -> u64 {
        // the factor and the summand of Knuth's MMIX
        self.state = self
            .state
            .wrapping_mul(6_364_136_223_846_793_005)
            .wrapping_add(1_442_695_040_888_963_407);
        match limit {
            0 => 0,
            limit => (self.state >> 33) % limit,
        }
    }
}
