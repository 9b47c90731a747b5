//! Numbers that look like chance and are the same in each run.

/// A generator of such numbers.
#[derive(Clone, Copy)]
pub(crate) struct Dice {
    state: u64,
}

impl Dice {
    /// The generator of a seed.
    pub(crate) fn of(seed: u64) -> Dice {
        // seeds that are near one another are to give other numbers
        Dice {
            state: seed.wrapping_mul(0x9E37_79B9_7F4A_7C15) | 1,
        }
    }

    /// A number below this one; 0 where there is none.
    pub(crate) fn below(&mut self, limit: usize) -> usize {
        // the factor and the summand of Knuth's MMIX
        self.state = self
            .state
            .wrapping_mul(6_364_136_223_846_793_005)
            .wrapping_add(1_442_695_040_888_963_407);
        (self.state >> 33) as usize % limit.max(1)
    }

    /// True in one of so many cases.
    pub(crate) fn once_in(&mut self, cases: usize) -> bool {
        self.below(cases) == 0
    }

    /// A number for a row.
    pub(crate) fn number(&mut self) -> i64 {
        i64::try_from(self.below(100)).unwrap_or(0)
    }
}
