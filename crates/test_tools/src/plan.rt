//! Which requests are refused.

ghost use Rattle.test_tools.specs.Plans.{AreBounds};

/// Which requests for memory are refused. They are counted from 0.
#[derive(Clone, Copy, Debug, PartialEq, Eq)]
pub enum Plan {
    /// None.
    Nothing,
    /// The one at this place.
    Once(u64),
    /// The one at this place, and each one after it.
    From(u64),
}

impl Plan {
    /// The first and the last place that is refused; the last is before the first where none is.
    pub fn bounds(self) -> (u64, u64)
        ensures { AreBounds self result }
    {
        match self {
            Plan::Nothing => (1, 0),
            Plan::Once(only) => (only, only),
            Plan::From(first) => (first, u64::MAX),
        }
    }
}
