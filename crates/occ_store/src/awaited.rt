//! What waiting for a transaction comes to.
use occ_case::Ended;

/// A transaction that was handed in, and whose end was not told yet.
#[derive(Clone, Copy, Debug, PartialEq, Eq, Drop)]
pub struct Pending<V> {
    /// Its number in its session.
    pub number: u64,
    /// What the run of the body answered that made it.
    pub value: V,
}

/// What waiting for a transaction came to.
#[derive(Clone, Copy, Debug, PartialEq, Eq, Drop)]
pub enum Awaited<V> {
    /// It is over, and ended so.
    Settled(Ended<V>),
    /// It was not told as over when patience ended. `Session::wait` goes on waiting for it.
    Pending(Pending<V>),
}

impl<V> Awaited<V> {
    ghost use Rattle.std.specs.Prelude.{◌≡◌};
    ghost use Rattle.occ_store.specs.Clients.{was_backed_up};

    // Whether it is over and was backed up.
    pub(crate) fn was_backed_up(&self) -> bool
        ensures { result ≡ was_backed_up self.now }
    {
        matches!(self, Awaited::Settled(Ended::BackedUp(_)))
    }
}
