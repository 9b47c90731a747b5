//! How transactions end.
use occ_model::Cause;

/// How the tries of a transaction ended.
#[derive(Clone, Copy, Debug, PartialEq, Eq, Drop)]
pub enum Ended<V> {
    /// The last one committed.
    Committed {
        /// Its transaction number.
        tn: u64,
        /// What its run of the body answered.
        value: V,
    },
    /// Each was backed up, the last one for this cause.
    BackedUp(Cause),
}

impl<V> Ended<V> {
    ghost use Rattle.std.specs.Prelude.{◌≡◌};
    ghost use Rattle.occ_case.specs.Ended.{tn_of, value_of};

    /// The transaction number under which it committed; none where it was backed up.
    pub fn tn(&self) -> Option<u64>
        ensures { result ≡ tn_of self.now }
    {
        match self {
            Ended::Committed { tn, .. } => Some(*tn),
            Ended::BackedUp(_) => None,
        }
    }

    /// What the run of its body answered that committed; none where it was backed up.
    pub fn value(self) -> Option<V>
        ensures { result ≡ value_of self }
    {
        match self {
            Ended::Committed { value, .. } => Some(value),
            Ended::BackedUp(_) => None,
        }
    }
}
