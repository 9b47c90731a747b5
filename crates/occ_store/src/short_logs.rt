//! What a worker does so that the log stays short.
ghost use Rattle.std.specs.Prelude.{◌≡◌};
ghost use Rattle.occ_store.specs.Workers.{count_ended};

use occ_case::Ended;
use occ_core::AutoCheckpoint;

/// Counts how a transaction ended, where it committed.
pub(crate) fn count_end<V>(checkpoints: &mut AutoCheckpoint, ended: &Ended<V>)
    ensures { checkpoints.new ≡ count_ended ended.now checkpoints.old }
{
    if let Ended::Committed { .. } = ended {
        checkpoints.count();
    }
}
