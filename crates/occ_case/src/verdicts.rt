//! The verdict on a case.
ghost use Rattle.std.specs.Prelude.{◌≡◌, ◌||◌, map};
ghost use Rattle.std.specs.List.{list_any};
ghost use Rattle.occ_model.specs.State.{meets_reads, meets_writes};
ghost use Rattle.occ_model.specs.Validity.{verdict};

use crate::cases::Case;
use occ_model::{Cause, Verdict};
use occ_sets::{ReadSet, WriteSet, meets_reads, meets_writes};
use std::alloc::Allocator;

/// Whether the transaction of a case commits, and else why it is backed up (Kung and Robinson, sections 3 to 5). It needs nothing
/// but the case, takes no memory and always answers.
pub fn verdict<A: Allocator>(case: &Case<A>) -> Verdict
    ensures { result ≡ verdict case.now }
{
    if case.start < case.low {
        return Verdict::BackUp(Cause::TooOld);
    }
    let (finished, active) = opponents(case);
    if some_wrote(finished, &case.reads) || some_may_write(active, &case.reads, &case.writes) {
        return Verdict::BackUp(Cause::Conflict);
    }
    Verdict::Commit
}

// The opponents of a case that had finished, and those that were active.
fn opponents<A: Allocator>(case: &Case<A>) -> (&[WriteSet<A>], &[WriteSet<A>])
    ensures finished { result.0.now ≡ case.now.finished }
    ensures active { result.1.now ≡ case.now.active }
{
    let all = case.opponents.as_slice();
    all.split_at(case.finished.min(all.len()))
}

// Whether some of the finished opponents wrote what was read.
fn some_wrote<A: Allocator>(finished: &[WriteSet<A>], reads: &ReadSet<A>) -> bool
    ensures { result ≡ list_any (λ theirs. meets_reads theirs (map (λ o. o.0) reads.now)) finished.now }
{
    finished.iter().any(|theirs| meets_reads(theirs, reads))
}

// Whether some of the active opponents writes what was read, or what is written.
fn some_may_write<A: Allocator>(
    active: &[WriteSet<A>],
    reads: &ReadSet<A>,
    writes: &WriteSet<A>,
) -> bool
    ensures { result ≡ list_any (λ theirs. meets_reads theirs (map (λ o. o.0) reads.now) || meets_writes theirs writes.now) active.now }
{
    active.iter().any(|theirs| may_write(theirs, reads, writes))
}

// Whether an active opponent writes what was read, or what is written.
fn may_write<A: Allocator>(theirs: &WriteSet<A>, reads: &ReadSet<A>, writes: &WriteSet<A>) -> bool
    ensures { result ≡ (meets_reads theirs.now (map (λ o. o.0) reads.now) || meets_writes theirs.now writes.now) }
{
    meets_reads(theirs, reads) || meets_writes(theirs, writes)
}
