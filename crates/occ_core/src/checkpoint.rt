//! Checkpoints: the settled beginning of the log goes into the base.
ghost use Rattle.std.specs.Prelude.{◌≡◌, ◌<◌, ◌≤◌, ◌+◌, ◌^◌, ℕ, length, take, IfOk, IfErr, OnOk, OnErr, IsOkUnless, MatchResult};
ghost use Rattle.occ_types.specs.declared.fault.Fault.TheVariants.{Memory, StoreBusy};
ghost use Rattle.occ_model.specs.Event.{Checkpoint, Folded};
ghost use Rattle.occ_model.specs.Step.{folded, foldable_part};
ghost use Rattle.occ_model.specs.World.{low, active_count};
ghost use Rattle.occ_core.specs.Core.{Transition};
ghost use Rattle.occ_core.specs.Folding.{AllFit};
ghost use Rattle.occ_model.specs.Replies.{replied};

use crate::actives::has_open;
use crate::core_state::Core;
use occ_book::Base;
use occ_log::Log;
use occ_types::{Fault, Refused};
use std::alloc::Allocator;

/// The greatest place that a log may begin at. No store gets there: at ten million transactions a second it would take some twenty-nine
/// thousand years.
pub const MAX_PLACE: usize = 9223372036854775808;

/// The greatest place that a log may begin at, as the number that it is.
pub fn greatest_place_is_this()
    ensures { MAX_PLACE ≡ 2 ^ 63 }
{}

impl<A: Allocator + Copy> Core<A> {
    /// Folds the longest beginning of the log whose rows are backed up, or finished under a number that is not above the lower end of
    /// the window, and answers how many rows that are. They go into the base (`base`): what the committed ones wrote, their numbers and
    /// their places. The rows that stay keep their places, and all other calls answer as before; the limit on rows counts those that
    /// stay. The memory of the folded rows goes back to the allocator.
    ///
    /// Refused with `StoreBusy` while a row is open, and then with `Memory` where there is none for the base, or where the log would begin
    /// at a place above `MAX_PLACE`. Nothing moves then.
    ///
    /// The time is that of a search for each write of the folded rows, and of a walk over the sessions and, where anything is folded, over
    /// the log. No row of the tables is looked at that was not written since.
    pub fn checkpoint(&mut self) -> Result<usize, Fault>
        ensures step { Transition self.old Checkpoint (replied Folded result) self.new }
        ensures totals { self.new.totals ≡ self.old.totals }
    {
        if has_open(&self.sessions, &self.log) {
            return Err(Fault::StoreBusy);
        }
        let count = self.foldable();
        if count == 0 {
            return Ok(count);
        }
        check_place(self.base.place(), count)?;
        fold_front(&mut self.base, &self.log, count)?;
        self.log.fold(count);
        Ok(count)
    }
}

impl<A: Allocator + Copy> Core<A> {
    /// What a store leaves for one that goes on from it: its base with all rows of the log folded into it, those within the window too.
    /// A closing mark isn't kept. It takes no memory.
    ///
    /// Refused with `StoreBusy`, and the store handed back, while a transaction is active: it is open, or in its write phase.
    pub fn into_base(self) -> Result<Base<A>, Refused<Core<A>>>
        ensures folded { IfOk result (λ base. base ≡ record { tables = length self.world.settings.schema; sessions = self.world.settings.sessions; base = folded self.world.base self.world.log }) }
        ensures state { IfOk result (λ base. base.base.state ≡ self.world.table) }
        ensures quiet { MatchResult result (λ _. active_count self.world ≡ 0) (λ refused. (0 < active_count self.world) × (refused.fault ≡ StoreBusy)) }
        ensures handed_back { IfErr result (λ refused. refused.value ≡ self) }
    {
        if self.active() > 0 {
            return Err(Refused {
                value: self,
                fault: Fault::StoreBusy,
            });
        }
        let Core {
            tables,
            base,
            log,
            ..
        } = self;
        Ok(base.behind(log.rows(), tables))
    }
}

impl<A: Allocator> Core<A> {
    // How many rows the longest beginning of the log has that can be folded.
    fn foldable(&self) -> usize
        ensures { result ≡ length (foldable_part (low self.now.world) self.now.world.log) }
    {
        self.log.foldable(self.low())
    }
}

// Whether a log that begins at a place may begin so many places later.
fn check_place(place: usize, count: usize) -> Result<(), Fault>
    ensures ok { OnOk result (place + count ≤ MAX_PLACE) }
    ensures err { OnErr result (MAX_PLACE < place + count) }
    ensures memory { IsOkUnless result Memory }
{
    if place > MAX_PLACE || count > MAX_PLACE - place {
        return Err(Fault::Memory);
    }
    Ok(())
}

// So many rows from the beginning of the log go into the base as well. Refused with `Memory` alone, and then the base is as it was.
fn fold_front<A: Allocator + Copy>(
    base: &mut Base<A>,
    log: &Log<A>,
    count: usize,
) -> Result<(), Fault>
    requires count { count ≤ length log.now.rows }
    requires fit { AllFit base.old.tables base.old.sessions log.now.rows }
    requires place { base.old.base.place + count < 2 ^ 64 }
    ensures ok { OnOk result (base.new ≡ record base.old { base = folded base.old.base (take count log.now.rows) }) }
    ensures err { OnErr result (base.new ≡ base.old) }
    ensures memory { IsOkUnless result Memory }
{
    base.fold(&log.rows()[..count])
}
