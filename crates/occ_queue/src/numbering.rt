//! The numbers of what a session pushes.
ghost use Rattle.std.specs.Prelude.{◌≡◌, ◌≤◌, ◌+◌, ◌==◌, not, [], ◌∷◌};
ghost use Rattle.std.specs.Result.{result_err};
ghost use Rattle.occ_types.specs.declared.fault.Fault.TheVariants.{Closed, OutOfTurn};
ghost use Rattle.occ_types.specs.declared.limits.TheConstants.{MAX_NUMBER};
ghost use Rattle.occ_types.specs.Schema.{fault_if, first_fault};
ghost use Rattle.occ_model.specs.Refusal.{numbers_exhausted};
ghost use Rattle.occ_queue.specs.Items.{item_of};
ghost use Rattle.occ_queue.specs.Numbering.{out_of_turn, no_mark};

use crate::items::Item;
use occ_types::Fault;
use occ_types::limits::MAX_NUMBER;
use std::alloc::Allocator;

/// The number that was pushed last, and whether it was that of the closing mark. The numbers have no gap, and nothing follows the mark.
#[derive(Clone, Copy)]
pub(crate) struct Numbering {
    pub(crate) pushed: u64,
    pub(crate) closed: bool,
}

impl Numbering {
    /// The number that is pushed next.
    pub(crate) fn next(self) -> u64
        requires { self.pushed ≤ MAX_NUMBER }
        ensures { result ≡ self.pushed + 1 }
    {
        self.pushed + 1
    }

    /// The next number is pushed, that of the closing mark or not.
    pub(crate) fn push(&mut self, closes: bool)
        requires { self.old.pushed ≤ MAX_NUMBER }
        ensures { self.new ≡ record { pushed = self.old.pushed + 1; closed = closes } }
    {
        self.pushed += 1;
        self.closed = closes;
    }

    /// Whether a request with this number could be pushed, if there is room.
    pub(crate) fn check_number(self, number: u64) -> Result<(), Fault>
        requires { self.pushed ≤ MAX_NUMBER }
        ensures { result_err result ≡ first_fault (fault_if self.closed Closed ∷ numbers_exhausted (self.pushed + 1) ∷ fault_if (not (number == self.pushed + 1)) OutOfTurn ∷ []) }
    {
        self.check_close()?;
        let next = self.next();
        if next >= MAX_NUMBER {
            return Err(Fault::NumbersExhausted);
        }
        if number != next {
            return Err(Fault::OutOfTurn);
        }
        Ok(())
    }

    /// Whether an item may be submitted, if there is room.
    pub(crate) fn check_turn<A: Allocator>(self, item: &Item<A>) -> Result<(), Fault>
        requires { self.pushed ≤ MAX_NUMBER }
        ensures { result_err result ≡ out_of_turn self.closed (self.pushed + 1) (item_of item.now) }
    {
        self.check_number(item.number())?;
        if item.is_mark() {
            return Err(Fault::OutOfTurn);
        }
        Ok(())
    }

    /// Whether the closing mark may be pushed, if there is room.
    pub(crate) fn check_close(self) -> Result<(), Fault>
        requires { self.pushed ≤ MAX_NUMBER }
        ensures { result_err result ≡ no_mark self.closed (self.pushed + 1) }
    {
        if self.closed {
            return Err(Fault::Closed);
        }
        if self.next() > MAX_NUMBER {
            return Err(Fault::NumbersExhausted);
        }
        Ok(())
    }
}
