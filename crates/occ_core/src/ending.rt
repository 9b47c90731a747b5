//! The end of a transaction that was decided: its finish, or its back-up.
ghost use Rattle.std.specs.Prelude.{◌≡◌};
ghost use Rattle.occ_model.specs.Event.{Finish, Finished, BackUp, BackedUp};
ghost use Rattle.occ_log.specs.Logs.{row_at};
ghost use Rattle.occ_log.specs.SessionStates.{back_fault, finish_fault};
ghost use Rattle.occ_log.specs.Rows.{standing_of};
ghost use Rattle.occ_core.specs.Core.{Transition};
ghost use Rattle.occ_core.specs.Folding.{back_fault_of};
ghost use Rattle.occ_core.specs.Totals.{moved};
ghost use Rattle.occ_model.specs.Replies.{replied};

use crate::core_state::Core;
use crate::deciding::{row_under_way, under_way};
use occ_book::Standing;
use occ_case::OpenCase;
use occ_log::Log;
use occ_types::Fault;
use std::alloc::Allocator;

impl<A: Allocator> Core<A> {
    /// Ends the write phase of the transaction that the session has under way: it takes the next transaction number, which is
    /// answered, and the session may go on. It takes no memory.
    ///
    /// Refused with the first of these that holds: `NoSession`; `NothingEntered`; `NotDecided`; `AlreadyDecided` where it is to be backed
    /// up; `WritesLeft`.
    pub fn finish(&mut self, session: usize) -> Result<u64, Fault>
        ensures step { Transition self.old (Finish session) (replied Finished result) self.new }
        ensures totals { self.new.totals ≡ moved self.old.totals (replied Finished result) }
    {
        let (place, row) = under_way(&self.sessions, &self.log, session)?;
        if let Some(fault) = finish_fault(&row.standing, row.writes.len()) {
            return Err(fault);
        }
        let held = self.sessions.release(session - 1).unwrap();
        self.counter += 1;
        self.log.stand(place, Standing::Done(self.counter));
        self.window.advance(held.writes);
        self.totals.count_commit();
        Ok(self.counter)
    }

    /// Lets the session go on after its transaction was decided to be backed up, and answers the number of that transaction. Its
    /// row stays in the log, if it was not folded since. It takes no memory.
    ///
    /// Refused with the first of these that holds: `NoSession`; `NothingEntered`; `NotDecided`; `AlreadyDecided` where it commits.
    pub fn back_up(&mut self, session: usize) -> Result<u64, Fault>
        ensures step { Transition self.old (BackUp session) (replied BackedUp result) self.new }
        ensures totals { self.new.totals ≡ self.old.totals }
    {
        let place = row_under_way(&self.sessions, session)?;
        if let Some(fault) = back_fault_at(&self.log, place) {
            return Err(fault);
        }
        let last = self.sessions.last(session - 1);
        let _row = self.sessions.release(session - 1);
        Ok(last)
    }
}

// Why a row can't be finished that stands so and has so many writes.
fn finish_fault<A: Allocator>(standing: &Standing<OpenCase<A>>, writes: usize) -> Option<Fault>
    ensures { result ≡ finish_fault (standing_of standing.now) writes }
{
    match standing {
        Standing::Open(_) => Some(Fault::NotDecided),
        Standing::Writing(done) => {
            if *done < writes {
                Some(Fault::WritesLeft)
            } else {
                None
            }
        }
        Standing::Done(_) => Some(Fault::AlreadyDecided),
        Standing::Back(_) => Some(Fault::AlreadyDecided),
    }
}

// Why a row can't be backed up. One that does not stand in the log any more was decided to be.
fn back_fault_at<A: Allocator>(log: &Log<A>, place: usize) -> Option<Fault>
    ensures { result ≡ back_fault_of (row_at log.now place) }
{
    let row = log.row(place)?;
    back_fault(&row.standing)
}

// Why a row that stands so can't be backed up.
fn back_fault<A: Allocator>(standing: &Standing<OpenCase<A>>) -> Option<Fault>
    ensures { result ≡ back_fault (standing_of standing.now) }
{
    match standing {
        Standing::Open(_) => Some(Fault::NotDecided),
        Standing::Writing(_) => Some(Fault::AlreadyDecided),
        Standing::Done(_) => Some(Fault::AlreadyDecided),
        Standing::Back(_) => None,
    }
}
