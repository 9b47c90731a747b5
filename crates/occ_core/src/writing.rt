//! The single writes of a transaction that was decided to commit.
ghost use Rattle.std.specs.Prelude.{◌≡◌, ℕ, IsSome, None, Ok, is_some, true, option_map};
ghost use Rattle.occ_types.specs.PlainData.{object_of};
ghost use Rattle.occ_model.specs.Event.{WriteOne};
ghost use Rattle.occ_model.specs.Refusal.{refusal};
ghost use Rattle.occ_log.specs.SessionStates.{writes_done};
ghost use Rattle.occ_log.specs.Rows.{standing_of};
ghost use Rattle.occ_core.specs.Core.{Transition};
ghost use Rattle.occ_model.specs.Replies.{replied};
ghost use Rattle.occ_core.specs.Replies.{wrote, written_in, next_object, IsNextWrite};
ghost use Rattle.occ_core.specs.declared.writing.SingleWrite.TheVariants.{Wrote};

use crate::core_state::Core;
use crate::deciding::under_way;
use occ_book::Standing;
use occ_case::OpenCase;
use occ_types::{Fault, Object};
use std::alloc::Allocator;

/// What one call of `Core::write_one` did.
#[derive(Clone, Copy, Debug, PartialEq, Eq)]
pub enum SingleWrite {
    /// It put or deleted the row of the object that `Core::written` shows under these places.
    Wrote {
        /// The place in the order of entry of the transaction that the session has under way.
        row: usize,
        /// The place of the write in the order of its first writes, which is how many of them were done before.
        write: usize,
    },
    /// Nothing, since no write was left.
    NoMore,
}

impl<A: Allocator + Copy> Core<A> {
    /// Does the next single write of the transaction that the session has under way, and names its object, or says that none is left.
    /// A deletion takes no memory.
    ///
    /// Refused with the first of these that holds: `NoSession`; `NothingEntered`; `NotDecided`; `AlreadyDecided` where it is to be backed
    /// up; `Memory` where there is none for the row to be put.
    pub fn write_one(&mut self, session: usize) -> Result<SingleWrite, Fault>
        ensures step { Transition self.old (WriteOne session) (replied (wrote self.new.world) result) self.new }
        ensures totals { self.new.totals ≡ self.old.totals }
        ensures named { (row write : ℕ) → result ≡ Ok (Wrote row write) → is_some (written_in self.new.world row write) ≡ true }
        ensures own { (row write : ℕ) → result ≡ Ok (Wrote row write) → IsNextWrite self.old.world session row write }
    {
        let (place, row) = under_way(&self.sessions, &self.log, session)?;
        let done = writes_done(&row.standing)?;
        let Some((object, write)) = row.writes.write_at(done) else {
            return Ok(SingleWrite::NoMore);
        };
        self.tables.put(object.table, &object.key, write)?;
        self.log.stand(place, Standing::Writing(done + 1));
        Ok(SingleWrite::Wrote {
            row: place,
            write: done,
        })
    }
}

impl<A: Allocator> Core<A> {
    /// The object of the single write that `write_one` would do next for the session, or none where it would do none: where there is
    /// no such session, where nothing of it is under way or that is not decided to commit, and where no write is left.
    pub fn next_write(&self, session: usize) -> Option<&Object<A>>
        ensures object { option_map (λ o. object_of o.now) result ≡ next_object self.now.world session }
        ensures free { IsSome result → refusal self.now.world (WriteOne session) ≡ None }
    {
        let row = match under_way(&self.sessions, &self.log, session) {
            Ok((_place, row)) => row,
            Err(_fault) => return None,
        };
        let done = match writes_done(&row.standing) {
            Ok(done) => done,
            Err(_fault) => return None,
        };
        match row.writes.write_at(done) {
            Some((object, _row)) => Some(object),
            None => None,
        }
    }
}

// How many writes a row that stands so has done, where it is in its write phase.
fn writes_done<A: Allocator>(standing: &Standing<OpenCase<A>>) -> Result<usize, Fault>
    ensures { result ≡ writes_done (standing_of standing.now) }
{
    match standing {
        Standing::Open(_) => Err(Fault::NotDecided),
        Standing::Writing(done) => Ok(*done),
        Standing::Done(_) => Err(Fault::AlreadyDecided),
        Standing::Back(_) => Err(Fault::AlreadyDecided),
    }
}
