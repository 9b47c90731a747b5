//! The decision of a transaction that has entered, and the row that a session has under way.
ghost use Rattle.std.specs.Prelude.{◌≡◌, ◌≤◌, IfOk, IfErr, OnOk, IsSome, Some, None, Ok, option_map};
ghost use Rattle.occ_model.specs.Event.{Decide, Decided};
ghost use Rattle.occ_model.specs.Refusal.{refusal};
ghost use Rattle.occ_model.specs.Step.{decided};
ghost use Rattle.occ_log.specs.Logs.{row_at};
ghost use Rattle.occ_log.specs.SessionStates.{row_under_way};
ghost use Rattle.occ_log.specs.Rows.{log_row_of, standing_of};
ghost use Rattle.occ_core.specs.Core.{Transition};
ghost use Rattle.occ_core.specs.Folding.{under_way_fault, verdict_on};
ghost use Rattle.occ_core.specs.OpenCases.{open_case, IsRight};
ghost use Rattle.occ_core.specs.Totals.{moved};
ghost use Rattle.occ_model.specs.Replies.{replied};

use crate::core_state::Core;
use occ_book::{LogRow, Standing};
use occ_case::{OpenCase, Verdict, verdict};
use occ_log::{Log, Sessions};
use occ_types::Fault;
use std::alloc::Allocator;

impl<A: Allocator> Core<A> {
    /// Decides the transaction that the session has entered: by the verdict on its case, it commits or is to be backed up. It takes no
    /// memory. Refused with the first of these that holds: `NoSession`; `NothingEntered`; `AlreadyDecided`.
    pub fn decide(&mut self, session: usize) -> Result<Verdict, Fault>
        ensures step { Transition self.old (Decide session) (replied Decided result) self.new }
        ensures totals { self.new.totals ≡ moved self.old.totals (replied Decided result) }
    {
        let (place, row) = under_way(&self.sessions, &self.log, session)?;
        let Some(verdict) = judged(row) else {
            return Err(Fault::AlreadyDecided);
        };
        self.log.stand(place, decided(verdict));
        self.totals.count_verdict(verdict);
        Ok(verdict)
    }

    /// Decides the transaction that the session has entered by a verdict on its case that was reached elsewhere, as outside a lock.
    /// Refused as `decide` is, in the same order. It takes no memory.
    pub fn decide_as(&mut self, session: usize, reached: Verdict) -> Result<Verdict, Fault>
        requires right { IsRight self.old.world session reached }
        ensures step { Transition self.old (Decide session) (replied Decided result) self.new }
        ensures totals { self.new.totals ≡ moved self.old.totals (replied Decided result) }
    {
        let (place, row) = under_way(&self.sessions, &self.log, session)?;
        let Standing::Open(_open) = &row.standing else {
            return Err(Fault::AlreadyDecided);
        };
        self.log.stand(place, decided(reached));
        self.totals.count_verdict(reached);
        Ok(reached)
    }

    /// The case of the transaction that the session has entered, or none where there is no such session, where nothing of it is under
    /// way, and where that is decided. Where there is one, it may be decided.
    pub fn open_case(&self, session: usize) -> Option<&OpenCase<A>>
        ensures case { option_map (λ c. c.now) result ≡ open_case self.now.world session }
        ensures free { IsSome result → refusal self.now.world (Decide session) ≡ None }
    {
        let row = match under_way(&self.sessions, &self.log, session) {
            Ok((_place, row)) => row,
            Err(_fault) => return None,
        };
        match &row.standing {
            Standing::Open(open) => Some(open),
            _ => None,
        }
    }
}

// The verdict on a row that is open, by its case alone, whatever became of the others since its entry.
fn judged<A: Allocator>(row: &LogRow<A, OpenCase<A>>) -> Option<Verdict>
    ensures { result ≡ verdict_on (standing_of row.now.standing) }
{
    match &row.standing {
        Standing::Open(open) => Some(verdict(open.case())),
        Standing::Writing(_) => None,
        Standing::Done(_) => None,
        Standing::Back(_) => None,
    }
}

// The place in the order of entry of the row that a session has under way, and the row. Refused where there is no such session, where nothing of
// it is under way, and where the row does not stand in the log any more: it was decided then, and folded.
pub(crate) fn under_way<'a, A: Allocator>(
    sessions: &Sessions<A>,
    log: &'a Log<A>,
    session: usize,
) -> Result<(usize, &'a LogRow<A, OpenCase<A>>), Fault>
    ensures session { OnOk result (1 ≤ session) }
    ensures place { IfOk result (λ found. row_under_way sessions.now session ≡ Ok found.0) }
    ensures row { IfOk result (λ found. row_at log.now found.0 ≡ Some (log_row_of found.1.now)) }
    ensures err { IfErr result (λ fault. under_way_fault sessions.now (row_at log.now) session ≡ Some fault) }
{
    let place = row_under_way(sessions, session)?;
    match log.row(place) {
        None => Err(Fault::AlreadyDecided),
        Some(row) => Ok((place, row)),
    }
}

// The place in the order of entry of the session's row that is under way.
pub(crate) fn row_under_way<A: Allocator>(
    sessions: &Sessions<A>,
    session: usize,
) -> Result<usize, Fault>
    ensures { result ≡ row_under_way sessions.now session }
{
    if session == 0 {
        return Err(Fault::NoSession);
    }
    match sessions.get(session - 1) {
        None => Err(Fault::NoSession),
        Some(state) => match &state.held {
            None => Err(Fault::NothingEntered),
            Some(held) => Ok(held.place),
        },
    }
}

// How a row stands that was decided so.
fn decided<A: Allocator>(verdict: Verdict) -> Standing<OpenCase<A>>
    ensures { standing_of result ≡ decided verdict }
{
    match verdict {
        Verdict::Commit => Standing::Writing(0),
        Verdict::BackUp(cause) => Standing::Back(cause),
    }
}
