//! What each step makes of what a poll shows, and of the row of a session. Each function computes nothing: its contract is the law, and
//! the check proves it.

ghost use Rattle.occ_model.specs.EndLaws.{StepsShow, CasesStay, CausesAreTold, CausesStay};

/// Every step shows exactly this.
/// - One that ends no transaction leaves every session's poll and the counter, be it refused or not, and so does the entry of a closing
///   mark.
/// - One that commits, which is a finish, a serial end or operations that run alone, makes its session's poll one number more, committed,
///   under the next transaction number; of the other polls only the counter rises.
/// - One that backs up makes its session's poll one number more, for its cause, and leaves the others; where the row was folded before its
///   back-up, no poll shows how the transaction ended.
/// - After a checkpoint, what polls still show is as it was.
pub fn every_step_shows()
    ensures { StepsShow }
{}

/// Only the entry of a request gives a session an open row with another case, and that is the case which the entry fixes.
pub fn cases_stay()
    ensures { CasesStay }
{}

/// A transaction that was decided to be backed up waits for its back-up, for the cause that the decision told.
pub fn a_decision_tells_the_cause()
    ensures { CausesAreTold }
{}

/// A transaction that is to be backed up stays so over every step but its back-up, for the same cause as long as its row stands in the
/// log.
pub fn causes_stay()
    ensures { CausesStay }
{}
