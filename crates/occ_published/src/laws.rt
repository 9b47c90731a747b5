//! The laws. Each function computes nothing: its contract is the law, and the check proves it.

ghost use Rattle.occ_published.specs.Laws.{BegunIsPublished, OpenedIsPublished, StepsBetweenStayPublished, CommitsAreStored, BackUpsAreStored, SerialBackUpsAreStored, CausesOfRowsMayBeTold, CausesKeptMayBeTold};

/// A board shows a store that goes on from a base, whatever the base and the counter, once the publisher has stored the counter and has
/// set each session behind its last number.
pub fn a_board_shows_a_store_that_goes_on()
    ensures { BegunIsPublished }
{}

/// A new board shows a store that was just opened, with as many sessions.
pub fn a_new_board_shows_an_empty_store()
    ensures { OpenedIsPublished }
{}

/// A step that ends no transaction leaves the store shown by the words that stand: nothing is to be stored after it. It may be refused
/// or a checkpoint. That it ends none is seen by its event, or by its reply.
pub fn a_step_between_ends_stays_published()
    ensures { StepsBetweenStayPublished }
{}

/// After a finish, a serial end that commits or operations that run alone, the publisher may store the counter, and then the session's
/// word with the next number as committed: what its calls require holds, and the store is shown again.
pub fn a_commit_is_stored()
    ensures { CommitsAreStored }
{}

/// After a back-up the publisher may store the session's word with the number that was answered, which is the next one, and a cause that
/// may be told: what its call requires holds, and the store is shown again.
pub fn a_back_up_is_stored()
    ensures { BackUpsAreStored }
{}

/// After a serial end that backs up the publisher may store the session's word with the next number and the cause that was answered.
pub fn a_serial_back_up_is_stored()
    ensures { SerialBackUpsAreStored }
{}

/// After a back-up the cause with which the row stands in the log may be told. Where the row was folded before, any cause may, for the
/// log says none.
pub fn the_cause_of_a_row_may_be_told()
    ensures { CausesOfRowsMayBeTold }
{}

/// After a back-up the cause may be told that was kept since the decision.
pub fn the_cause_kept_may_be_told()
    ensures { CausesKeptMayBeTold }
{}
