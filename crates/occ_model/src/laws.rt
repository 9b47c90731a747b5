//! The laws of the model. Each function computes nothing: its contract is the law, and the check proves it.

ghost use Rattle.occ_model.specs.Laws.{Headline, VerdictIsValidity, Decisions, RefusalsLeave, StepsKeep, SerialEndIsItsParts, CheckpointFolds, PollsRise, RunsStayInSchema};

/// After every run, for every number of sessions and every window, from the empty store or from any base: the log holds each
/// session's transactions once, in the order of their numbers, without a gap and none after its closing mark; each committed one
/// read what serial replay of those before it answers; and the table with the rest of each open write phase is the serial replay
/// of the log. Where no write phase is open, the table itself is.
pub fn every_run_is_serializable()
    ensures { Headline }
{}

/// The verdict on the case that an entry fixes is the validity of the textbook at that entry, cause included.
pub fn the_verdict_is_validity()
    ensures { VerdictIsValidity }
{}

/// A row commits only where it was valid at its entry, and is backed up only where it was not, for validity's cause, however late
/// the decision comes.
pub fn no_transaction_is_backed_up_without_cause()
    ensures { Decisions }
{}

/// A refused step leaves the world as it was.
pub fn a_refused_step_changes_nothing()
    ensures { RefusalsLeave }
{}

/// Every step keeps the invariant that the type of a running core rests on.
pub fn every_step_keeps_the_invariant()
    ensures { StepsKeep }
{}

/// A serial end is its entry, decision, single writes and finish at once, or its entry, decision and back-up.
pub fn a_serial_end_is_its_parts()
    ensures { SerialEndIsItsParts }
{}

/// A checkpoint folds the longest beginning of the log that can be folded, and the whole claim holds on from the new base.
pub fn a_checkpoint_folds_what_is_settled()
    ensures { CheckpointFolds }
{}

/// No step lets fall what a poll shows: neither the transaction counter, nor the number of a session's last transaction that is
/// over, nor the transaction number of its last one to finish.
pub fn polls_never_fall()
    ensures { PollsRise }
{}

/// What stands in a store that was opened fits its schema, after every run.
pub fn every_run_stays_in_its_schema()
    ensures { RunsStayInSchema }
{}
