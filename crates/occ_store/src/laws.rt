//! The laws. Each function computes nothing: its contract is the law, and the check proves it.
ghost use Rattle.occ_store.specs.Laws.{KeptCausesAreTold};

/// Where a transaction waits for its back-up for the cause that was kept since its decision, the back-up tells that cause, whether its
/// row was folded meanwhile or not.
pub fn a_kept_cause_is_told()
    ensures { KeptCausesAreTold }
{}
