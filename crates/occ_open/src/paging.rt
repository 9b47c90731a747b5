//! What an open transaction reads of a range in pages.
ghost use Rattle.std.specs.Prelude.{◌≡◌};
ghost use Rattle.std.specs.Option.{option_copied};
ghost use Rattle.occ_types.specs.PlainData.{end_of};
ghost use Rattle.occ_model.specs.Step.{Step};
ghost use Rattle.occ_open.specs.Pages.{CopyPagesBy, IsPlanned, PlannedBy, page_form, paging};
ghost use Rattle.occ_open.specs.Transactions.{CopyWantsRange, IsSpan, OrStarves, OrStarvesBy};

use crate::asking::ask_apart;
use crate::pages::{Page, PageEnd, PagePlan};
use crate::readable::Readable;
use occ_sets::PrivateCopy;
use occ_types::{Fault, Key, Row};
use std::alloc::Allocator;

/// A page of a range: rows that the store answers, with the own writes over them. All memory that these need is taken before the store
/// is asked.
pub(crate) fn page<A: Allocator + Copy, S: Readable<A>>(
    copy: &PrivateCopy<A>,
    store: &mut S,
    session: usize,
    end: PageEnd,
    table: usize,
    lower: Option<&Key<A>>,
    upper: Option<&Key<A>>,
    most: usize,
) -> Result<Page<A>, Fault>
    ensures step { let form = page_form end table (end_of (option_copied lower.entry)) (end_of (option_copied upper.entry)) most in
        OrStarves (CopyWantsRange (S.world store.old).settings.schema form.range) (S.world store.old) (paging result) (S.world store.new)
        (CopyPagesBy (S.world store.old).settings.schema (S.world store.new ≡ S.world store.old) (λ event reply. Step (S.world store.old) event reply (S.world store.new)) (S.reader store.old session) form (form.asks (S.world store.old)) copy.now result) }
    ensures moves { let form = page_form end table (end_of (option_copied lower.entry)) (end_of (option_copied upper.entry)) most in
        OrStarvesBy (CopyWantsRange (S.world store.old).settings.schema form.range) (store.new ≡ store.old) (paging result)
        (CopyPagesBy (S.world store.old).settings.schema (store.new ≡ store.old) (λ event reply. S.moves store.old event reply store.new) (S.reader store.old session) form (form.asks (S.world store.old)) copy.now result) }
{
    store.schema().check_range(table, lower, upper)?;
    let plan = store.plan(end, table, lower, upper, most)?;
    let rows = rows_planned(copy, store, session, &plan);
    plan.page(rows)
}

// The rows of the page that a plan makes.
fn rows_planned<A: Allocator + Copy, S: Readable<A>>(
    copy: &PrivateCopy<A>,
    store: &mut S,
    session: usize,
    plan: &PagePlan<A>,
) -> Result<Vec<(Key<A>, Row<A>), A>, Fault>
    requires asked { IsSpan plan.now.asked }
    requires shown { IsSpan plan.now.shown }
    requires planned { IsPlanned (S.world store.old) plan.now }
    ensures step { PlannedBy (S.world store.old) (S.world store.new ≡ S.world store.old) (λ event reply. Step (S.world store.old) event reply (S.world store.new)) (S.reader store.old session) plan.now copy.now result }
    ensures moves { PlannedBy (S.world store.old) (store.new ≡ store.old) (λ event reply. S.moves store.old event reply store.new) (S.reader store.old session) plan.now copy.now result }
{
    if copy.meets(&plan.shown) {
        return rows_over(copy, store, session, plan);
    }
    let rows = ask_apart(copy, store, session, &plan.asked)?;
    Ok(plan.cut(rows))
}

// The same where something of what the page shows is written.
fn rows_over<A: Allocator + Copy, S: Readable<A>>(
    copy: &PrivateCopy<A>,
    store: &mut S,
    session: usize,
    plan: &PagePlan<A>,
) -> Result<Vec<(Key<A>, Row<A>), A>, Fault>
    requires asked { IsSpan plan.now.asked }
    requires shown { IsSpan plan.now.shown }
    requires planned { IsPlanned (S.world store.old) plan.now }
    ensures step { PlannedBy (S.world store.old) (S.world store.new ≡ S.world store.old) (λ event reply. Step (S.world store.old) event reply (S.world store.new)) (S.reader store.old session) plan.now copy.now result }
    ensures moves { PlannedBy (S.world store.old) (store.new ≡ store.old) (λ event reply. S.moves store.old event reply store.new) (S.reader store.old session) plan.now copy.now result }
{
    let prepared = copy.prepare(&plan.shown)?;
    let rows = ask_apart(copy, store, session, &plan.asked)?;
    Ok(prepared.over_apart(plan.cut(rows)))
}
