//! How a core means to answer a page of a range.
ghost use Rattle.std.specs.Prelude.{◌≡◌, IfOk, IsOkUnless};
ghost use Rattle.std.specs.Option.{option_copied};
ghost use Rattle.occ_types.specs.PlainData.{end_of};
ghost use Rattle.occ_types.specs.declared.fault.Fault.TheVariants.{Memory};
ghost use Rattle.occ_open.specs.Pages.{Fits, IsPlan, page_form, rows_in};

use crate::core_state::Core;
use occ_book::PageCut;
use occ_open::{PageEnd, PagePlan};
use occ_types::{Fault, Key};
use std::alloc::Allocator;

impl<A: Allocator + Copy> Core<A> {
    // How a page of a range is answered.
    pub(crate) fn plan_page(
        &self,
        end: PageEnd,
        table: usize,
        lower: Option<&Key<A>>,
        upper: Option<&Key<A>>,
        most: usize,
    ) -> Result<PagePlan<A>, Fault>
        ensures end { IfOk result (λ plan. plan.end ≡ end) }
        ensures plan { IfOk result (λ plan. IsPlan self.now.world (page_form end table (end_of (option_copied lower.entry)) (end_of (option_copied upper.entry)) most) plan) }
        ensures memory { IsOkUnless result Memory }
    {
        // that the rows fit their tables
        self.law();
        let cut = self.cut(end, table, lower, upper, most)?;
        PagePlan::new(end, table, lower, upper, cut.asked, cut.rest)
    }

    // Where a page of a range is cut; nowhere where the range doesn't fit the schema, so that the range itself is asked for, and refused.
    fn cut(
        &self,
        end: PageEnd,
        table: usize,
        lower: Option<&Key<A>>,
        upper: Option<&Key<A>>,
        most: usize,
    ) -> Result<PageCut<A>, Fault>
        ensures asked { let form = page_form end table (end_of (option_copied lower.entry)) (end_of (option_copied upper.entry)) most in
            IfOk result (λ cut. form.side (end_of cut.asked) ≡ form.asks self.now.world) }
        ensures rest { let form = page_form end table (end_of (option_copied lower.entry)) (end_of (option_copied upper.entry)) most in
            IfOk result (λ cut. Fits self.now.world form → end_of cut.rest ≡ (form.tells (rows_in self.now.world form.range)).1) }
        ensures memory { IsOkUnless result Memory }
    {
        if let Err(_unfit) = self.schema.check_range(table, lower, upper) {
            return Ok(PageCut::none());
        }
        let Some(definition) = self.schema.tables().get(table) else {
            return Ok(PageCut::none());
        };
        match end {
            PageEnd::First => self.tables.first_cut(definition, table, lower, upper, most),
            PageEnd::Last => self.tables.last_cut(table, lower, upper, most),
        }
    }
}
