//! A core is a store that a transaction asks.
ghost use Rattle.std.specs.Prelude.{◌≡◌};

use crate::core_state::Core;
use occ_open::{PageEnd, PagePlan, Readable};
use occ_sets::RangeRows;
use occ_types::{Fault, Key, Row, Schema};
use std::alloc::Allocator;

impl<A: Allocator + Copy> Readable<A> for Core<A> {
    ghost world = { λ core. core.world };

    fn schema(&self) -> &Schema<A> {
        self.schema()
    }

    fn read(
        &mut self,
        session: usize,
        number: u64,
        start: u64,
        table: usize,
        key: &Key<A>,
    ) -> Result<Option<Row<A>>, Fault> {
        self.read(session, number, start, table, key)
    }

    fn scan(
        &mut self,
        session: usize,
        number: u64,
        start: u64,
        table: usize,
        lower: Option<&Key<A>>,
        upper: Option<&Key<A>>,
    ) -> Result<RangeRows<A>, Fault> {
        self.scan(session, number, start, table, lower, upper)
    }

    fn scan_apart(
        &mut self,
        session: usize,
        number: u64,
        start: u64,
        table: usize,
        lower: Option<&Key<A>>,
        upper: Option<&Key<A>>,
    ) -> Result<Vec<(Key<A>, Row<A>), A>, Fault> {
        self.scan_apart(session, number, start, table, lower, upper)
    }

    fn plan(
        &self,
        end: PageEnd,
        table: usize,
        lower: Option<&Key<A>>,
        upper: Option<&Key<A>>,
        most: usize,
    ) -> Result<PagePlan<A>, Fault> {
        self.plan_page(end, table, lower, upper, most)
    }

    fn forget(&mut self, session: usize, number: u64) -> Result<bool, Fault> {
        self.forget(session, number)
    }
}
