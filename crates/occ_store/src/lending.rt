//! The locked state is a store that an open transaction asks. It reads for the session of who visits it, whichever a call names.
ghost use Rattle.std.specs.Prelude.{◌≡◌};

use crate::names::Name;
use crate::shared::Shared;
use occ_open::{PageEnd, PagePlan, Readable};
use occ_sets::RangeRows;
use occ_types::{Fault, Key, Row, Schema};
use std::alloc::Allocator;

impl<N: Name, A: Allocator + Copy> Readable<A> for Shared<N, A> {
    ghost use Rattle.occ_store.specs.Locked.{ReadsSo, reader_of};

    ghost world = { λ shared. shared.filed.world };

    ghost moves = { ReadsSo };

    ghost reader = { λ shared session. reader_of shared.visitor.party };

    fn schema(&self) -> &Schema<A> {
        self.core().schema()
    }

    fn read(
        &mut self,
        _session: usize,
        number: u64,
        start: u64,
        table: usize,
        key: &Key<A>,
    ) -> Result<Option<Row<A>>, Fault> {
        self.read(self.reading(), number, start, table, key)
    }

    fn scan(
        &mut self,
        _session: usize,
        number: u64,
        start: u64,
        table: usize,
        lower: Option<&Key<A>>,
        upper: Option<&Key<A>>,
    ) -> Result<RangeRows<A>, Fault> {
        self.scan(self.reading(), number, start, table, lower, upper)
    }

    fn scan_apart(
        &mut self,
        _session: usize,
        number: u64,
        start: u64,
        table: usize,
        lower: Option<&Key<A>>,
        upper: Option<&Key<A>>,
    ) -> Result<Vec<(Key<A>, Row<A>), A>, Fault> {
        self.scan_apart(self.reading(), number, start, table, lower, upper)
    }

    fn plan(
        &self,
        end: PageEnd,
        table: usize,
        lower: Option<&Key<A>>,
        upper: Option<&Key<A>>,
        most: usize,
    ) -> Result<PagePlan<A>, Fault> {
        self.core().plan(end, table, lower, upper, most)
    }

    fn forget(&mut self, _session: usize, number: u64) -> Result<bool, Fault> {
        self.forget(self.reading(), number)
    }
}
