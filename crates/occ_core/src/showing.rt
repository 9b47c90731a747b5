//! What a core shows, lent or kept apart from it.
ghost use Rattle.std.specs.Prelude.{◌≡◌, length, IfOk, IsOkUnless, option_map};
ghost use Rattle.occ_types.specs.declared.fault.Fault.TheVariants.{Memory};
ghost use Rattle.occ_types.specs.PlainData.{object_of};
ghost use Rattle.occ_model.specs.Poll.{row_numbered};
ghost use Rattle.occ_model.specs.World.{low};
ghost use Rattle.occ_log.specs.Rows.{log_of, log_row_of};
ghost use Rattle.occ_core.specs.Replies.{written_in};

use crate::core_state::Core;
use occ_book::{Base, Book, BookView, LogRow, Marks, Tables};
use occ_case::OpenCase;
use occ_types::{Fault, Object, Schema};
use std::alloc::Allocator;

impl<A: Allocator> Core<A> {
    /// The tables of the store, and what fits them.
    pub fn schema(&self) -> &Schema<A>
        ensures { result.now ≡ self.now.world.settings.schema }
    {
        &self.schema
    }

    /// The rows that stand in the tables.
    pub fn table(&self) -> &Tables<A>
        ensures state { result.now.state ≡ self.now.world.table }
        ensures count { result.now.tables ≡ length self.now.world.settings.schema }
    {
        &self.tables
    }

    /// How many sessions there are; they are numbered from 1.
    pub fn sessions(&self) -> usize
        ensures { result ≡ self.now.world.settings.sessions }
    {
        self.sessions.len()
    }

    /// What was folded out of the log: the state that the folded rows made, the last folded number of each session, and the place of
    /// the row that was to enter next.
    pub fn base(&self) -> &Base<A>
        ensures base { result.now.base ≡ self.now.world.base }
        ensures tables { result.now.tables ≡ length self.now.world.settings.schema }
        ensures sessions { result.now.sessions ≡ self.now.world.settings.sessions }
    {
        &self.base
    }

    /// The decision log: the rows that stand in it, in the order of entry.
    pub fn log(&self) -> &[LogRow<A, OpenCase<A>>]
        ensures { log_of result.now ≡ self.now.world.log }
    {
        self.log.rows()
    }

    /// The row of a session's transaction with this number, or none where it does not stand in the log. It is found at once, however
    /// long the log is: the core keeps the places of each session's rows, and their numbers have no gap.
    pub fn row(&self, session: usize, number: u64) -> Option<&LogRow<A, OpenCase<A>>>
        ensures { option_map (λ r. log_row_of r.now) result ≡ row_numbered session number self.now.world.log }
    {
        self.log.numbered(session, number)
    }

    /// The closing marks: of each session that is closed, the number of its mark.
    pub fn marks(&self) -> &Marks<A>
        ensures marks { result.now.marks ≡ self.now.world.marks }
        ensures sessions { result.now.sessions ≡ self.now.world.settings.sessions }
    {
        &self.marks
    }

    /// The object of a write in the log: by the place of its row in the order of entry, and by its own place in the order of the first
    /// writes. None where the row does not stand in the log any more, or has no such write.
    pub fn written(&self, row: usize, write: usize) -> Option<&Object<A>>
        ensures { option_map (λ o. object_of o.now) result ≡ written_in self.now.world row write }
    {
        self.log.written(row, write)
    }

    /// All that the core shows now, lent. It takes no memory.
    pub fn view(&self) -> BookView<'_, A, OpenCase<A>>
        ensures base { result.base.now.base ≡ self.now.world.base }
        ensures base_tables { result.base.now.tables ≡ length self.now.world.settings.schema }
        ensures base_sessions { result.base.now.sessions ≡ self.now.world.settings.sessions }
        ensures log { log_of result.log.now ≡ self.now.world.log }
        ensures state { result.table.now.state ≡ self.now.world.table }
        ensures count { result.table.now.tables ≡ length self.now.world.settings.schema }
        ensures marks { result.marks.now.marks ≡ self.now.world.marks }
        ensures sessions { result.marks.now.sessions ≡ self.now.world.settings.sessions }
        ensures low { result.low ≡ low self.now.world }
        ensures tnc { result.tnc ≡ self.now.world.counter }
    {
        BookView {
            base: self.base(),
            log: self.log(),
            table: self.table(),
            marks: self.marks(),
            low: self.low(),
            tnc: self.tnc(),
        }
    }
}

impl<A: Allocator + Copy> Core<A> {
    /// All that the core shows now, as values of its own. It stays as it is while the core goes on, and its write sets and read sets
    /// are shared with the core. Refused with `Memory` where there is none for it, or a set has too many owners to be counted.
    pub fn book(&self) -> Result<Book<A, OpenCase<A>>, Fault>
        ensures base { IfOk result (λ book. book.base.base ≡ self.now.world.base) }
        ensures base_tables { IfOk result (λ book. book.base.tables ≡ length self.now.world.settings.schema) }
        ensures base_sessions { IfOk result (λ book. book.base.sessions ≡ self.now.world.settings.sessions) }
        ensures log { IfOk result (λ book. log_of book.log.items ≡ self.now.world.log) }
        ensures state { IfOk result (λ book. book.table.state ≡ self.now.world.table) }
        ensures count { IfOk result (λ book. book.table.tables ≡ length self.now.world.settings.schema) }
        ensures marks { IfOk result (λ book. book.marks.marks ≡ self.now.world.marks) }
        ensures sessions { IfOk result (λ book. book.marks.sessions ≡ self.now.world.settings.sessions) }
        ensures low { IfOk result (λ book. book.low ≡ low self.now.world) }
        ensures tnc { IfOk result (λ book. book.tnc ≡ self.now.world.counter) }
        ensures memory { IsOkUnless result Memory }
    {
        let lent = self.view();
        Ok(Book {
            base: lent.base.clone()?,
            log: self.log.share_rows()?,
            table: lent.table.clone()?,
            marks: lent.marks.clone()?,
            low: lent.low,
            tnc: lent.tnc,
        })
    }
}
