//! What stands behind the lock of a store.
ghost use Rattle.std.specs.Prelude.{◌≡◌, ◌+◌, ℕ, IfSome, IsOkUnless, IfOk, option_map};
ghost use Rattle.boxcar.specs.Table.{Shows};
ghost use Rattle.occ_model.specs.Invariant.{Invariant};
ghost use Rattle.occ_model.specs.Content.{IsInSchema};
ghost use Rattle.occ_model.specs.Log.{Audited};
ghost use Rattle.occ_model.specs.World.{next_place};
ghost use Rattle.occ_published.specs.Published.{Published, NumbersFit};
ghost use Rattle.occ_model.specs.Poll.{row_numbered};
ghost use Rattle.occ_log.specs.Rows.{standing_of, log_of};
ghost use Rattle.occ_types.specs.declared.fault.Fault.TheVariants.{Memory};
ghost use Rattle.occ_core.specs.Totals.{AddUp};
ghost use Rattle.occ_filed.specs.Filed.{token_of};
ghost use Rattle.occ_model.specs.Step.{Run};
ghost use Rattle.occ_store.specs.Names.{opened_as};
ghost use Rattle.occ_store.specs.Locked.{world_of, told_standing, visited, reader_of, IsVisitor};
ghost use Rattle.occ_store.specs.Books.{IsBookOf};

use crate::names::{FrontOf, Name, OwnStory};
use crate::publishing::law;
use occ_board::Publisher;
use occ_book::Standing;
use occ_case::{CaseToken, OpenCase};
use occ_core::Core;
use occ_filed::FiledCore;
use occ_history::Story;
use occ_types::Fault;
use std::alloc::Allocator;
use std::marker::{Model, PhantomData};
use std::mem;
use std::sync::ledger::{Book, Share};

/// The locked state of a store: its core with the file of its cases, the publisher of its board, the book of the rows that lanes
/// entered, and the story of all that happened. Clauses see the world of the core, with what shows its cases, the words that stand on
/// the board, which show the world, and the story, which led to it.
#[derive(Drop)]
pub struct Shared<N: Name, A: Allocator + Copy> {
    pub(crate) filed: FiledCore<A>,
    pub(crate) publisher: Publisher<A>,
    pub(crate) rows: Book<N>,
    pub(crate) story: Story<OwnStory<N>, A>,
    // What who reads now has seen. A session swaps its own in for the time of its call.
    pub(crate) visitor: FrontOf<N>,
    // The session for which he reads, or 0.
    pub(crate) reading: usize,
    pub(crate) origin: Origin<N>,
}

/// The place that the store began at, in the order of all rows: no lane entered the rows before it.
#[derive(Drop)]
pub(crate) struct Origin<N: Name> {
    place: u64,
    _name: PhantomData<N>,
    ghost begun: { place ≡ next_place (opened_as N.named) },
}

impl<N: Name> Origin<N> {
    /// The place that the name stands for.
    pub(crate) fn new(place: u64) -> Origin<N>
        requires { place ≡ next_place (opened_as N.named) }
        ensures { result.place ≡ place }
    {
        Origin {
            place,
            _name: PhantomData,
        }
    }

    /// It as a number.
    pub(crate) fn place(&self) -> u64
        ensures same { result ≡ self.now.place }
        ensures begun { result ≡ next_place (opened_as N.named) }
    {
        self.place
    }
}

impl<N: Name, A: Allocator + Copy> Model for Shared<N, A> {
    ghost use Rattle.std.specs.Coded.{codes};
    ghost use Rattle.std.specs.FinMap as finite;
    ghost use Rattle.boxcar.specs.Table.{shelves_coded, where_coded};
    ghost use Rattle.std.specs.Prelude.{◌+◌};
    ghost use Rattle.occ_store.specs.Locked.{Locked, IsLocked};

    ghost Value = { Locked };

    ghost coded = { Prim.hlevel (codes, finite.code, shelves_coded, where_coded) };

    ghost view = { λ s. record { filed = s.filed; words = s.publisher.words; story = s.story; visitor = s.visitor } };

    ghost invariant = { λ s. IsLocked N.named s.filed s.publisher (s.rows.total + s.origin.place) s.story s.visitor s.reading };
}

impl<N: Name, A: Allocator + Copy> Shared<N, A> {
    /// The law of every store, whatever its threads did: its log is in order, serial replay explains each committed transaction, and the
    /// table with the rest of each open write phase is the replay of the whole log; what stands in it fits its tables and sessions; and
    /// what stands on the board shows the last transaction of each session that is over; and the totals of its figures add up. The story
    /// led to it, from what the store was opened with. It computes nothing.
    pub fn law(&self)
        ensures invariant { Invariant (world_of self.now) }
        ensures content { IsInSchema (world_of self.now) }
        ensures audited { Audited (world_of self.now).base (world_of self.now).marks (world_of self.now).table (world_of self.now).log }
        ensures published { Published (world_of self.now) self.now.words }
        ensures fits { NumbersFit (world_of self.now) }
        ensures settings { (world_of self.now).settings ≡ N.named.settings }
        ensures file { self.now.filed.file ≡ N.named.file }
        ensures totals { AddUp self.now.filed.totals (world_of self.now) }
        ensures ran { Run (opened_as N.named) self.now.story.log (world_of self.now) }
    {
        self.filed.core().law();
    }

    // Swaps what who reads now has seen with what another one has, who reads for this session. It answers for which the first one reads.
    pub(crate) fn visit(&mut self, front: &mut FrontOf<N>, session: usize) -> usize
        requires { IsVisitor front.old.party session }
        ensures visits { self.new ≡ visited self.old front.old }
        ensures back { front.new ≡ self.old.visitor }
        ensures here { IsVisitor self.old.visitor.party result }
    {
        mem::swap(&mut self.visitor, front);
        mem::replace(&mut self.reading, session)
    }

    // The session for which who reads now does, or 0.
    pub(crate) fn reading(&self) -> usize
        ensures { result ≡ reader_of self.now.visitor.party }
    {
        self.reading
    }

    /// The core, for all that it shows.
    pub fn core(&self) -> &Core<A>
        ensures world { result.now.world ≡ world_of self.now }
        ensures totals { result.now.totals ≡ self.now.filed.totals }
    {
        self.filed.core()
    }

    /// What shows the case of a session's last entry, where that was filed. It takes no memory.
    pub fn token(&self, session: usize) -> Option<CaseToken<A>>
        ensures token { result ≡ token_of self.now.filed.tokens session }
        ensures own { IfSome result (Shows N.named.file) }
    {
        self.law();
        self.filed.token(session)
    }

    // How many sessions the store has; they are numbered from 1.
    pub(crate) fn sessions(&self) -> usize
        ensures { result ≡ N.named.settings.sessions }
    {
        self.law();
        self.core().sessions()
    }

    // How many rows entered since the store began, those that were folded too: what all parts of the ledger count.
    pub(crate) fn entered(&mut self, whole: &mut Share<N>) -> u64
        requires all { whole.old.parts ≡ N.parts }
        ensures counted { result ≡ whole.old.amount }
        ensures begun { result + next_place (opened_as N.named) ≡ next_place (world_of self.old) }
        ensures same { self.new ≡ self.old }
    {
        self.rows.audit(whole);
        all_rows(&self.filed) - self.origin.place()
    }

    /// How the row of a session's transaction with this number stands; none where it does not stand in the log.
    pub fn row(&self, session: usize, number: u64) -> Option<Standing<()>>
        ensures { result ≡ option_map (λ row. told_standing row.standing) (row_numbered session number (world_of self.now).log) }
    {
        match self.core().row(session, number) {
            None => None,
            Some(row) => Some(told_standing(&row.standing)),
        }
    }
}

impl<N: Name, A: Allocator + Copy> Shared<N, A> {
    /// All that the store shows now, as values of its own, as `Core::book` has it. Its audit is yes. Refused with `Memory` where there is
    /// none for it.
    pub fn book(&self) -> Result<occ_book::Book<A, OpenCase<A>>, Fault>
        ensures shows { IfOk result (IsBookOf (world_of self.now)) }
        ensures log { IfOk result (λ book. log_of book.log.items ≡ (world_of self.now).log) }
        ensures state { IfOk result (λ book. book.table.state ≡ (world_of self.now).table) }
        ensures audited { IfOk result (λ book. Audited book.base.base book.marks.marks book.table.state (log_of book.log.items)) }
        ensures memory { IsOkUnless result Memory }
    {
        self.law();
        self.core().book()
    }
}

// How many rows entered, those that were folded too.
fn all_rows<A: Allocator + Copy>(filed: &FiledCore<A>) -> u64
    ensures { result ≡ next_place filed.now.world }
{
    law(filed);
    let core = filed.core();
    (core.base().place() + core.log().len()) as u64
}

// How a row stands, without its case.
fn told_standing<A: Allocator + Copy>(standing: &Standing<OpenCase<A>>) -> Standing<()>
    ensures { result ≡ told_standing (standing_of standing.now) }
{
    match standing {
        Standing::Open(_) => Standing::Open(()),
        Standing::Writing(done) => Standing::Writing(*done),
        Standing::Done(number) => Standing::Done(*number),
        Standing::Back(cause) => Standing::Back(*cause),
    }
}
