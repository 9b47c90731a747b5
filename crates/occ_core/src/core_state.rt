//! The core of the store: the world of the model, kept.
ghost use Rattle.std.specs.Prelude.{◌≡◌, ◌<◌, ◌≤◌, ◌+◌, ◌-◌, ◌^◌, ℕ, [], length, IfOk, IfErr, IsOkUnless, true, Some};
ghost use Rattle.std.specs.FinMap as finite;
ghost use Rattle.occ_types.specs.declared.fault.Fault.TheVariants.{Memory};
ghost use Rattle.occ_types.specs.declared.limits.TheConstants.{MAX_COUNTER, MAX_LOG_ROWS, MAX_NUMBER};
ghost use Rattle.occ_model.specs.Invariant.{Invariant};
ghost use Rattle.occ_model.specs.Content.{IsInSchema};
ghost use Rattle.occ_model.specs.Log.{Audited};
ghost use Rattle.occ_model.specs.World.{opened, low, empty_base, active_count, has_session, last_entered, next_place};
ghost use Rattle.occ_log.specs.Logs.{IsBegun};
ghost use Rattle.occ_core.specs.Totals.{no_totals, AddUp};
ghost use Rattle.occ_log.specs.SessionStates.{idle_slots};

use crate::totals::Totals;
use occ_book::{Base, Marks, Tables};
use occ_log::{Log, ReadPhases, Sessions, Window};
use occ_types::{Fault, Refused, Schema};
use std::alloc::Allocator;
use std::marker::Model;

/// The core of the store: its tables, its log, and what is under way. Clauses see the world of the model.
#[derive(Drop)]
pub struct Core<A: Allocator> {
    pub(crate) alloc: A,
    pub(crate) schema: Schema<A>,
    pub(crate) tables: Tables<A>,
    pub(crate) base: Base<A>,
    pub(crate) log: Log<A>,
    pub(crate) counter: u64,
    pub(crate) phases: ReadPhases<A>,
    pub(crate) sessions: Sessions<A>,
    pub(crate) window: Window<A>,
    pub(crate) marks: Marks<A>,
    pub(crate) totals: Totals,
}

impl<A: Allocator> Model for Core<A> {
    ghost use Rattle.std.specs.Coded.{codes};
    ghost use Rattle.std.specs.FinMap as finite;
    ghost use Rattle.occ_core.specs.Core.{Seen, seen_of, IsCore};

    ghost Value = { Seen };

    ghost coded = { Prim.hlevel (codes, finite.code) };

    ghost view = { seen_of };

    ghost invariant = { IsCore };
}

impl<A: Allocator + Copy> Core<A> {
    /// An empty store with these tables and so many sessions, numbered from 1, which keeps the last `keep` write sets for testing. Both
    /// may be any number that memory has room for.
    ///
    /// Refused with `Memory` where there is none for it, and the schema is handed back then.
    pub fn open(
        alloc: A,
        schema: Schema<A>,
        sessions: usize,
        keep: usize,
    ) -> Result<Core<A>, Refused<Schema<A>>>
        ensures opened { IfOk result (λ core. core.world ≡ opened (record { schema = schema; sessions = sessions; keep = keep })) }
        ensures totals { IfOk result (λ core. core.totals ≡ no_totals 0) }
        ensures handed_back { IfErr result (λ refused. (refused.value ≡ schema) × (refused.fault ≡ Memory)) }
    {
        let count = schema.tables().len();
        let (tables, states, window, marks, log, base) = match room(alloc, count, sessions, keep) {
            Ok(parts) => parts,
            Err(fault) => {
                return Err(Refused {
                    value: schema,
                    fault,
                });
            }
        };
        Ok(Core {
            alloc,
            schema,
            tables,
            base,
            log,
            counter: 0,
            phases: ReadPhases::new(alloc),
            sessions: states,
            window,
            marks,
            totals: Totals::none(0),
        })
    }
}

impl<A: Allocator> Core<A> {
    /// What holds of every core, between any two of its calls, for a caller to rest on: its world has the invariant that each step
    /// keeps, so its log and tables pass the audit; what stands in it fits its tables and sessions; each active transaction can still
    /// take a number; and the log, its places, and the numbers of each session, those that were folded too, are within their limits. A
    /// log that begins at the place 0 was never folded. The totals add up. It computes nothing.
    pub fn law(&self)
        ensures invariant { Invariant self.now.world }
        ensures content { IsInSchema self.now.world }
        ensures audited { Audited self.now.world.base self.now.world.marks self.now.world.table self.now.world.log }
        ensures counter { self.now.world.counter + active_count self.now.world ≤ MAX_COUNTER }
        ensures numbers { (session : ℕ) → has_session self.now.world session ≡ true → last_entered self.now.world session ≤ MAX_NUMBER }
        ensures rows { length self.now.world.log ≤ MAX_LOG_ROWS }
        ensures places { next_place self.now.world < 2 ^ 64 }
        ensures begins { self.now.world.base.place ≡ 0 → self.now.world.base ≡ empty_base }
        ensures folded { (session number : ℕ) → finite.get self.now.world.base.last session ≡ Some number → number ≤ MAX_NUMBER }
        ensures totals { AddUp self.now.totals self.now.world }
    {
        // A core is opened by a look at its fields, and what its type says is known then.
        let _opened = self.counter;
    }

    /// The transaction counter.
    pub fn tnc(&self) -> u64
        ensures { result ≡ self.now.world.counter }
    {
        self.counter
    }

    /// The lower end of the window: the write sets numbered above it are kept for testing.
    pub fn low(&self) -> u64
        ensures { result ≡ low self.now.world }
    {
        self.counter.saturating_sub(self.window.keep() as u64)
    }
}

// The number before that of the first write set in a window that ends at the counter. Nobody finished between the window's lower end and this number.
pub(crate) fn before_first<A: Allocator>(counter: u64, window: &Window<A>) -> u64
    ensures { result ≡ counter - length window.now.sets }
{
    counter.saturating_sub(window.len() as u64)
}

// The parts of an empty store that take memory: so many tables, so many sessions with a slot for a mark each and a log for their rows, a window
// of so many write sets, and a base of which nothing was folded.
fn room<A: Allocator + Copy>(
    alloc: A,
    tables: usize,
    sessions: usize,
    keep: usize,
) -> Result<(Tables<A>, Sessions<A>, Window<A>, Marks<A>, Log<A>, Base<A>), Fault>
    ensures tables { IfOk result (λ parts. parts.0 ≡ record { tables = tables; state = finite.empty }) }
    ensures sessions { IfOk result (λ parts. parts.1 ≡ idle_slots sessions) }
    ensures window { IfOk result (λ parts. parts.2 ≡ record { keep = keep; sets = [] }) }
    ensures marks { IfOk result (λ parts. parts.3 ≡ record { sessions = sessions; marks = finite.empty }) }
    ensures log { IfOk result (λ parts. IsBegun 0 sessions parts.4) }
    ensures base { IfOk result (λ parts. parts.5 ≡ record { tables = tables; sessions = sessions; base = empty_base }) }
    ensures memory { IsOkUnless result Memory }
{
    let base = Base::new(alloc, tables, sessions)?;
    let tables = Tables::new(alloc, tables)?;
    let states = Sessions::new(alloc, sessions)?;
    let window = Window::new(alloc, keep)?;
    let marks = Marks::new(alloc, sessions)?;
    let log = Log::new(alloc, 0, sessions)?;
    Ok((tables, states, window, marks, log, base))
}
