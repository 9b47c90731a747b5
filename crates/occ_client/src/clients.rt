//! A client of one session, for a store that has one owner.
ghost use Rattle.std.specs.Prelude.{◌≡◌, ◌⊎◌, ◌+◌, None, Some, true, false, is_some, IfOk, IfErr, OnOk, OnErr, MatchOption};
ghost use Rattle.std.specs.Option.{option_copied};
ghost use Rattle.std.specs.Result.{result_err};
ghost use Rattle.occ_types.specs.PlainData.{key_of, end_of};
ghost use Rattle.occ_types.specs.Question.{Span};
ghost use Rattle.occ_types.specs.declared.fault.Fault.TheVariants as faults;
ghost use Rattle.occ_model.specs.Event.{Enter, Close, RunAlone, Checkpoint, Folded, Refused as refused};
ghost use Rattle.occ_model.specs.Replies.{replied, replied_back};
ghost use Rattle.occ_core.specs.AutoCheckpoints.{is_due, due_each, checked_point};
ghost use Rattle.occ_core.specs.Replies.{ran};
ghost use Rattle.occ_sets.specs.Operations.{ops_of};
ghost use Rattle.occ_model.specs.Step.{Step};
ghost use Rattle.occ_client.specs.Clients.{begin_refusal, close_refusal, closing, ending, Commits, StaysOrStops, after_alone, after_end, count_end, fresh_client, spent};
ghost use Rattle.occ_client.specs.Ends.{Ends, WritesOut};
ghost use Rattle.occ_open.specs.Pages.{Pages, page_form, paging};
ghost use Rattle.occ_open.specs.declared.pages.PageEnd.TheVariants.{First, Last};
ghost use Rattle.occ_open.specs.Replies.{reading, scanning, forgetting};
ghost use Rattle.occ_open.specs.Transactions.{IsRefusedBy, Unless, begun, write_fault, written, WantsRoom, Gets, WantsOwn, Scans, WantsRange, Abandons, open_after, OrStarves};

use crate::by_steps::write_out;
use crate::ending::{End, Handed, close_session, end_request};
use occ_core::{AutoCheckpoint, Core};
use occ_open::{KeptTransaction, Page, PageEnd};
use occ_sets::{Answer, Op, RangeRows, Write};
use occ_types::{Fault, Key, Refused, Row, Schema};
use std::alloc::Allocator;
use std::marker::Model;

/// A client of one session of a store. It gives its transactions their numbers, and keeps the one that is open. No other client may end
/// transactions of its session.
#[derive(Drop)]
pub struct Client<A: Allocator> {
    alloc: A,
    session: usize,
    next: u64,
    closed: bool,
    kept: KeptTransaction<A>,
    // The last transaction was decided to commit, and single writes of it are left.
    writing: bool,
    checkpoints: AutoCheckpoint,
}

impl<A: Allocator> Model for Client<A> {
    ghost use Rattle.occ_client.specs.Clients.{Client as Plain, HasNext};

    ghost Value = { Plain };

    ghost view = { λ c. record { session = c.session; next = c.next; closed = c.closed; current = c.kept.current; returned = c.kept.returned; writing = c.writing; checkpoints = c.checkpoints } };

    ghost invariant = { λ c. HasNext c.next c.writing c.kept.current };
}

impl<A: Allocator> Client<A> {
    /// The client of a session that has done nothing yet; sessions are numbered from 1.
    pub fn new(alloc: A, session: usize) -> Client<A>
        ensures { result ≡ fresh_client session }
    {
        Client {
            alloc,
            session,
            next: 1,
            closed: false,
            kept: KeptTransaction::none(),
            writing: false,
            checkpoints: AutoCheckpoint::off(),
        }
    }

    /// The session.
    pub fn session(&self) -> usize
        ensures { result ≡ self.now.session }
    {
        self.session
    }

    /// Whether a transaction is open.
    pub fn is_open(&self) -> bool
        ensures { result ≡ is_some self.now.current }
    {
        self.kept.is_open()
    }

    /// Whether the last transaction was decided to commit, and single writes of it are left: `commit` goes on with them.
    pub fn is_writing(&self) -> bool
        ensures { result ≡ self.now.writing }
    {
        self.writing
    }

    /// From now on a checkpoint of the store is due after each so many commits of this client, where 0 stands for 1. `transact` begins with
    /// it, and `checkpoint_if_due` makes it for who calls `begin` and `commit`. None is due where it is none, as at first. The commits since
    /// the last one that it made are counted already.
    pub fn checkpoint_each(&mut self, commits: Option<u64>)
        ensures { self.new ≡ record self.old { checkpoints = due_each commits self.old.checkpoints } }
    {
        self.checkpoints.set(commits);
    }

    /// After how many of its commits a checkpoint is due, and how many it counted.
    pub fn checkpoints(&self) -> AutoCheckpoint
        ensures { result ≡ self.now.checkpoints }
    {
        self.checkpoints
    }

    // Counts how a transaction ended, where it committed.
    fn count_end(&mut self, end: End)
        ensures { self.new ≡ count_end end self.old }
    {
        if let End::Committed { .. } = end {
            self.checkpoints.count();
        }
    }
}

impl<A: Allocator + Copy> Client<A> {
    /// Makes a checkpoint of the store where one is due, as `checkpoint_each` says, and answers what came of it: how many rows it folded,
    /// or why it was refused, as `Core::checkpoint` is. The count begins anew where it was made. None where none is due, and nothing moves.
    pub fn checkpoint_if_due(&mut self, store: &mut Core<A>) -> Option<Result<usize, Fault>>
        ensures due { is_some result ≡ is_due self.old.checkpoints }
        ensures step { MatchOption result (store.new ≡ store.old) (λ folded. Step store.old.world Checkpoint (replied Folded folded) store.new.world) }
        ensures left { self.new ≡ record self.old { checkpoints = checked_point result self.old.checkpoints } }
    {
        if !self.checkpoints.is_due() {
            return None;
        }
        let folded = Some(store.checkpoint());
        self.checkpoints.note(&folded);
        folded
    }

    /// Opens the session's next transaction, which starts at the store's counter. Refused, the first of these that holds: with
    /// `NoSession` where the store has no such session; with `Closed`; with `SessionBusy` where the transaction before is in its write
    /// phase, as `commit` tells; with `ReadOpen` where one is open; and with `NumbersExhausted` where only the number of the closing mark
    /// is left. It takes no memory.
    pub fn begin(&mut self, store: &Core<A>) -> Result<(), Fault>
        ensures ok { OnOk result (self.new ≡ record self.old { current = Some (begun self.old.next store.now.world.counter); returned = self.new.returned }) }
        ensures err { OnErr result (self.new ≡ self.old) }
        ensures fault { result_err result ≡ begin_refusal store.now.world self.old }
    {
        if self.session == 0 || self.session > store.sessions() {
            return Err(Fault::NoSession);
        }
        if self.closed {
            return Err(Fault::Closed);
        }
        if self.writing {
            return Err(Fault::SessionBusy);
        }
        self.kept.begin(self.alloc, self.next, store.tnc())
    }

    /// Writes a row under a key of a table. Refused, the first of these that holds: with `NoReadOpen`; with `NoTable`, `WrongKind`,
    /// `TooLong` or `WrongColumns` where the key or then the row doesn't fit; with `SetFull` where 256 other keys are written; and with
    /// `Memory`. Where the transaction came back and others share its writes, it may be refused with `Memory` before all these, for want
    /// of memory to copy them. The write is handed back then, and nothing changes.
    pub fn put(
        &mut self,
        store: &Core<A>,
        table: usize,
        key: Key<A>,
        row: Row<A>,
    ) -> Result<(), Refused<Write<A>>>
        ensures ok { OnOk result (self.new ≡ record self.old { current = written self.old.current (table, key_of key) (Some row); returned = self.new.returned }) }
        ensures err { OnErr result (self.new ≡ record self.old { returned = self.new.returned }) }
        ensures handed_back { IfErr result (λ refused. refused.value ≡ (record { table = table; key = key }, Some row)) }
        ensures fault { IfErr result (λ refused. ((self.old.returned ≡ true) × (refused.fault ≡ faults.Memory)) ⊎ IsRefusedBy (write_fault store.now.world.settings.schema (table, key_of key) (Some row) self.old.current) (WantsRoom (table, key_of key) self.old.current) refused.fault) }
        ensures fits { OnOk result (write_fault store.now.world.settings.schema (table, key_of key) (Some row) self.old.current ≡ None) }
    {
        self.put_by(store.schema(), table, key, row)
    }

    /// As `put`, by the tables of the store alone, for a caller that has no store at hand.
    pub fn put_by(
        &mut self,
        schema: &Schema<A>,
        table: usize,
        key: Key<A>,
        row: Row<A>,
    ) -> Result<(), Refused<Write<A>>>
        ensures ok { OnOk result (self.new ≡ record self.old { current = written self.old.current (table, key_of key) (Some row); returned = self.new.returned }) }
        ensures err { OnErr result (self.new ≡ record self.old { returned = self.new.returned }) }
        ensures handed_back { IfErr result (λ refused. refused.value ≡ (record { table = table; key = key }, Some row)) }
        ensures fault { IfErr result (λ refused. ((self.old.returned ≡ true) × (refused.fault ≡ faults.Memory)) ⊎ IsRefusedBy (write_fault schema.now (table, key_of key) (Some row) self.old.current) (WantsRoom (table, key_of key) self.old.current) refused.fault) }
        ensures fits { OnOk result (write_fault schema.now (table, key_of key) (Some row) self.old.current ≡ None) }
    {
        self.kept.put(schema, table, key, row)
    }

    /// Deletes the row under a key of a table, which is a write also where the table has no such row. Refused as `put`.
    pub fn delete(
        &mut self,
        store: &Core<A>,
        table: usize,
        key: Key<A>,
    ) -> Result<(), Refused<Write<A>>>
        ensures ok { OnOk result (self.new ≡ record self.old { current = written self.old.current (table, key_of key) None; returned = self.new.returned }) }
        ensures err { OnErr result (self.new ≡ record self.old { returned = self.new.returned }) }
        ensures handed_back { IfErr result (λ refused. refused.value ≡ (record { table = table; key = key }, None)) }
        ensures fault { IfErr result (λ refused. ((self.old.returned ≡ true) × (refused.fault ≡ faults.Memory)) ⊎ IsRefusedBy (write_fault store.now.world.settings.schema (table, key_of key) None self.old.current) (WantsRoom (table, key_of key) self.old.current) refused.fault) }
        ensures fits { OnOk result (write_fault store.now.world.settings.schema (table, key_of key) None self.old.current ≡ None) }
    {
        self.delete_by(store.schema(), table, key)
    }

    /// As `delete`, by the tables of the store alone.
    pub fn delete_by(
        &mut self,
        schema: &Schema<A>,
        table: usize,
        key: Key<A>,
    ) -> Result<(), Refused<Write<A>>>
        ensures ok { OnOk result (self.new ≡ record self.old { current = written self.old.current (table, key_of key) None; returned = self.new.returned }) }
        ensures err { OnErr result (self.new ≡ record self.old { returned = self.new.returned }) }
        ensures handed_back { IfErr result (λ refused. refused.value ≡ (record { table = table; key = key }, None)) }
        ensures fault { IfErr result (λ refused. ((self.old.returned ≡ true) × (refused.fault ≡ faults.Memory)) ⊎ IsRefusedBy (write_fault schema.now (table, key_of key) None self.old.current) (WantsRoom (table, key_of key) self.old.current) refused.fault) }
        ensures fits { OnOk result (write_fault schema.now (table, key_of key) None self.old.current ≡ None) }
    {
        self.kept.delete(schema, table, key)
    }

    /// The row under a key of a table: its own write of the key, and else what the store answers, which notes the question. Refused, the
    /// first of these that holds: with `NoReadOpen`; with `NoTable`, `WrongKind` or `TooLong` where the key doesn't fit; with `Memory`
    /// where there is none for a copy of an own row; and as the store refuses a read.
    pub fn get(
        &mut self,
        store: &mut Core<A>,
        table: usize,
        key: &Key<A>,
    ) -> Result<Option<Row<A>>, Fault>
        ensures kept { self.new ≡ record self.old { returned = self.new.returned } }
        ensures read { OrStarves ((self.old.returned ≡ true) ⊎ WantsOwn store.old.world.settings.schema (table, key_of key.now) self.old.current) store.old.world (reading result) store.new.world
            (Gets store.old.world self.old.session (table, key_of key.now) self.old.current (reading result) store.new.world) }
    {
        self.kept.get_in(store, self.session, table, key)
    }

    /// The rows of a table from the lower end on and below the upper one, in the order of their keys: what the store answers to the whole
    /// range, which it notes, with the own writes over it. All memory that these need is taken before the store is asked. Refused as
    /// `get`, and with `EmptyRange` where the lower end is not below the upper one.
    pub fn scan(
        &mut self,
        store: &mut Core<A>,
        table: usize,
        lower: Option<&Key<A>>,
        upper: Option<&Key<A>>,
    ) -> Result<RangeRows<A>, Fault>
        ensures kept { self.new ≡ record self.old { returned = self.new.returned } }
        ensures read { OrStarves ((self.old.returned ≡ true) ⊎ WantsRange store.old.world.settings.schema (Span table (end_of (option_copied lower.entry)) (end_of (option_copied upper.entry))) self.old.current) store.old.world (scanning result) store.new.world
            (Scans store.old.world self.old.session (Span table (end_of (option_copied lower.entry)) (end_of (option_copied upper.entry))) self.old.current (scanning result) store.new.world) }
    {
        self.kept.scan_in(store, self.session, table, lower, upper)
    }

    /// The first rows of a range, at most `most` of them, or one where `most` is 0, at most 1,023. Where more are left, the page has a
    /// rest, the key of the next row, which is the lower end of the next page. The store is asked for the range up to and with that row,
    /// and notes all of it, so that a write that would make the page tell something else is a conflict. The own writes below the rest are
    /// laid over the rows, so that the page may show more rows than `most`, or fewer. Refused as `scan`, but never with `RangeTooLarge`.
    ///
    /// Behind a key that has no next one, as a text of 64 bytes or the greatest number, the store is asked up to the row after that, or else
    /// up to the upper end.
    pub fn scan_first(
        &mut self,
        store: &mut Core<A>,
        table: usize,
        lower: Option<&Key<A>>,
        upper: Option<&Key<A>>,
        most: usize,
    ) -> Result<Page<A>, Fault>
        ensures kept { self.new ≡ record self.old { returned = self.new.returned } }
        ensures read { let form = page_form First table (end_of (option_copied lower.entry)) (end_of (option_copied upper.entry)) most in
            OrStarves ((self.old.returned ≡ true) ⊎ WantsRange store.old.world.settings.schema form.range self.old.current) store.old.world (paging result) store.new.world
            (Pages store.old.world self.old.session form self.old.current result store.new.world) }
    {
        self.kept.page_in(
            store,
            self.session,
            PageEnd::First,
            table,
            lower,
            upper,
            most,
        )
    }

    /// The last rows of a range, counted, noted and refused as by `scan_first`. Where more are left, the rest is the key of the first row
    /// that the page shows, which is the exclusive upper end of the page before. The store is asked for the range from the row before that
    /// one on. The own writes from the rest on are laid over the rows.
    pub fn scan_last(
        &mut self,
        store: &mut Core<A>,
        table: usize,
        lower: Option<&Key<A>>,
        upper: Option<&Key<A>>,
        most: usize,
    ) -> Result<Page<A>, Fault>
        ensures kept { self.new ≡ record self.old { returned = self.new.returned } }
        ensures read { let form = page_form Last table (end_of (option_copied lower.entry)) (end_of (option_copied upper.entry)) most in
            OrStarves ((self.old.returned ≡ true) ⊎ WantsRange store.old.world.settings.schema form.range self.old.current) store.old.world (paging result) store.new.world
            (Pages store.old.world self.old.session form self.old.current result store.new.world) }
    {
        self.kept.page_in(
            store,
            self.session,
            PageEnd::Last,
            table,
            lower,
            upper,
            most,
        )
    }

    /// The store forgets what the open transaction read, and none is open then. Its number is not spent: the next transaction takes it.
    /// Refused with `NoReadOpen`, and as the store refuses it. It takes no memory.
    pub fn abandon(&mut self, store: &mut Core<A>) -> Result<bool, Fault>
        ensures step { Abandons store.old.world self.old.session self.old.current (forgetting result) store.new.world }
        ensures left { self.new ≡ record self.old { current = open_after self.old.current (forgetting result); returned = self.new.returned } }
    {
        self.kept.abandon_in(store, self.session)
    }

    /// Ends the open transaction: it commits under a transaction number, with all its writes done, or is backed up for a cause. That is one
    /// step where no transaction is active. Beside active ones it enters, is decided, and then does its single writes and finishes, or is
    /// backed up. Its number is spent either way, and none is open then.
    ///
    /// Refused with `NoReadOpen`, and as the store refuses a serial end, or the entry. The transaction is open as it was then. In one case
    /// alone it isn't: where it was decided to commit and there is no memory for one of its single writes. `is_writing` tells so; then
    /// the next call of `commit` goes on with them, and nothing is begun before.
    pub fn commit(&mut self, store: &mut Core<A>) -> Result<End, Fault>
        ensures step { Commits self.old store.old.world self.new.writing (ending result) store.new.world }
        ensures ok { IfOk result (λ end. self.new ≡ after_end end self.old) }
        ensures err { OnErr result (StaysOrStops self.old self.new) }
    {
        if self.writing {
            self.go_on(store)
        } else {
            self.end_open(store)
        }
    }

    // Goes on with the single writes of the last transaction.
    fn go_on(&mut self, store: &mut Core<A>) -> Result<End, Fault>
        requires on { self.old.writing ≡ true }
        ensures step { WritesOut self.old.session store.old.world (ending result) store.new.world }
        ensures ok { IfOk result (λ end. self.new ≡ count_end end (record self.old { current = None; writing = false })) }
        ensures err { OnErr result (self.new ≡ self.old) }
    {
        match write_out(store, self.session) {
            Ok(tn) => {
                self.writing = false;
                self.checkpoints.count();
                Ok(End::Committed { tn })
            }
            Err(fault) => Err(fault),
        }
    }

    // Ends the open transaction.
    fn end_open(&mut self, store: &mut Core<A>) -> Result<End, Fault>
        requires off { self.old.writing ≡ false }
        ensures step { MatchOption self.old.current
            ((ending result ≡ refused faults.NoReadOpen) × (store.new.world ≡ store.old.world) × (self.new.writing ≡ false))
            (λ copy. Ends self.old.session copy store.old.world self.new.writing (ending result) store.new.world) }
        ensures ok { IfOk result (λ end. self.new ≡ count_end end (spent self.old)) }
        ensures err { OnErr result (StaysOrStops self.old self.new) }
    {
        let (number, start, writes) = self.kept.into_request()?;
        let handed = match end_request(store, self.session, number, start, writes) {
            Ok(handed) => handed,
            Err(refused) => {
                self.kept.reopen(number, start, refused.value);
                return Err(refused.fault);
            }
        };
        self.next = number + 1;
        match handed {
            Handed::Ended(end) => {
                self.count_end(end);
                Ok(end)
            }
            Handed::Stopped(fault) => {
                self.writing = true;
                Err(fault)
            }
        }
    }

    /// Runs a whole transaction in one step, as a list of operations, under the session's next number: it reads, writes and commits, and is
    /// never backed up. It answers the transaction number that it took, and what its questions were answered, in their order. Refused
    /// with `Closed`, with `ReadOpen` where a transaction is open, and as `Core::run_alone`. The list is handed back then, and nothing
    /// changes.
    pub fn run_alone(
        &mut self,
        store: &mut Core<A>,
        operations: Vec<Op<A>, A>,
    ) -> Result<(u64, Vec<Answer<A>, A>), Refused<Vec<Op<A>, A>>>
        ensures step { Unless (close_refusal self.old) store.old.world (replied_back ran result) store.new.world
            (Step store.old.world (RunAlone self.old.session self.old.next (ops_of operations.items)) (replied_back ran result) store.new.world) }
        ensures ok { OnOk result (self.new ≡ after_alone self.old) }
        ensures err { OnErr result (self.new ≡ self.old) }
        ensures handed_back { IfErr result (λ refused. refused.value ≡ operations) }
    {
        if let Err(fault) = self.check_closed() {
            return Err(Refused {
                value: operations,
                fault,
            });
        }
        match store.run_alone(self.session, self.next, operations) {
            Ok(ran) => {
                self.next += 1;
                self.checkpoints.count();
                Ok(ran)
            }
            Err(refused) => Err(refused),
        }
    }

    // Whether the session is closed, or a transaction is open.
    fn check_closed(&self) -> Result<(), Fault>
        ensures { result_err result ≡ close_refusal self.now }
    {
        if self.closed {
            return Err(Fault::Closed);
        }
        if self.kept.is_open() {
            return Err(Fault::ReadOpen);
        }
        Ok(())
    }

    /// Closes the session: its closing mark enters, and nothing is begun behind it. Refused with `Closed`, with `ReadOpen` where a
    /// transaction is open, and as the store refuses the mark. It takes no memory.
    pub fn close(&mut self, store: &mut Core<A>) -> Result<(), Fault>
        ensures step { Unless (close_refusal self.old) store.old.world (closing result) store.new.world
            (Step store.old.world (Enter self.old.session (Close self.old.next)) (closing result) store.new.world) }
        ensures ok { OnOk result (self.new ≡ record self.old { closed = true }) }
        ensures err { OnErr result (self.new ≡ self.old) }
    {
        self.check_closed()?;
        match close_session(store, self.session, self.next) {
            Ok(()) => {
                self.closed = true;
                Ok(())
            }
            Err(fault) => Err(fault),
        }
    }
}
