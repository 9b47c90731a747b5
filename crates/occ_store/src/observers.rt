//! Observers: who looks at a store and belongs to none of its sessions.
ghost use Rattle.std.specs.Prelude.{◌≡◌, IfOk, IsOkUnless, option_map};
ghost use Rattle.occ_types.specs.declared.fault.Fault.TheVariants.{Memory};
ghost use Rattle.occ_model.specs.Event.{Checkpoint, Folded};
ghost use Rattle.occ_model.specs.Log.{Audited};
ghost use Rattle.occ_model.specs.Poll.{row_numbered};
ghost use Rattle.occ_model.specs.Replies.{replied};
ghost use Rattle.occ_log.specs.Rows.{log_of};
ghost use Rattle.occ_history.specs.History.{Nobody, IsHere, Begins};
ghost use Rattle.occ_history.specs.Rule.{visitor};
ghost use Rattle.occ_history.specs.Clauses.{IsHistory};
ghost use Rattle.occ_store.specs.Books.{IsBookOf};
ghost use Rattle.occ_store.specs.Locked.{told_standing};
ghost use Rattle.occ_store.specs.Names.{opened_as};
ghost use Rattle.occ_store.specs.Standing.{StandsIn, SeesWhole};

use crate::names::{FrontOf, Name};
use crate::shared::Shared;
use crate::stores::Store;
use occ_book::{Book, Standing};
use occ_case::OpenCase;
use occ_types::Fault;
use std::alloc::Allocator;
use std::marker::Model;
use std::sync::Wait;

/// One who looks at a store and belongs to none of its sessions: it makes checkpoints and asks for rows, books and figures. It has seen a beginning
/// of the store's history, and what it is told next goes on from there. A store may have any number of them. It has no bytes.
#[derive(Drop)]
pub struct Observer<N: Name> {
    pub(crate) front: FrontOf<N>,
}

impl<N: Name> Model for Observer<N> {
    ghost use Rattle.std.specs.Prelude.{◌≡◌};
    ghost use Rattle.occ_history.specs.History.{FrontView, Nobody};

    ghost Value = { FrontView };

    ghost view = { λ o. o.front };

    ghost invariant = { λ o. o.front.party ≡ Nobody };
}

impl<N: Name> Observer<N> {
    /// One with this front.
    fn of(front: FrontOf<N>) -> Observer<N>
        requires { front.party ≡ Nobody }
        ensures { result ≡ front }
    {
        Observer { front }
    }
}

impl<N: Name, A: Allocator + Copy> Store<N, A> {
    /// A new observer, who has seen all that happened until now. It takes the lock.
    pub fn observer<R: Wait>(&self, rt: &R) -> Observer<N>
        ensures nobody { result.party ≡ Nobody }
        ensures seen { IsHistory (opened_as N.named) result.seen }
    {
        let mut shared = self.lock(rt);
        shared.law();
        Observer::of(shared.observer())
    }

    /// Folds the settled beginning of the log into the base, and answers how many rows it folded. Refused as `Core::checkpoint` is. It
    /// takes the lock.
    pub fn checkpoint<R: Wait>(&self, rt: &R, observer: &mut Observer<N>) -> Result<usize, Fault>
        ensures { StandsIn N.named observer.old Checkpoint (replied Folded result) observer.new }
    {
        let mut shared = self.lock(rt);
        shared.law();
        shared.checkpoint(&mut observer.front)
    }

    /// How the row of a session's transaction with this number stands; none where it does not stand in the log, as before its entry and
    /// after it was folded. It takes the lock, and no memory.
    pub fn row<R: Wait>(
        &self,
        rt: &R,
        observer: &mut Observer<N>,
        session: usize,
        number: u64,
    ) -> Option<Standing<()>>
        ensures { SeesWhole N.named (λ world. result ≡ option_map (λ row. told_standing row.standing) (row_numbered session number world.log)) observer.old observer.new }
    {
        let mut shared = self.lock(rt);
        shared.law();
        shared.show_to(&mut observer.front);
        shared.row(session, number)
    }

    /// All that the store shows now, as values of its own: its audit is yes, whatever threads did. Refused with `Memory` where there is
    /// none for it. It takes the lock.
    pub fn book<R: Wait>(
        &self,
        rt: &R,
        observer: &mut Observer<N>,
    ) -> Result<Book<A, OpenCase<A>>, Fault>
        ensures shows { IfOk result (λ book. SeesWhole N.named (λ world. IsBookOf world book) observer.old observer.new) }
        ensures audited { IfOk result (λ book. Audited book.base.base book.marks.marks book.table.state (log_of book.log.items)) }
        ensures memory { IsOkUnless result Memory }
    {
        let mut shared = self.lock(rt);
        shared.law();
        shared.show_to(&mut observer.front);
        shared.book()
    }
}

impl<N: Name, A: Allocator + Copy> Shared<N, A> {
    // The front of a new observer.
    fn observer(&mut self) -> FrontOf<N>
        ensures same { self.new ≡ self.old }
        ensures front { result ≡ visitor self.old.story }
    {
        self.story.visitor()
    }

    /// Shows the whole history.
    pub(crate) fn show_to(&mut self, front: &mut FrontOf<N>)
        requires { IsHere front.old.party }
        ensures same { self.new ≡ self.old }
        ensures seen { front.new ≡ record front.old { seen = self.old.story.log } }
        ensures before { Begins front.old front.new }
    {
        self.story.catch_up(front);
    }
}
