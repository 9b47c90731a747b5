//! What the tries of a session do with its open transaction.
ghost use Rattle.std.specs.Prelude.{◌≡◌, None, OnOk, IsOkUnless};
ghost use Rattle.occ_types.specs.declared.fault.Fault.TheVariants.{OutOfTurn};
ghost use Rattle.occ_open.specs.Transactions.{begun as no_writes};
ghost use Rattle.occ_case.specs.Ended.{ended_by};
ghost use Rattle.occ_store.specs.Sessions.{IsNext, MayBeSubmitted};
ghost use Rattle.occ_store.specs.Tries.{GivesUp, Reopens};

use crate::names::Name;
use crate::sessions::Session;
use crate::stores::Store;
use occ_case::Ended;
use occ_model::Verdict;
use occ_open::OpenTransaction;
use occ_types::Fault;
use std::alloc::Allocator;
use std::sync::Wait;

impl<N: Name, A: Allocator + Copy> Session<N, A> {
    /// Takes the open transaction out, for a body to run in it.
    pub(crate) fn lend(&mut self) -> OpenTransaction<A>
        ensures lent { result ≡ self.old.draft }
        ensures left { self.new ≡ record self.old { draft = None } }
        ensures next { MayBeSubmitted self.old.sender self.old.draft }
    {
        self.transaction.replace(OpenTransaction::none())
    }

    /// Takes back the transaction of a number that was lent. Where another one comes, or none, one without a write is open in its place,
    /// and the answer is `OutOfTurn`.
    pub(crate) fn take_back(
        &mut self,
        back: OpenTransaction<A>,
        number: u64,
        start: u64,
    ) -> Result<(), Fault>
        requires none { self.old.draft ≡ None }
        requires next { IsNext self.old.sender (no_writes number start) }
        ensures opened { Reopens self.old number self.new }
        ensures ok { OnOk result (self.new.draft ≡ back) }
        ensures fault { IsOkUnless result OutOfTurn }
    {
        if back.number() == Some(number) {
            let _none = self.transaction.replace(back);
            return Ok(());
        }
        self.transaction.begin(self.alloc, number, start)?;
        Err(Fault::OutOfTurn)
    }

    /// The open transaction is given up. What the state answers isn't told: it is refused only where it has no such session.
    pub(crate) fn give_up_open<R: Wait>(&mut self, rt: &R, store: &Store<N, A>)
        ensures { GivesUp N.named self.old self.new }
    {
        let _forgotten = self.abandon(rt, store);
        let _none = self.lend();
    }
}

/// How a transaction ended whose run answered this value, by its verdict.
pub(crate) fn ended<V: Drop>(tn: u64, value: V, verdict: Verdict) -> Ended<V>
    ensures { result ≡ ended_by tn value verdict }
{
    match verdict {
        Verdict::Commit => Ended::Committed { tn, value },
        Verdict::BackUp(cause) => Ended::BackedUp(cause),
    }
}
