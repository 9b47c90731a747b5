//! Whole transactions that are tried again after a back-up.
ghost use Rattle.std.specs.Prelude.{◌≡◌, ◌<◌, None, Ok, IfOk, OnOk, OnErr};
ghost use Rattle.occ_core.specs.AutoCheckpoints.{at_least_one as most_tries};
ghost use Rattle.occ_client.specs.Clients.{IsLastEnd, end_reply};
ghost use Rattle.occ_client.specs.Transacts.{CalledAtBoth, GivesUp, IsTried, NoneOpen, Prepares, Transacts, Tries, TriesOnce, end_of, moment};

use crate::clients::Client;
use crate::ending::End;
use occ_case::Ended;
use occ_core::Core;
use occ_types::Fault;
use std::alloc::Global;

impl Client<Global> {
    /// Does a whole transaction: begins it, lets `body` read and write, and ends it. After a back-up it begins anew, under the next number
    /// and from the counter of that time, until it commits or was tried so many times; once at least. The answer is what the body answered
    /// in the try that committed, with its transaction number, or why the last try was backed up.
    ///
    /// An error of `body` ends it: what is open is abandoned, and the error is handed on as it is. A fault of `begin` or `commit` ends it
    /// too, and is handed on as the error that it becomes; where `begin` is refused, what was open before stays so. A transaction that
    /// stopped in its single writes can't be abandoned: `commit` goes on with it.
    ///
    /// Where a checkpoint is due, as `checkpoint_each` says, it is made first. A refusal of it is not told: it stays due for the next call.
    #[tactic(auto, using(crate::proofs::Transacting::none_open, crate::proofs::Transacting::none_left))]
    pub fn transact<
        T: Drop,
        E: From<Fault>,
        F: FnMut(&mut Client<Global>, &mut Core<Global>) -> Result<T, E>,
    >(&mut self, store: &mut Core<Global>, tries: usize, mut body: F) -> Result<Ended<T>, E>
        requires { F.IsAlwaysCallable body }
        ensures tries { Transacts (CalledAtBoth F.FnMut) E.from_gives (most_tries tries) body (moment self.old store.old) result (moment self.new store.new) }
        ensures last { IfOk result (λ tried. IsLastEnd (end_reply (end_of tried)) store.new.world) }
        ensures none { OnOk result (self.new.current ≡ None) }
        ensures left { self.old.current ≡ None → OnErr result (NoneOpen (moment self.new store.new)) }
    {
        self.prepare(store);
        self.try_up_to(store, at_least_one(tries), &mut body)
    }

    // Makes the checkpoint that is due, if one is.
    #[tactic(auto, using(crate::proofs::Transacting::prepares))]
    fn prepare(&mut self, store: &mut Core<Global>)
        ensures { Prepares (moment self.old store.old) (moment self.new store.new) }
    {
        let _made = self.checkpoint_if_due(store);
    }

    // Tries a transaction until it commits, at most so many times.
    fn try_up_to<
        T: Drop,
        E: From<Fault>,
        F: FnMut(&mut Client<Global>, &mut Core<Global>) -> Result<T, E>,
    >(&mut self, store: &mut Core<Global>, most: usize, body: &mut F) -> Result<Ended<T>, E>
        requires callable { F.IsAlwaysCallable body.old }
        requires some { 0 < most }
        ensures { Tries (CalledAtBoth F.FnMut) E.from_gives most body.old (moment self.old store.old) result body.new (moment self.new store.new) }
    {
        let mut ended = match self.try_once(store, body) {
            Ok(ended) => ended,
            Err(error) => return Err(error),
        };
        for tried in 1..most {
            if let Ended::Committed { .. } = ended {
                return Ok(ended);
            }
            ended = match self.try_once(store, body) {
                Ok(ended) => ended,
                Err(error) => return Err(error),
            };
        }
        Ok(ended)
    }

    // One try.
    fn try_once<
        T: Drop,
        E: From<Fault>,
        F: FnMut(&mut Client<Global>, &mut Core<Global>) -> Result<T, E>,
    >(&mut self, store: &mut Core<Global>, body: &mut F) -> Result<Ended<T>, E>
        requires callable { F.IsAlwaysCallable body.old }
        ensures callable { F.IsAlwaysCallable body.new }
        ensures tries { TriesOnce (CalledAtBoth F.FnMut) E.from_gives body.old (moment self.old store.old) result body.new (moment self.new store.new) }
    {
        if let Err(fault) = self.begin(store) {
            return Err(E::from(fault));
        }
        match self.run_body(store, body) {
            Ok(value) => match self.end_try(store, value) {
                Ok(ended) => Ok(ended),
                Err(fault) => Err(E::from(fault)),
            },
            Err(error) => Err(self.give_up_for(store, error)),
        }
    }

    // Runs the body in the transaction that is open.
    #[tactic(auto, using(crate::proofs::Transacting::called))]
    fn run_body<T, E, F: FnMut(&mut Client<Global>, &mut Core<Global>) -> Result<T, E>>(
        &mut self,
        store: &mut Core<Global>,
        body: &mut F,
    ) -> Result<T, E>
        requires callable { F.IsAlwaysCallable body.old }
        ensures callable { F.IsAlwaysCallable body.new }
        ensures called { CalledAtBoth F.FnMut body.old self.old store.old result body.new self.new store.new }
    {
        body(self, store)
    }

    // Ends the try whose body answered this value. It is abandoned where that is refused.
    fn end_try<T: Drop>(&mut self, store: &mut Core<Global>, value: T) -> Result<Ended<T>, Fault>
        ensures { IsTried value (moment self.old store.old) result (moment self.new store.new) }
    {
        match self.commit(store) {
            Ok(End::Committed { tn }) => Ok(Ended::Committed { tn, value }),
            Ok(End::BackedUp(cause)) => Ok(Ended::BackedUp(cause)),
            Err(fault) => Err(self.give_up_for(store, fault)),
        }
    }

    // Abandons the open transaction, if there is one, and hands on why.
    fn give_up_for<E>(&mut self, store: &mut Core<Global>, why: E) -> E
        ensures gives_up { GivesUp (moment self.old store.old) (moment self.new store.new) }
        ensures why { result ≡ why }
    {
        let _known = self.abandon(store);
        why
    }
}

// So many tries, and one where that is none.
fn at_least_one(tries: usize) -> usize
    ensures most { result ≡ most_tries tries }
    ensures some { 0 < result }
{
    if tries == 0 { 1 } else { tries }
}
