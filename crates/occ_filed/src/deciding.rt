//! The decision, by the core or by a verdict that was reached outside the lock.
ghost use Rattle.std.specs.Prelude.{◌≡◌, true, false, None, is_some};
ghost use Rattle.boxcar.specs.Table.{Shows};
ghost use Rattle.occ_model.specs.Event.{Decide, Decided};
ghost use Rattle.occ_model.specs.Refusal.{refusal};
ghost use Rattle.occ_model.specs.Validity.{verdict};
ghost use Rattle.occ_core.specs.OpenCases.{open_case, IsRight};
ghost use Rattle.occ_model.specs.Replies.{replied};
ghost use Rattle.occ_filed.specs.Filed.{Moves, DecidesBy, token_of, has_index};

use crate::filed_core::FiledCore;
use occ_case::{Judged, Verdict};
use occ_types::Fault;
use std::alloc::Allocator;

impl<A: Allocator> FiledCore<A> {
    /// Decides the transaction that the session has entered, as `Core::decide` does: the verdict is reached now.
    pub fn decide(&mut self, session: usize) -> Result<Verdict, Fault>
        ensures { Moves self.old (Decide session) (replied Decided result) self.new }
    {
        self.core.decide(session)
    }

    /// Decides the transaction that the session has entered by a verdict that was reached outside the lock, on a case of this file. It
    /// is taken only where that case has the index under which the transaction's own case was filed at its entry.
    ///
    /// Refused, the first of these that holds: where there is no such session; where nothing of it is under way; where that is decided;
    /// and with `WrongCase` where the judged case has another index, or the transaction's case was not filed. Nothing moves then. It
    /// takes no memory.
    pub fn decide_by(&mut self, session: usize, judged: Judged<A>) -> Result<Verdict, Fault>
        requires own_file { Shows self.old.file judged }
        ensures decides { DecidesBy self.old session judged.index result self.new }
        ensures file { self.new.file ≡ self.old.file }
    {
        if self.is_wrong(session, &judged) {
            return Err(Fault::WrongCase);
        }
        self.core.decide_as(session, judged.verdict())
    }

    // Whether the session has an open case, and a judged case of this file is not the one that was filed for it. If not, its verdict is
    // right for the open case, if there is one.
    fn is_wrong(&self, session: usize, judged: &Judged<A>) -> bool
        requires own_file { Shows self.now.file judged.now }
        ensures wrong { result ≡ true → (refusal self.now.world (Decide session) ≡ None) × (has_index (token_of self.now.tokens session) judged.now.index ≡ false) }
        ensures own { result ≡ false → is_some (open_case self.now.world session) ≡ true → has_index (token_of self.now.tokens session) judged.now.index ≡ true }
        ensures right { result ≡ false → IsRight self.now.world session (verdict judged.now.value) }
    {
        if self.core.open_case(session).is_none() {
            return false;
        }
        let Some(token) = self.tokens.get(session) else {
            return true;
        };
        if token.index() != judged.token().index() {
            return true;
        }
        self.file.agrees(token, judged.token());
        false
    }
}
