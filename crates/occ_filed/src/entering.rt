//! Outcome, with the case of a request filed.
ghost use Rattle.std.specs.Prelude.{◌≡◌, ℕ, Option, None, Some, Ok, IfOk, IfErr, IfSome};
ghost use Rattle.boxcar.specs.Table.{Where, Shows};
ghost use Rattle.occ_model.specs.Log.{Case as PlainCase};
ghost use Rattle.occ_core.specs.OpenCases.{open_case};
ghost use Rattle.occ_model.specs.Replies.{replied_back};
ghost use Rattle.occ_core.specs.Replies.{outcome_of, CanEnter};
ghost use Rattle.occ_queue.specs.Items.{item_of};
ghost use Rattle.occ_filed.specs.Filed.{Enters, index_after, kept_after};

use crate::filed_core::FiledCore;
use crate::tokens::CaseTokens;
use occ_case::{CaseFile, CaseToken};
use occ_core::{Core, Outcome};
use occ_queue::Item;
use occ_types::Refused;
use std::alloc::Allocator;
use std::sync::Wait;

/// What came of an entry, and where its case was filed.
#[derive(Drop)]
#[derive_where(Debug)]
pub struct FiledOutcome<A: Allocator> {
    /// What came of the entry.
    pub outcome: Outcome<A>,
    /// The index under which the case of a request was filed. None where the file found no memory for it, and for what has no case.
    pub case: Option<u64>,
}

impl<A: Allocator + Copy> FiledCore<A> {
    /// Enters what a session hands in, as `Core::enter` does, with its refusals in the same order. The case of a request is filed last of
    /// all, and what shows it is kept until the session's next entry, so that the verdict on it may be reached outside the lock (`judge`,
    /// `decide_by`). Where the file finds no memory for it the request has entered all the same, and is decided by `decide`.
    pub fn enter<R: Wait>(
        &mut self,
        rt: &R,
        session: usize,
        item: Item<A>,
    ) -> Result<FiledOutcome<A>, Refused<Item<A>>>
        ensures step { (token : Option (Where PlainCase)) × Enters self.old session (item_of item) token (replied_back (λ filed. outcome_of filed.outcome) result) self.new }
        ensures outcome { IfOk result (λ filed. CanEnter (item_of item) filed.outcome) }
        ensures case { IfOk result (λ filed. filed.case ≡ index_after self.new.tokens session filed.outcome) }
        ensures handed_back { IfErr result (λ refused. item_of refused.value ≡ item_of item) }
    {
        match self.enter_unfiled(session, item) {
            Ok(outcome) => {
                let case = self.file_entered(rt, session, &outcome);
                Ok(FiledOutcome { outcome, case })
            }
            Err(refused) => Err(refused),
        }
    }

    /// Enters what a session hands in, as `Core::enter` does, with its refusals in the same order, and files no case. A request is then
    /// decided by `decide` alone.
    pub fn enter_unfiled(
        &mut self,
        session: usize,
        item: Item<A>,
    ) -> Result<Outcome<A>, Refused<Item<A>>>
        ensures step { Enters self.old session (item_of item) None (replied_back outcome_of result) self.new }
        ensures outcome { IfOk result (CanEnter (item_of item)) }
        ensures handed_back { IfErr result (λ refused. item_of refused.value ≡ item_of item) }
    {
        match self.core.enter(session, item) {
            Ok(outcome) => {
                keep_none(&mut self.tokens, session, &outcome);
                Ok(outcome)
            }
            Err(refused) => Err(refused),
        }
    }

    // Files the case of a request that has entered, and answers the index under which it was filed.
    fn file_entered<R: Wait>(&mut self, rt: &R, session: usize, outcome: &Outcome<A>) -> Option<u64>
        ensures kept { (token : Option (Where PlainCase)) × (self.new ≡ record self.old { tokens = kept_after self.old.tokens session token (outcome_of outcome.now) }) }
        ensures index { result ≡ index_after self.new.tokens session outcome.now }
    {
        let Outcome::Entered { .. } = outcome else {
            return None;
        };
        let token = push_open(&self.core, &self.file, rt, session);
        self.tokens.keep(session, token);
        self.tokens.index(session)
    }
}

// A session whose request has entered has no token any more.
fn keep_none<A: Allocator>(tokens: &mut CaseTokens<A>, session: usize, outcome: &Outcome<A>)
    ensures { tokens.new ≡ kept_after tokens.old session None (outcome_of outcome.now) }
{
    if let Outcome::Entered { .. } = outcome {
        tokens.keep(session, None);
    }
}

// Puts a copy of the case of what a session has entered into a file, which shares its sets. None where there is no memory for it, or no such case.
fn push_open<A: Allocator + Copy, R: Wait>(
    core: &Core<A>,
    file: &CaseFile<A>,
    rt: &R,
    session: usize,
) -> Option<CaseToken<A>>
    ensures file { IfSome result (λ token. Shows file.now token) }
    ensures own { IfSome result (λ token. (index : ℕ) (case : PlainCase) → open_case core.now.world session ≡ Some (index, case) → token.value ≡ case) }
{
    let Some(open) = core.open_case(session) else {
        return None;
    };
    let Ok(case) = open.case().clone() else {
        return None;
    };
    match file.push(rt, case) {
        Ok(token) => Some(token),
        Err(_refused) => None,
    }
}
