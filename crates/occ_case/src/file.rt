//! The file of cases that threads share.
ghost use Rattle.std.specs.Prelude.{◌≡◌, IfOk, IfErr, IfSome};
ghost use Rattle.boxcar.specs.Table.{Shows};
ghost use Rattle.occ_types.specs.declared.fault.Fault.TheVariants.{Memory};

use crate::cases::Case;
use boxcar::Pushed;
use occ_types::{Fault, Refused};
use std::alloc::{AllocError, Allocator};
use std::marker::Model;
use std::sync::Wait;

/// What shows that a file of cases has a case at an index, for as long as the file lasts. Clauses see the index and the plain case.
pub type CaseToken<A> = Pushed<Case<A>, A>;

/// The cases of a store, which threads share: each may push one and look at those that were pushed, with no lock. A case never
/// changes and never leaves the file before the file itself goes, so an index names one case for good.
#[derive(Drop)]
pub struct CaseFile<A: Allocator> {
    cases: boxcar::Vec<Case<A>, A>,
}

impl<A: Allocator> Model for CaseFile<A> {
    ghost use Rattle.boxcar.specs.Table.{Shelves, shelves_coded};

    ghost Value = { Shelves };

    ghost coded = { shelves_coded };

    ghost view = { λ file. file.cases };
}

impl<A: Allocator + Clone> CaseFile<A> {
    /// A file with no case. An error where there is no memory for it.
    pub fn new(alloc: A) -> Result<CaseFile<A>, AllocError> {
        let cases = boxcar::Vec::new(alloc)?;
        Ok(CaseFile { cases })
    }

    /// Puts a case into the file, and answers what shows that it is there, under an index of the file's own. Refused with `Memory`, and the case handed back, where the file has no memory to grow, or no index is left.
    pub fn push<R: Wait>(&self, rt: &R, case: Case<A>) -> Result<CaseToken<A>, Refused<Case<A>>>
        ensures ok { IfOk result (λ token. Shows self.now token × (token.value ≡ case)) }
        ensures handed_back { IfErr result (λ refused. (refused.value ≡ case) × (refused.fault ≡ Memory)) }
    {
        match self.cases.push_shown(rt, case) {
            Ok(token) => Ok(token),
            Err(value) => Err(Refused {
                value,
                fault: Fault::Memory,
            }),
        }
    }
}

impl<A: Allocator> CaseFile<A> {
    /// What shows the case at an index, or none where no case is seen there. It waits for nobody and takes no memory.
    pub fn witness(&self, index: u64) -> Option<CaseToken<A>>
        ensures { IfSome result (λ token. Shows self.now token × (token.index ≡ index)) }
    {
        self.cases.witness(index as usize)
    }

    /// The case that a token of this file shows.
    pub fn case<'a>(&'a self, token: &CaseToken<A>) -> &'a Case<A>
        requires { Shows self.now token.now }
        ensures { result.now ≡ token.now.value }
    {
        self.cases.value(token)
    }

    /// An index of the file names one case: two tokens of it that have one index show one case. It computes nothing.
    pub fn agrees(&self, first: &CaseToken<A>, second: &CaseToken<A>)
        requires { Shows self.now first.now × Shows self.now second.now × (first.now.index ≡ second.now.index) }
        ensures { first.now.value ≡ second.now.value }
    {
        self.cases.agrees(first, second);
    }
}
