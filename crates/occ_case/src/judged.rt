//! Verdicts that are reached outside the lock.
ghost use Rattle.std.specs.Prelude.{◌≡◌};
ghost use Rattle.boxcar.specs.Table.{Shows};
ghost use Rattle.occ_model.specs.Validity.{verdict};

use crate::file::{CaseFile, CaseToken};
use crate::verdicts;
use occ_model::Verdict;
use std::alloc::Allocator;
use std::marker::Model;

/// A case of a file, with the verdict that is right for it. `judge` alone makes one. Clauses see the token of the case.
#[derive(Drop)]
pub struct Judged<A: Allocator> {
    token: CaseToken<A>,
    verdict: Verdict,
}

impl<A: Allocator> Model for Judged<A> {
    ghost use Rattle.std.specs.Prelude.{◌≡◌};
    ghost use Rattle.boxcar.specs.Table.{Where, where_coded};
    ghost use Rattle.occ_model.specs.Log.{Case as PlainCase};
    ghost use Rattle.occ_model.specs.Validity.{verdict as right_verdict};
    ghost use Rattle.std.specs.Coded.{codes};

    ghost Value = { Where PlainCase };

    ghost coded = { Prim.hlevel (codes, where_coded) };

    ghost view = { λ j. j.token };

    ghost invariant = { λ j. j.verdict ≡ right_verdict j.token.value };
}

impl<A: Allocator> Judged<A> {
    /// What shows the case in its file.
    pub fn token(&self) -> &CaseToken<A>
        ensures { result.now ≡ self.now }
    {
        &self.token
    }

    /// The verdict, which is right for that case.
    pub fn verdict(&self) -> Verdict
        ensures { result ≡ verdict self.now.value }
    {
        self.verdict
    }
}

/// Judges a case of a file, by nothing but the case. It always answers, waits for nobody and takes no memory.
pub fn judge<A: Allocator>(file: &CaseFile<A>, token: CaseToken<A>) -> Judged<A>
    requires { Shows file.now token }
    ensures { result ≡ token }
{
    let verdict = verdicts::verdict(file.case(&token));
    Judged { token, verdict }
}
