//! What shows the cases that sessions filed last.
ghost use Rattle.std.specs.Prelude.{◌≡◌, ◌<◌, ℕ, IfOk, None, length, option_map, slice_set};
ghost use Rattle.occ_filed.specs.Filed.{token_of, kept, index_of};

use occ_case::CaseToken;
use std::alloc::{AllocError, Allocator};
use std::marker::Model;

/// Of each session what shows the case of its last entry, where that was filed. Clauses see the list of it.
#[derive(Drop)]
pub(crate) struct CaseTokens<A: Allocator> {
    tokens: Vec<Option<CaseToken<A>>, A>,
}

impl<A: Allocator> Model for CaseTokens<A> {
    ghost use Rattle.std.specs.Coded.{codes};
    ghost use Rattle.boxcar.specs.Table.{where_coded};
    ghost use Rattle.occ_filed.specs.Filed.{Tokens};

    ghost Value = { Tokens };

    ghost coded = { Prim.hlevel (codes, where_coded) };

    ghost view = { λ t. t.tokens.items };
}

impl<A: Allocator> CaseTokens<A> {
    /// None for so many sessions. An error where there is no memory for them.
    pub(crate) fn new(alloc: A, sessions: usize) -> Result<CaseTokens<A>, AllocError>
        ensures count { IfOk result (λ made. length made ≡ sessions) }
        ensures none { IfOk result (λ made. (session : ℕ) → token_of made session ≡ None) }
    {
        let mut tokens = Vec::with_capacity(alloc, sessions)?;
        for _ in 0..sessions {
            tokens.push(None)?;
        }
        Ok(CaseTokens { tokens })
    }

    /// That of a session.
    pub(crate) fn get(&self, session: usize) -> Option<&CaseToken<A>>
        ensures { option_map (λ t. t.now) result ≡ token_of self.now session }
    {
        if session == 0 {
            return None;
        }
        match self.tokens.get(session - 1) {
            Some(Some(token)) => Some(token),
            _ => None,
        }
    }

    /// The index that a session's case was filed under.
    pub(crate) fn index(&self, session: usize) -> Option<u64>
        ensures { result ≡ index_of (token_of self.now session) }
    {
        match self.get(session) {
            Some(token) => Some(token.index() as u64),
            None => None,
        }
    }

    /// Another one for a session, if there is such a session.
    pub(crate) fn keep(&mut self, session: usize, token: Option<CaseToken<A>>)
        ensures { self.new ≡ kept self.old session token }
    {
        if session == 0 {
            return;
        }
        if session > self.tokens.len() {
            return;
        }
        self.set(session - 1, token);
    }

    // Another one at a place, which has to be there.
    fn set(&mut self, place: usize, token: Option<CaseToken<A>>)
        requires { place < length self.old }
        ensures { self.new ≡ slice_set self.old place token }
    {
        self.tokens[place] = token;
    }
}
