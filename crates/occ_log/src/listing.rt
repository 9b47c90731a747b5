//! Of each session, the places of its rows.
ghost use Rattle.std.specs.Prelude.{◌≡◌, ◌==◌, ◌<◌, ◌≤◌, ◌-◌, ◌+◌, ◌++◌, ◌∷◌, [], ℕ, cond, filter, length, nat_le, true, IfOk, OnOk, slice_get};
ghost use Rattle.occ_log.specs.Listing.{IsNew, has_room, listed_at};

use std::alloc::{AllocError, Allocator};
use std::marker::Model;

/// Of each session, the places of its rows in the log. Sessions are numbered from 1. Clauses see the list of what is kept of each, in
/// order.
#[derive(Drop)]
pub struct Listing<A: Allocator> {
    lists: Vec<Vec<usize, A>, A>,
}

impl<A: Allocator> Model for Listing<A> {
    ghost use Rattle.std.specs.Prelude.{List};
    ghost use Rattle.occ_log.specs.Listing.{Listed, all_listed};

    ghost Value = { List Listed };

    ghost view = { λ listing. all_listed listing.lists.items };
}

impl<A: Allocator + Copy> Listing<A> {
    /// No places, for so many sessions. Refused with `AllocError` where there is no memory for them.
    pub fn new(alloc: A, sessions: usize) -> Result<Listing<A>, AllocError>
        ensures { IfOk result (λ listing. IsNew sessions listing) }
    {
        let mut lists = Vec::with_capacity(alloc, sessions)?;
        for _ in 0..sessions {
            lists.push(Vec::new(alloc))?;
        }
        Ok(Listing { lists })
    }
}

impl<A: Allocator> Listing<A> {
    /// The place of the row of a session that has so many of its rows before it.
    pub fn get(&self, session: usize, before: usize) -> Option<usize>
        ensures { result ≡ slice_get (listed_at self.now session).places before }
    {
        let places = self.lists.get(session.checked_sub(1)?)?;
        places.get(before).copied()
    }

    /// Takes room for one more place of a session. Refused with `AllocError` where there is none. The places stay as they are.
    pub fn reserve(&mut self, session: usize) -> Result<(), AllocError>
        requires from { 1 ≤ session }
        requires below { session ≤ length self.old }
        ensures room { OnOk result ((listed_at self.new session).free ≡ true) }
        ensures places { (other : ℕ) → (listed_at self.new other).places ≡ (listed_at self.old other).places }
        ensures sessions { length self.new ≡ length self.old }
    {
        let places = &mut self.lists[session - 1];
        places.reserve(1)
    }

    /// The next place of a session comes in, in the room that was taken for it. It takes no memory.
    pub fn push(&mut self, session: usize, place: usize)
        requires from { 1 ≤ session }
        requires room { (listed_at self.old session).free ≡ true }
        ensures places { (other : ℕ) → (listed_at self.new other).places ≡ cond (session == other) ((listed_at self.old other).places ++ place ∷ []) (listed_at self.old other).places }
        ensures sessions { length self.new ≡ length self.old }
    {
        let places = &mut self.lists[session - 1];
        places.push_reserved(place);
    }

    /// The places before the first one go. The lists keep their room. It takes no memory.
    pub fn begin_at(&mut self, first: usize)
        ensures places { (session : ℕ) → (listed_at self.new session).places ≡ filter (λ place. nat_le first place) (listed_at self.old session).places }
        ensures room { (session : ℕ) → (listed_at self.old session).free ≡ true → (listed_at self.new session).free ≡ true }
        ensures sessions { length self.new ≡ length self.old }
    {
        for place in 0..self.lists.len() {
            keep_from(&mut self.lists[place], first);
        }
    }
}

fn keep_from<A: Allocator>(places: &mut Vec<usize, A>, first: usize)
    ensures items { places.new.items ≡ filter (λ place. nat_le first place) places.old.items }
    ensures room { has_room places.old ≡ true → has_room places.new ≡ true }
{
    places.retain(|place| first <= *place);
}
