//! A number for each session: its closing mark, or the last one that was folded.
ghost use Rattle.std.specs.Prelude.{◌≡◌, ◌==◌, ◌≤◌, nat_lt, cond, count_by, is_some, IfOk, IsOkUnless, MatchResult};
ghost use Rattle.std.specs.FinMap as finite;
ghost use Rattle.occ_types.specs.declared.fault.Fault.TheVariants.{Memory, NoSession};
ghost use Rattle.occ_book.specs.Marks.{marks_listed};

use occ_types::Fault;
use std::alloc::{AllocError, Allocator};
use std::marker::Model;

/// A number for each session that has one, its mark: the number that its closing mark took, or in a base its last one that was folded. There is a slot for each session, whose room is taken when the marks are made. Clauses see how many sessions there are, and the marks by session.
#[derive(Drop)]
pub struct Marks<A: Allocator> {
    slots: Vec<Option<u64>, A>,
}

impl<A: Allocator> Model for Marks<A> {
    ghost use Rattle.occ_book.specs.Marks.{Marked, marked_code, marked_of};

    ghost Value = { Marked };

    ghost coded = { marked_code };

    ghost view = { λ marks. marked_of marks.slots.items };
}

impl<A: Allocator> Marks<A> {
    /// No mark of so many sessions, with room for one of each. Refused with `Memory` where there is none.
    pub fn new(alloc: A, sessions: usize) -> Result<Marks<A>, Fault>
        ensures empty { IfOk result (λ marks. marks ≡ record { sessions = sessions; marks = finite.empty }) }
        ensures memory { IsOkUnless result Memory }
    {
        let mut slots = Vec::with_capacity(alloc, sessions)?;
        for _ in 0..sessions {
            slots.push(None)?;
        }
        Ok(Marks { slots })
    }

    /// How many sessions there are; they are numbered from 1. Its clause says that the marks in their order are those of the sessions in theirs.
    pub fn sessions(&self) -> usize
        ensures value { result ≡ self.now.sessions }
        ensures listed { finite.entries self.now.marks ≡ marks_listed self.now.marks 1 self.now.sessions }
    {
        self.slots.len()
    }

    /// How many sessions have a mark.
    pub fn len(&self) -> usize
        ensures { result ≡ finite.len self.now.marks }
    {
        count_marks(self.slots.as_slice())
    }

    /// Whether no session has a mark.
    pub fn is_empty(&self) -> bool
        ensures { result ≡ (finite.len self.now.marks == 0) }
    {
        self.len() == 0
    }

    /// The mark of a session, or none where it has none or there is no such session.
    pub fn get(&self, session: usize) -> Option<u64>
        ensures { result ≡ finite.get self.now.marks session }
    {
        let slots = self.slots.as_slice();
        if session == 0 {
            return None;
        }
        match slots.get(session - 1) {
            None => None,
            Some(slot) => *slot,
        }
    }

    /// A session has this mark from now on, also where it had another. It takes no memory.
    pub fn set(&mut self, session: usize, number: u64)
        requires first { 1 ≤ session }
        requires last { session ≤ self.old.sessions }
        ensures { self.new ≡ record self.old { marks = finite.insert self.old.marks session number } }
    {
        self.slots[session - 1] = Some(number);
    }

    /// No session has a mark from now on. It takes no memory.
    pub fn clear(&mut self)
        ensures { self.new ≡ record self.old { marks = finite.empty } }
    {
        self.slots.fill(None);
    }

    /// The same marks, with room for one of each of so many sessions. Refused with `NoSession` where these are fewer than before, and else with `Memory` where there is none for them.
    pub fn for_sessions(&self, alloc: A, sessions: usize) -> Result<Marks<A>, Fault>
        ensures ok { IfOk result (λ marks. marks ≡ record self.now { sessions = sessions }) }
        ensures fault { MatchResult result
            (λ _. self.now.sessions ≤ sessions)
            (λ fault. fault ≡ cond (nat_lt sessions self.now.sessions) NoSession Memory) }
    {
        if sessions < self.slots.len() {
            return Err(Fault::NoSession);
        }
        let mut slots = Vec::with_capacity(alloc, sessions)?;
        slots.extend_from_slice(&self.slots)?;
        slots.resize(sessions, None)?;
        Ok(Marks { slots })
    }
}

// How many slots have a mark.
fn count_marks(slots: &[Option<u64>]) -> usize
    ensures { result ≡ count_by is_some slots.now }
{
    slots.iter().filter(|slot| slot.is_some()).count()
}

impl<A: Allocator + Clone> Clone for Marks<A> {
    ghost is_clone = { λ source copy. copy ≡ source };

    fn clone(&self) -> Result<Marks<A>, AllocError> {
        Ok(Marks {
            slots: self.slots.clone()?,
        })
    }
}
