//! What a core keeps of each session.
ghost use Rattle.std.specs.Prelude.{◌≡◌, ◌<◌, ℕ, length, IfOk, None, Some, slice_get, slice_set};
ghost use Rattle.std.specs.Option.{option_map};
ghost use Rattle.occ_log.specs.SessionStates.{Slot, idle_slots, last_of};
ghost use Rattle.occ_log.specs.Rows.{slot_of, hold_of};

use occ_sets::WriteSet;
use std::alloc::{AllocError, Allocator};
use std::marker::Model;

/// The row of a session that has entered and is neither finished nor backed up.
#[derive(Drop)]
pub struct Held<A: Allocator> {
    /// Its place in the log (`Log::row`).
    pub place: usize,
    /// Its writes once more, for the window, so that a finish takes no memory.
    pub writes: WriteSet<A>,
}

/// What a core keeps of one session.
#[derive(Drop)]
pub struct SessionState<A: Allocator> {
    /// The number of the last transaction that entered, or 0 where none has.
    pub last: u64,
    /// The row that is under way, or none.
    pub held: Option<Held<A>>,
}

/// The sessions, in order. They are found by their places, which begin with 0; so the session numbered 1 has the place 0.
/// Clauses see the list of their plain slots.
#[derive(Drop)]
pub struct Sessions<A: Allocator> {
    states: Vec<SessionState<A>, A>,
}

impl<A: Allocator> Model for Sessions<A> {
    ghost use Rattle.std.specs.Prelude.{List};
    ghost use Rattle.occ_log.specs.SessionStates.{Slot};

    ghost Value = { List Slot };

    ghost use Rattle.occ_log.specs.Rows.{slots_of};

    ghost view = { λ s. slots_of s.states.items };
}

impl<A: Allocator> Sessions<A> {
    /// So many sessions, of which nothing has entered. Refused with `AllocError` where there is no memory for them. Nothing that follows
    /// takes memory.
    pub fn new(alloc: A, count: usize) -> Result<Sessions<A>, AllocError>
        ensures { IfOk result (λ sessions. sessions ≡ idle_slots count) }
    {
        let mut states = Vec::with_capacity(alloc, count)?;
        for _ in 0..count {
            states.push(SessionState {
                last: 0,
                held: None,
            })?;
        }
        Ok(Sessions { states })
    }

    /// How many sessions there are.
    pub fn len(&self) -> usize
        ensures { result ≡ length self.now }
    {
        self.states.len()
    }

    /// What is kept of the session at a place, or none where there is no such session.
    pub fn get(&self, place: usize) -> Option<&SessionState<A>>
        ensures { option_map (λ s. slot_of s.now) result ≡ slice_get self.now place }
    {
        self.states.get(place)
    }

    /// The number of the last transaction of the session at a place that entered. It is 0 where none has, and where there is no such
    /// session.
    pub fn last(&self, place: usize) -> u64
        ensures { result ≡ last_of self.now place }
    {
        match self.get(place) {
            None => 0,
            Some(state) => state.last,
        }
    }

    /// The session at a place, which has to be there, has a row under way that entered under this number.
    #[tactic(auto, using(crate::proofs::Changes::in_place))]
    pub fn hold(&mut self, place: usize, number: u64, held: Held<A>)
        requires { place < length self.old }
        ensures { self.new ≡ slice_set self.old place (record { last = number; hold = Some (hold_of held) }) }
    {
        self.states[place] = SessionState {
            last: number,
            held: Some(held),
        };
    }

    /// The session at a place, which has to be there, has had a transaction under this number, and has none under way.
    #[tactic(auto, using(crate::proofs::Changes::in_place))]
    pub fn pass(&mut self, place: usize, number: u64)
        requires { place < length self.old }
        ensures { self.new ≡ slice_set self.old place (record { last = number; hold = None }) }
    {
        let last = number;
        self.states[place] = SessionState { last, held: None };
    }

    /// The session at a place, which has to be there, is let go and gives up its row, if it has one. It keeps its last number.
    pub fn release(&mut self, place: usize) -> Option<Held<A>>
        requires { place < length self.old }
        ensures held { slice_get self.old place ≡ Some (record { last = last_of self.old place; hold = option_map hold_of result }) }
        ensures released { self.new ≡ slice_set self.old place (record { last = last_of self.old place; hold = None }) }
    {
        let state = &mut self.states[place];
        state.held.take()
    }
}
