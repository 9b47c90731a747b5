//! The one who stores the words.
ghost use Rattle.std.specs.Prelude.{◌≡◌, ◌≤◌, length, map, IfOk, IsOkUnless};
ghost use Rattle.std.specs.List.{range_with_len};
ghost use Rattle.occ_types.specs.declared.fault.Fault.TheVariants.{Memory};
ghost use Rattle.occ_types.specs.declared.limits.TheConstants.{MAX_COUNTER, MAX_NUMBER};
ghost use Rattle.occ_model.specs.declared.verdict.Verdict.TheVariants.{Commit};
ghost use Rattle.occ_board.specs.Words.{HasSession, behind, blank, last_of, counted, placed, settled};
ghost use Rattle.occ_board.specs.Rule.{fresh};

use crate::rule::{Pass, SharedWords, StoreCounter, StoreWord};
use crate::seats::Seat;
use crate::words::Last;
use atomic_table::Table;
use occ_model::Verdict;
use occ_types::Fault;
use std::alloc::Allocator;
use std::marker::Model;
use std::sync::Arc;

/// The one who stores the words. He keeps a plain copy of each.
#[derive(Drop)]
pub struct Publisher<A: Allocator> {
    board: Arc<SharedWords<A>, A>,
    pass: Pass,
    counter: u64,
    sessions: Vec<Last, A>,
}

impl<A: Allocator> Model for Publisher<A> {
    ghost use Rattle.std.specs.Prelude.{◌≡◌, [], suc, length};
    ghost use Rattle.std.specs.Arc.{arc_value};
    ghost use Rattle.occ_board.specs.declared.rule.Known.TheVariants.{Publishes};
    ghost use Rattle.occ_board.specs.Words.{IsSound};
    ghost use Rattle.occ_board.specs.Rule.{Posted};

    ghost Value = { Posted };

    ghost view = { λ p. record { board = p.pass.table_id; words = record { counter = p.counter; sessions = p.sessions.items } } };

    ghost invariant = { λ p. (p.pass.table_id ≡ (arc_value p.board).shared.table_id)
        × ((arc_value p.board).shared.table_id.words ≡ suc (length p.sessions.items))
        × (p.pass.id ≡ 0)
        × (p.pass.me ≡ (Publishes (record { counter = p.counter; sessions = p.sessions.items }), []))
        × IsSound (record { counter = p.counter; sessions = p.sessions.items }) };
}

impl<A: Allocator + Copy> Publisher<A> {
    /// The publisher of a new board. Refused with `Memory` where there is none for it.
    pub(crate) fn new(alloc: A, sessions: usize) -> Result<Publisher<A>, Fault>
        ensures blank { IfOk result (λ publisher. publisher.words ≡ blank sessions) }
        ensures memory { IsOkUnless result Memory }
    {
        let mut lasts = Vec::new(alloc);
        lasts.resize(sessions, Last::nothing())?;
        let mut words = Vec::new(alloc);
        words.resize(lasts.len() + 1, 0u64)?;
        let (table, pass) = Table::of_words(alloc, words.as_slice(), &sessions)?;
        let board = Arc::new(alloc, table)?;
        Ok(Publisher {
            board,
            pass,
            counter: 0,
            sessions: lasts,
        })
    }

    /// A seat for each session. Refused with `Memory` where there is none for them.
    pub(crate) fn seats(&self, alloc: A) -> Result<Vec<Seat<A>, A>, Fault>
        ensures unseen { IfOk result (λ seats. seats.items ≡ map (fresh self.now.board) (range_with_len 1 (length self.now.words.sessions))) }
        ensures memory { IsOkUnless result Memory }
    {
        let sessions = self.sessions.len();
        let mut seats = Vec::with_capacity(alloc, sessions)?;
        for place in 0..sessions {
            let board = Arc::try_clone(&self.board)?;
            seats.push(Seat::new(board, place + 1))?;
        }
        Ok(seats)
    }
}

impl<A: Allocator> Publisher<A> {
    /// The transaction counter.
    pub fn tnc(&self) -> u64
        ensures { result ≡ self.now.words.counter }
    {
        self.counter
    }

    /// How many sessions there are; they are numbered from 1.
    pub fn sessions(&self) -> usize
        ensures { result ≡ length self.now.words.sessions }
    {
        self.sessions.len()
    }

    /// What the word of a session says.
    pub fn last(&self, session: usize) -> Last
        requires { HasSession self.now.words session }
        ensures { result ≡ last_of self.now.words session }
    {
        self.sessions[session - 1]
    }

    /// The number of the last transaction of a session that is over.
    pub fn number(&self, session: usize) -> u64
        requires { HasSession self.now.words session }
        ensures { result ≡ (last_of self.now.words session).number }
    {
        self.last(session).number
    }

    /// Stores the transaction counter, in one atomic step.
    pub fn counter(&mut self, tn: u64)
        requires { (self.old.words.counter ≤ tn) × (tn ≤ MAX_COUNTER) }
        ensures { self.new ≡ record self.old { words = counted self.old.words tn } }
    {
        self.board
            .shared
            .store::<StoreCounter>(&mut self.pass, 0, tn);
        self.counter = tn;
    }

    /// A session goes on behind a number, as one of a store that goes on from a base: its word is stored, in one atomic step. How the
    /// transaction of this number ended is not told, and the transaction number of the session's last commit stays.
    pub fn resumed(&mut self, session: usize, number: u64)
        requires session { HasSession self.old.words session }
        requires number { ((last_of self.old.words session).number ≤ number) × (number ≤ MAX_NUMBER) }
        ensures { self.new ≡ record self.old { words = placed self.old.words session (behind (last_of self.old.words session) number) } }
    {
        let last = self.sessions[session - 1].behind(number);
        let word = last.word();
        self.board
            .shared
            .store::<StoreWord>(&mut self.pass, session, word);
        self.sessions[session - 1] = last;
    }

    /// A transaction of a session is over: its word is stored, in one atomic step. A commit's transaction number is the counter, which is
    /// therefore stored before.
    pub fn settled(&mut self, session: usize, number: u64, status: Verdict)
        requires session { HasSession self.old.words session }
        requires number { ((last_of self.old.words session).number ≤ number) × (number ≤ MAX_NUMBER) }
        ensures { self.new ≡ record self.old { words = settled self.old.words session number status } }
    {
        let last = self.sessions[session - 1].over(self.counter, number, status);
        let word = last.word();
        self.board
            .shared
            .store::<StoreWord>(&mut self.pass, session, word);
        self.sessions[session - 1] = last;
    }

    /// A transaction of a session has finished: the counter is stored and then the session's word, in two atomic steps.
    pub fn finished(&mut self, session: usize, number: u64, tn: u64)
        requires session { HasSession self.old.words session }
        requires number { ((last_of self.old.words session).number ≤ number) × (number ≤ MAX_NUMBER) }
        requires counter { (self.old.words.counter ≤ tn) × (tn ≤ MAX_COUNTER) }
        ensures { self.new ≡ record self.old { words = settled (counted self.old.words tn) session number Commit } }
    {
        self.counter(tn);
        self.settled(session, number, Verdict::Commit);
    }
}
