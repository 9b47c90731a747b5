//! Those who load the words.
ghost use Rattle.std.specs.Prelude.{◌≡◌, ◌≤◌, ◌<◌};
ghost use Rattle.std.specs.Arc.{arc_value};
ghost use Rattle.occ_types.specs.declared.limits.TheConstants.{MAX_COUNTER};
ghost use Rattle.occ_board.specs.Words.{HasRoom};
ghost use Rattle.occ_board.specs.Rule.{fresh, started, polled, Rises};

use crate::rule::{LoadCounter, LoadWord, Pass, SeatIsMade, SharedWords};
use crate::words::Last;
use std::alloc::Allocator;
use std::marker::Model;
use std::sync::Arc;

/// The seat of one session at the board. What it sees never falls.
#[derive(Drop)]
pub struct Seat<A: Allocator> {
    board: Arc<SharedWords<A>, A>,
    pass: Pass,
    session: usize,
}

impl<A: Allocator> Model for Seat<A> {
    ghost use Rattle.std.specs.Prelude.{◌≡◌, ◌<◌, []};
    ghost use Rattle.std.specs.Arc.{arc_value};
    ghost use Rattle.occ_board.specs.declared.rule.Known.TheVariants.{Reads};
    ghost use Rattle.occ_board.specs.Rule.{Seated, seen_by};

    ghost Value = { Seated };

    ghost view = { λ s. record { board = s.pass.table_id; seen = seen_by s.pass.me.0 } };

    ghost invariant = { λ s. (s.pass.table_id ≡ (arc_value s.board).shared.table_id)
        × (0 < s.session)
        × (s.session < (arc_value s.board).shared.table_id.words)
        × (s.pass.me ≡ (Reads (seen_by s.pass.me.0), []))
        × ((seen_by s.pass.me.0).session ≡ s.session) };
}

impl<A: Allocator> Seat<A> {
    /// The seat of a session, which has loaded nothing yet.
    pub(crate) fn new(board: Arc<SharedWords<A>, A>, session: usize) -> Seat<A>
        requires { (0 < session) × (session < (arc_value board).shared.table_id.words) }
        ensures { result ≡ fresh (arc_value board).shared.table_id session }
    {
        let (_, pass) = board.shared.load_new_seat::<SeatIsMade>(session);
        Seat {
            board,
            pass,
            session,
        }
    }

    /// The transaction counter, by one atomic load: the start of a transaction. It is at least every transaction number that this
    /// seat has seen.
    pub fn start(&mut self) -> u64
        ensures loaded { self.new ≡ record self.old { seen = started self.old.seen result } }
        ensures rises { (self.old.seen.counter ≤ result) × (self.old.seen.last.tn ≤ result) }
        ensures fits { result ≤ MAX_COUNTER }
    {
        self.board.shared.load::<LoadCounter>(&mut self.pass, 0)
    }

    /// The last transaction of the session that is over, by one atomic load.
    pub fn last(&mut self) -> Last
        ensures loaded { self.new ≡ record self.old { seen = polled self.old.seen result } }
        ensures rises { Rises self.old.seen.last result }
        ensures fits { HasRoom result }
    {
        let word = self
            .board
            .shared
            .load::<LoadWord>(&mut self.pass, self.session);
        Last::of_word(word)
    }
}
