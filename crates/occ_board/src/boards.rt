//! How a board is made.
ghost use Rattle.std.specs.Prelude.{◌≡◌, map, IfOk, IsOkUnless};
ghost use Rattle.std.specs.List.{range_with_len};
ghost use Rattle.occ_types.specs.declared.fault.Fault.TheVariants.{Memory};
ghost use Rattle.occ_board.specs.Words.{blank};
ghost use Rattle.occ_board.specs.Rule.{fresh};

use crate::publishing::Publisher;
use crate::seats::Seat;
use occ_types::Fault;
use std::alloc::Allocator;

/// A counter and a word for each session, which threads see without a lock.
pub struct Board;

impl Board {
    /// A board before the first transaction: the one who stores its words, and a seat for each session, the first session's first.
    /// Refused with `Memory` where there is none for them.
    pub fn new<A: Allocator + Copy>(
        alloc: A,
        sessions: usize,
    ) -> Result<(Publisher<A>, Vec<Seat<A>, A>), Fault>
        ensures publisher { IfOk result (λ made. made.0.words ≡ blank sessions) }
        ensures seats { IfOk result (λ made. made.1.items ≡ map (fresh made.0.board) (range_with_len 1 sessions)) }
        ensures memory { IsOkUnless result Memory }
    {
        let publisher = Publisher::new(alloc, sessions)?;
        let seats = publisher.seats(alloc)?;
        Ok((publisher, seats))
    }
}
