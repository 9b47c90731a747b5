//! What a store has for each session, before it has a name.
use occ_board::Seat;
use occ_queue::{Receiver, Sender};
use occ_types::Schema;
use std::alloc::Allocator;
use std::marker::Model;
use std::sync::Arc;

/// What becomes of one session and its lane: its number, the seat at the board, the two ends of the queue, and a handle of the tables.
#[derive(Drop)]
pub(crate) struct Part<A: Allocator + Copy> {
    pub(crate) session: usize,
    pub(crate) seat: Seat<A>,
    pub(crate) sender: Sender<A>,
    pub(crate) receiver: Receiver<A>,
    pub(crate) schema: Arc<Schema<A>, A>,
}

impl<A: Allocator + Copy> Model for Part<A> {
    ghost use Rattle.std.specs.Arc.{arc_value};
    ghost use Rattle.occ_store.specs.Frames.{PartView};

    ghost Value = { PartView };

    ghost view = { λ p. record { session = p.session; seat = p.seat; sender = p.sender; receiver = p.receiver; schema = arc_value p.schema } };
}

/// What becomes of one worker: its number, the seat at the board, a handle of the tables, and the number that it begins behind.
#[derive(Drop)]
pub(crate) struct Place<A: Allocator + Copy> {
    pub(crate) session: usize,
    pub(crate) seat: Seat<A>,
    pub(crate) schema: Arc<Schema<A>, A>,
    pub(crate) last: u64,
}

impl<A: Allocator + Copy> Model for Place<A> {
    ghost use Rattle.std.specs.Arc.{arc_value};
    ghost use Rattle.std.specs.Prelude.{◌≤◌};
    ghost use Rattle.occ_types.specs.declared.limits.TheConstants.{MAX_NUMBER};
    ghost use Rattle.occ_store.specs.Frames.{PlaceView};

    ghost Value = { PlaceView };

    ghost view = { λ p. record { session = p.session; seat = p.seat; schema = arc_value p.schema; last = p.last } };

    ghost invariant = { λ p. p.last ≤ MAX_NUMBER };
}
