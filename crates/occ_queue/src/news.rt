//! What one end of a lane tells the other.
use crate::items::Item;
use crate::rules::{Knowledge, Pass};
use std::alloc::Allocator;
use std::marker::Model;

/// What an end knew of its lane when it was asked: how far it had pushed or taken. It is told to the other end, mostly in another
/// thread, and takes no memory and no bytes.
#[derive(Drop)]
pub struct News<A: Allocator> {
    pub(crate) pass: Pass<A>,
}

impl<A: Allocator> Model for News<A> {
    ghost use Rattle.std.specs.Prelude.{◌≡◌, []};
    ghost use Rattle.occ_queue.specs.Lanes.{Known};
    ghost use Rattle.occ_queue.specs.Rule.{known_by};

    ghost Value = { Known };

    ghost view = { λ n. known_by n.pass };

    ghost invariant = { λ n. n.pass.me.1 ≡ [] };
}
