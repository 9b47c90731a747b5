//! What a store that threads share was opened with.
ghost use Rattle.std.specs.Prelude.{◌≡◌};

use occ_types::Schema;
use std::alloc::Allocator;
use std::marker::Model;

/// What a store was opened with: it stays while the store does.
#[derive(Drop)]
pub struct Settings<A: Allocator> {
    pub(crate) schema: Schema<A>,
    pub(crate) sessions: usize,
    pub(crate) keep: usize,
}

impl<A: Allocator> Model for Settings<A> {
    ghost use Rattle.occ_model.specs.World.{Settings as Plain};

    ghost Value = { Plain };

    ghost view = { λ s. record { schema = s.schema; sessions = s.sessions; keep = s.keep } };
}

impl<A: Allocator> Settings<A> {
    /// The tables, and what fits them.
    pub fn schema(&self) -> &Schema<A>
        ensures { result.now ≡ self.now.schema }
    {
        &self.schema
    }

    /// How many sessions there are; they are numbered from 1.
    pub fn sessions(&self) -> usize
        ensures { result ≡ self.now.sessions }
    {
        self.sessions
    }

    /// How many write sets are kept for testing.
    pub fn keep(&self) -> usize
        ensures { result ≡ self.now.keep }
    {
        self.keep
    }
}
