//! The place that the core of a store lies in while no worker has it.
ghost use Rattle.std.specs.Prelude.{◌≡◌, IfOk, IfSome};
ghost use Rattle.occ_sharing.specs.Sharing.{IsHeldOf};

use crate::held::Held;
use crate::settings::Settings;
use counted_slot::{Counted, FREE, Fits, PRESENT, TAKEN};
use std::alloc::Allocator;
use std::marker::Model;

/// Why a call did nothing.
#[derive(Clone, Copy, Debug, PartialEq, Eq)]
pub enum Missed {
    /// Another worker has the core now: the same call is made again later.
    Again,
    /// The store has ended.
    Ended,
}

/// What stands in the place: the core with all that goes with it, or nothing while a worker has it, and once the store has ended.
#[derive(Drop)]
pub(crate) struct Standing<A: Allocator> {
    held: Option<Box<Held<A>, A>>,
}

impl<A: Allocator> Fits for Standing<A> {
    type Tag = Settings<A>;

    ghost fits = { λ settings standing. IfSome standing.held (λ held. IsHeldOf settings held.value.core.world held.value.idle.items) };
}

/// The place. Who finds it free takes the box out of it, and alone has it then. Clauses see what the store was opened with, which
/// every core that lies there has.
#[derive(Drop)]
pub(crate) struct Place<A: Allocator> {
    settings: Settings<A>,
    standing: Counted<Standing<A>>,
}

impl<A: Allocator> Model for Place<A> {
    ghost use Rattle.std.specs.Prelude.{◌≡◌};
    ghost use Rattle.occ_model.specs.World.{Settings as Plain};

    ghost Value = { Plain };

    ghost view = { λ place. place.settings };

    ghost invariant = { λ place. place.standing ≡ place.settings };
}

impl<A: Allocator> Place<A> {
    /// A place with this in it.
    pub(crate) fn new(settings: Settings<A>, held: Box<Held<A>, A>) -> Place<A>
        requires fits { IsHeldOf settings held.value.core.world held.value.idle.items }
        ensures { result ≡ settings }
    {
        let standing = Counted::new(Standing { held: Some(held) }, &settings);
        Place { settings, standing }
    }

    /// What the store was opened with.
    pub(crate) fn settings(&self) -> &Settings<A>
        ensures { result.now ≡ self.now }
    {
        &self.settings
    }

    /// Takes the core out of its place, which is empty then. Refused where another has it, or the store has ended.
    pub(crate) fn take(&self) -> Result<Box<Held<A>, A>, Missed>
        ensures { IfOk result (λ held. IsHeldOf self.now held.value.core.world held.value.idle.items) }
    {
        let (found, claim) = self.standing.turn(FREE, TAKEN);
        if found != FREE {
            claim.done();
            return Err(Missed::Again);
        }
        match claim.put(Standing { held: None }, PRESENT).held {
            Some(held) => Ok(held),
            None => {
                self.leave_empty();
                Err(Missed::Ended)
            }
        }
    }

    /// Puts the core back into its place. Who didn't take it from there gets it back.
    pub(crate) fn give(&self, held: Box<Held<A>, A>) -> Option<Box<Held<A>, A>>
        requires fits { IsHeldOf self.now held.value.core.world held.value.idle.items }
        ensures { IfSome result (λ back. back ≡ held) }
    {
        // Only who took it finds it so.
        let (found, claim) = self.standing.turn(PRESENT, TAKEN);
        if found != PRESENT {
            claim.done();
            return Some(held);
        }
        // The place was empty.
        let _nothing = claim.put(Standing { held: Some(held) }, FREE);
        None
    }

    /// Leaves the place empty for good, for who took the core out of it: all others are told then that the store has ended.
    pub(crate) fn leave_empty(&self) {
        let (found, claim) = self.standing.turn(PRESENT, TAKEN);
        if found != PRESENT {
            claim.done();
            return;
        }
        let _nothing = claim.put(Standing { held: None }, FREE);
    }
}
