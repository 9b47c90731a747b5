//! The fronts: who has seen a beginning of the history.
ghost use Rattle.std.specs.Prelude.{◌≡◌, [], ◌∷◌};
ghost use Rattle.occ_history.specs.History.{FrontView, absent, IsHere};
ghost use Rattle.occ_history.specs.Rule.{IsPassOf};

use crate::names::StoryName;
use crate::rule::{Known, Pass};
use atomic_table::Badge;
use std::marker::{Model, PhantomData};
use std::mem;

/// What a client, a lane or a worker has seen: a beginning of the history, with all events of its own. It has no bytes.
#[derive(Drop)]
pub struct Front<N: StoryName> {
    badge: Badge<Known>,
    name: PhantomData<N>,
}

impl<N: StoryName> Model for Front<N> {
    ghost use Rattle.occ_history.specs.History.{FrontView};
    ghost use Rattle.occ_history.specs.Rule.{IsFront, seen_by};

    ghost Value = { FrontView };

    ghost view = { λ f. seen_by f.badge.views };

    ghost invariant = { λ f. IsFront N.story f.badge.table_id f.badge.views };
}

impl<N: StoryName> Front<N> {
    /// What stands in the place of a front that was lent out.
    pub fn blank() -> Front<N>
        ensures { result ≡ absent }
    {
        Front {
            badge: Badge::blank(),
            name: PhantomData,
        }
    }

    // The front of a pass.
    pub(crate) fn of(pass: Pass) -> Front<N>
        requires { (front : FrontView) × IsPassOf N.story front pass.table_id pass.me }
        ensures { IsPassOf N.story result pass.table_id pass.me }
    {
        Front {
            badge: pass.into_badge(),
            name: PhantomData,
        }
    }

    // Its pass. A blank one stands in its place.
    pub(crate) fn take(&mut self) -> Pass
        requires { IsHere self.old.party }
        ensures pass { IsPassOf N.story self.old result.table_id result.me }
        ensures gone { self.new ≡ absent }
    {
        let badge = mem::replace(&mut self.badge, Badge::blank());
        badge.into_seat()
    }
}
