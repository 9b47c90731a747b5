//! The name of a store, by which its parts know one another.
ghost use Rattle.std.specs.Prelude.{◌≡◌};

use occ_history::{Front, StoryName};
use std::marker::{Brand, Model, PhantomData};
use std::sync::ledger::Ledger;

/// Whether a store may be stopped, as far as clauses are to know.
pub trait MayStop {
    ghost may_be_stopped: { Type 0 };
}

impl MayStop for Brand {
    ghost may_be_stopped = { Unit {0} };
}

/// That a store may be stopped. A function that stops one says `N: Name + Stoppable`, and `Brand` is so.
pub trait Stoppable: MayStop {
    ghost stoppable: { Self.MayStop.may_be_stopped };
}

impl Stoppable for Brand {
    ghost stoppable = { tt };
}

/// Which store it is: what it was opened with, its story, its file of cases, its board and its lanes; and the ledger in which its lanes
/// count the rows that they enter, with a part for each. A program calls a function of its own, generic over it, with `Brand`, and picks it there.
pub trait Name: Ledger + MayStop {
    ghost use Rattle.occ_store.specs.Names.{Named};

    ghost named: { Named };
}

impl Name for Brand {
    ghost use Rattle.occ_store.specs.Names.{unnamed};

    ghost named = { unnamed };
}

/// The name of a store's story, by the name of the store.
#[derive(Drop)]
pub struct OwnStory<N: Name> {
    _name: PhantomData<N>,
}

impl<N: Name> StoryName for OwnStory<N> {
    ghost story = { N.named.story };
}

/// What a session, a lane, a worker or an observer has seen of the history of its store. It has no bytes.
pub(crate) type FrontOf<N> = Front<OwnStory<N>>;

/// That the ledger has a part for each session of the store.
#[derive(Drop)]
pub(crate) struct Cut<N: Name> {
    name: PhantomData<N>,
}

impl<N: Name> Model for Cut<N> {
    ghost use Rattle.std.specs.Prelude.{◌≡◌};

    ghost Value = { Unit {0} };

    ghost view = { λ _. tt };

    ghost invariant = { λ _. N.parts ≡ N.named.settings.sessions };
}

impl<N: Name> Cut<N> {
    pub(crate) fn new() -> Cut<N>
        requires { N.parts ≡ N.named.settings.sessions }
    {
        Cut { name: PhantomData }
    }

    // What it says. It computes nothing.
    pub(crate) fn law(&self)
        ensures { N.parts ≡ N.named.settings.sessions }
    {
        let _ = &self.name;
    }
}
