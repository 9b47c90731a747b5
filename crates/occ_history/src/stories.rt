//! The story, which knows the whole history.
ghost use Rattle.std.specs.Prelude.{◌≡◌, ℕ, ◌⊎◌, [], ◌∷◌, ◌++◌, IfOk, IsOkUnless};
ghost use mathlib.Core.List.{IsPrefix};
ghost use Rattle.atomic_table.specs.Seated.{TableId};
ghost use Rattle.occ_types.specs.declared.fault.Fault.TheVariants.{Memory};
ghost use Rattle.occ_history.specs.History.{Session, IsHere, IsWhole, MayAdd, Begins, adding, clients, lanes};
ghost use Rattle.occ_history.specs.Rule.{unwritten, one_more, next_front, visitor};

use crate::entries::Entry;
use crate::fronts::Front;
use crate::names::StoryName;
use crate::rule::{
    Adds, Apart, CatchesUp, ClientAndLane, Compared, HandedBack, NewVisitor, NextSession, Pass,
    Shelf, Shown, SideBySide,
};
use occ_types::Fault;
use std::alloc::Allocator;
use std::marker::{Model, PhantomData};

/// A story that has no name yet, and in which nothing has happened. It takes one word of memory.
#[derive(Drop)]
pub struct BlankStory<A: Allocator> {
    shelf: Shelf<A>,
    pass: Pass,
}

impl<A: Allocator> Model for BlankStory<A> {
    ghost use Rattle.std.specs.Prelude.{◌≡◌};
    ghost use Rattle.atomic_table.specs.Seated.{TableId};
    ghost use Rattle.occ_history.specs.Rule.{unwritten, IsKept};

    ghost Value = { TableId };

    ghost view = { λ s. s.pass.table_id };

    ghost invariant = { λ s. IsKept s.pass.table_id unwritten s.shelf.shared.table_id s.pass.table_id s.pass.me };
}

impl<A: Allocator> BlankStory<A> {
    /// A story with nothing in it. Refused with `Memory` where there is none for its word.
    pub fn new(alloc: A) -> Result<BlankStory<A>, Fault>
        ensures memory { IsOkUnless result Memory }
    {
        let (shelf, pass) = Shelf::of_words(alloc, &[0], &())?;
        Ok(BlankStory { shelf, pass })
    }
}

/// The story of a store, which stands behind its lock: its view is the whole history, and how many sessions have a front.
#[derive(Drop)]
pub struct Story<N: StoryName, A: Allocator> {
    shelf: Shelf<A>,
    pass: Pass,
    name: PhantomData<N>,
}

impl<N: StoryName, A: Allocator> Model for Story<N, A> {
    ghost use Rattle.occ_history.specs.History.{StoryView};
    ghost use Rattle.occ_history.specs.Rule.{kept_by, IsKept};

    ghost Value = { StoryView };

    ghost view = { λ s. kept_by s.pass.me.0 };

    ghost invariant = { λ s. IsKept N.story (kept_by s.pass.me.0) s.shelf.shared.table_id s.pass.table_id s.pass.me };
}

impl<N: StoryName, A: Allocator> Story<N, A> {
    /// A story under its name.
    pub fn named(blank: BlankStory<A>) -> Story<N, A>
        requires { blank ≡ N.story }
        ensures { result ≡ unwritten }
    {
        let BlankStory { shelf, pass } = blank;
        Story {
            shelf,
            pass,
            name: PhantomData,
        }
    }

    /// The front of the next session, for a worker. The first session is 1.
    pub fn next_session(&mut self) -> Front<N>
        ensures more { self.new ≡ one_more self.old }
        ensures front { result ≡ next_front self.old }
    {
        let shelf = &self.shelf;
        let pass = shelf.shared.split_seat::<NextSession>(&mut self.pass);
        Front::of(pass)
    }

    /// A front of nobody, who may add what belongs to no session.
    pub fn visitor(&mut self) -> Front<N>
        ensures same { self.new ≡ self.old }
        ensures front { result ≡ visitor self.old }
    {
        let shelf = &self.shelf;
        let pass = shelf.shared.split_seat::<NewVisitor>(&mut self.pass);
        Front::of(pass)
    }

    /// The front of a session's client and that of its lane, in place of the session's own.
    pub fn client_and_lane(&self, front: Front<N>) -> (Front<N>, Front<N>)
        requires { (session : ℕ) × (front.party ≡ Session session) }
        ensures { result ≡ (clients front, lanes front) }
    {
        let mut front = front;
        let mut pass = front.take();
        let shelf = &self.shelf;
        let lane = shelf.shared.split_seat::<ClientAndLane>(&mut pass);
        (Front::of(pass), Front::of(lane))
    }

    /// Adds an event of nobody's or of one's own. Whose front it is has seen it then, with all that came before it; of what he had not
    /// seen, nothing was his own.
    pub fn add<E: Entry, X>(&mut self, me: &mut Front<N>, about: &X)
        requires own { MayAdd E.entry me.old.party }
        ensures added { self.new ≡ record self.old { log = self.old.log ++ E.entry ∷ [] } }
        ensures before { IsPrefix me.old.seen self.old.log }
        ensures whole { IsWhole me.old self.old.log }
        ensures seen { me.new ≡ adding me.old self.old.log E.entry }
    {
        let _for_the_pick = about;
        let front = me.take();
        let shelf = &self.shelf;
        shelf.shared.join_seat::<Shown>(&mut self.pass, front);
        shelf.shared.load::<Adds<E>>(&mut self.pass, 0);
        let front = shelf.shared.split_seat::<HandedBack>(&mut self.pass);
        *me = Front::of(front);
    }

    /// A front sees the whole history, in which nothing that it had not seen was its own.
    pub fn catch_up(&mut self, me: &mut Front<N>)
        requires { IsHere me.old.party }
        ensures same { self.new ≡ self.old }
        ensures before { IsPrefix me.old.seen self.old.log }
        ensures whole { IsWhole me.old self.old.log }
        ensures seen { me.new ≡ record me.old { seen = self.old.log } }
    {
        let front = me.take();
        let shelf = &self.shelf;
        shelf.shared.join_seat::<Shown>(&mut self.pass, front);
        shelf.shared.load::<CatchesUp>(&mut self.pass, 0);
        let front = shelf.shared.split_seat::<HandedBack>(&mut self.pass);
        *me = Front::of(front);
    }

    /// Of two fronts, what one has seen is a beginning of what the other has, with all that was the first one's own.
    pub fn compare(&self, one: &mut Front<N>, two: &mut Front<N>)
        requires { IsHere one.old.party × IsHere two.old.party }
        ensures order { Begins one.old two.old ⊎ Begins two.old one.old }
        ensures same { (one.new ≡ one.old) × (two.new ≡ two.old) }
    {
        let mut pass = one.take();
        let other = two.take();
        let shelf = &self.shelf;
        shelf.shared.join_seat::<SideBySide>(&mut pass, other);
        shelf.shared.load::<Compared>(&mut pass, 0);
        let other = shelf.shared.split_seat::<Apart>(&mut pass);
        *one = Front::of(pass);
        *two = Front::of(other);
    }
}
