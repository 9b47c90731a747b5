//! The rule of a story: what holds between any two steps, and what each step does.

use crate::entries::Entry;
use atomic_table::{Join, Play, Seat, Split, Table, TableRule};
use std::marker::{Model, PhantomData};

/// What one who has a part in a story knows of it. No code makes one.
pub struct Known {
    nothing: (),
}

impl Model for Known {
    ghost use Rattle.occ_history.specs.Rule as plain;

    ghost Value = { plain.Known };

    ghost view = { λ _. plain.Spent };
}

/// The rule of a story.
pub struct StoryRule;

impl TableRule<(), Known, ()> for StoryRule {
    ghost use Rattle.occ_history.specs.Rule.{Ruled, Keeps, unwritten};

    ghost holds = { λ _. Ruled };

    ghost first = { λ _. Keeps unwritten };
}

/// The word that all who have a part in a story share. It never changes.
pub(crate) type Shelf<A> = Table<(), Known, (), StoryRule, A>;

/// What one who has a part in a story carries: no bytes, and what he knows.
pub(crate) type Pass = Seat<(), Known>;

/// The next session's front is made.
pub(crate) struct NextSession;

impl Split<Known> for NextSession {
    ghost use Rattle.occ_history.specs.Rule.{Keeps, Sees, kept_by, one_more, next_front};

    ghost left = { λ known. Keeps (one_more (kept_by known)) };

    ghost right = { λ known. Sees (next_front (kept_by known)) };
}

/// A front of nobody is made.
pub(crate) struct NewVisitor;

impl Split<Known> for NewVisitor {
    ghost use Rattle.occ_history.specs.Rule.{Keeps, Sees, kept_by, visitor};

    ghost left = { λ known. Keeps (kept_by known) };

    ghost right = { λ known. Sees (visitor (kept_by known)) };
}

/// A session's front becomes its client's and its lane's.
pub(crate) struct ClientAndLane;

impl Split<Known> for ClientAndLane {
    ghost use Rattle.occ_history.specs.Rule.{Sees, front_by};
    ghost use Rattle.occ_history.specs.History.{clients, lanes};

    ghost left = { λ known. Sees (clients (front_by known)) };

    ghost right = { λ known. Sees (lanes (front_by known)) };
}

/// A front is shown to the story.
pub(crate) struct Shown;

impl Join<Known> for Shown {
    ghost use Rattle.occ_history.specs.Rule.{Shows, Spent, kept_by, front_by};

    ghost both = { λ known other. Shows (kept_by known) (front_by other) };

    ghost spent = { Spent };
}

/// The front that was shown is handed back.
pub(crate) struct HandedBack;

impl Split<Known> for HandedBack {
    ghost use Rattle.occ_history.specs.Rule.{Keeps, Sees, kept_by, front_by};

    ghost left = { λ known. Keeps (kept_by known) };

    ghost right = { λ known. Sees (front_by known) };
}

/// An event is added, and the front that is shown has seen it with all before it.
pub(crate) struct Adds<E> {
    entry: PhantomData<E>,
}

impl<E: Entry> Play<(), Known> for Adds<E> {
    ghost use Rattle.occ_history.specs.Steps.{adds};

    ghost then = { adds E.entry };
}

/// The front that is shown sees the whole history.
pub(crate) struct CatchesUp;

impl Play<(), Known> for CatchesUp {
    ghost use Rattle.occ_history.specs.Steps.{catches_up};

    ghost then = { catches_up };
}

/// Two fronts are held side by side.
pub(crate) struct SideBySide;

impl Join<Known> for SideBySide {
    ghost use Rattle.occ_history.specs.Rule.{Compares, Spent, front_by};

    ghost both = { λ known other. Compares (front_by known) (front_by other) };

    ghost spent = { Spent };
}

/// They are found to be beginnings of one history.
pub(crate) struct Compared;

impl Play<(), Known> for Compared {
    ghost use Rattle.occ_history.specs.Steps.{compared};

    ghost then = { compared };
}

/// Each is handed back.
pub(crate) struct Apart;

impl Split<Known> for Apart {
    ghost use Rattle.occ_history.specs.Rule.{Sees, front_by, other_by};

    ghost left = { λ known. Sees (front_by known) };

    ghost right = { λ known. Sees (other_by known) };
}
