//! The rule under which the two ends of a lane share its queue.
ghost use Rattle.std.specs.Prelude.{ℕ};

use crate::items::Item;
use crossbeam_queue::RuledArrayQueue;
use crossbeam_queue::protocol::{Join, Lesson, Outcome, Protocol, Split};
use std::alloc::Allocator;
use std::collections::LinkedList;
use std::marker::{Brand, PhantomData};

/// What a pass may do, the number that its lane begins behind, and what it knows as pushed and as taken. No value of it is made.
pub struct Knowledge<A: Allocator> {
    pub sends: bool,
    pub takes: bool,
    pub before: u64,
    pub pushed: LinkedList<Item<A>>,
    pub taken: LinkedList<Item<A>>,
}

/// The items of a lane on their way.
pub(crate) type Line<A> = RuledArrayQueue<Item<A>, Knowledge<A>, InOrder, A>;

/// The pass of an end.
pub(crate) type Pass<A> = crossbeam_queue::Pass<Item<A>, Knowledge<A>>;

/// What was pushed is what was taken, followed by what is held.
pub struct InOrder;

impl<A: Allocator> Protocol<Item<A>, Knowledge<A>> for InOrder {
    ghost use Rattle.std.specs.Prelude.{true, []};
    ghost use Rattle.occ_queue.specs.Rule.{knowledge, Kept};

    ghost holds = { Kept };

    ghost first = { knowledge true true 0 [] [] };
}

/// The number that a lane begins behind, which is known only when the lane is made.
pub(crate) trait Beginning {
    ghost before: { ℕ };
}

impl Beginning for Brand {
    ghost before = { 0 };
}

/// The first pass becomes the sender's, and another the receiver's: both know the number that their lane begins behind.
pub(crate) struct Ends<B> {
    beginning: PhantomData<B>,
}

impl<A: Allocator, B: Beginning> Split<Knowledge<A>> for Ends<B> {
    ghost use Rattle.std.specs.Prelude.{true, false};
    ghost use Rattle.occ_queue.specs.Rule.{knowledge};

    ghost left = { λ v. knowledge true false B.before v.pushed v.taken };

    ghost right = { λ v. knowledge false true B.before v.pushed v.taken };
}

/// Another pass that knows as much, and may do nothing.
pub(crate) struct Telling;

impl<A: Allocator> Split<Knowledge<A>> for Telling {
    ghost use Rattle.std.specs.Prelude.{false};
    ghost use Rattle.occ_queue.specs.Rule.{knowledge};

    ghost left = { λ v. v };

    ghost right = { λ v. knowledge false false v.before v.pushed v.taken };
}

/// A pass learns what another one knows.
pub(crate) struct Hearing;

impl<A: Allocator> Join<Knowledge<A>> for Hearing {
    ghost use Rattle.std.specs.Prelude.{false, []};
    ghost use Rattle.occ_queue.specs.Rule.{knowledge, hearing};

    ghost both = { hearing };

    ghost spent = { knowledge false false 0 [] [] };
}

/// A push; and of a full queue, that what is held and what is known as taken is no more than what was pushed.
pub(crate) struct Pushes;

impl<A: Allocator> Outcome<Item<A>, Knowledge<A>> for Pushes {
    ghost use Rattle.std.specs.Prelude.{◌≡◌, [], ◌∷◌, ◌++◌};
    ghost use Rattle.occ_queue.specs.Rule.{knowledge};

    ghost then = { λ v x w. w ≡ knowledge v.sends v.takes v.before (v.pushed ++ x ∷ []) v.taken };
}

impl<A: Allocator> Lesson<Item<A>, Knowledge<A>> for Pushes {
    ghost use Rattle.std.specs.Prelude.{◌≤◌, ◌+◌, length};

    ghost fact = { λ v items. length v.taken + length items ≤ length v.pushed };
}

/// A pop; and of an empty queue, that what is known as pushed was taken.
pub(crate) struct Takes;

impl<A: Allocator> Outcome<Item<A>, Knowledge<A>> for Takes {
    ghost use Rattle.std.specs.Prelude.{◌≡◌, [], ◌∷◌, ◌++◌};
    ghost use Rattle.occ_queue.specs.Items.{items_of};
    ghost use Rattle.occ_queue.specs.Lanes.{AreOfOne};
    ghost use Rattle.occ_queue.specs.Rule.{knowledge};

    ghost then = { λ v x w. (w ≡ knowledge v.sends v.takes v.before v.pushed (v.taken ++ x ∷ [])) × AreOfOne v.before (items_of v.pushed) (items_of (v.taken ++ x ∷ [])) };
}

impl<A: Allocator> Lesson<Item<A>, Knowledge<A>> for Takes {
    ghost use Rattle.std.specs.Prelude.{◌++◌};
    ghost use mathlib.Core.List.{IsPrefix};

    ghost fact = { λ v items. IsPrefix v.pushed (v.taken ++ items) };
}

/// The sender's pass takes in the receiver's, so that it knows all that was pushed and all that was taken.
pub(crate) struct Together;

impl<A: Allocator> Join<Knowledge<A>> for Together {
    ghost use Rattle.std.specs.Prelude.{false, []};
    ghost use Rattle.occ_queue.specs.Rule.{knowledge};

    ghost both = { λ v u. knowledge v.sends u.takes v.before v.pushed u.taken };

    ghost spent = { knowledge false false 0 [] [] };
}

/// A pop by such a pass, which takes no more than was pushed; and of an empty queue, that all was taken.
pub(crate) struct Rest;

impl<A: Allocator> Outcome<Item<A>, Knowledge<A>> for Rest {
    ghost use Rattle.std.specs.Prelude.{◌≡◌, [], ◌∷◌, ◌++◌};
    ghost use mathlib.Core.List.{IsPrefix};
    ghost use Rattle.occ_queue.specs.Rule.{knowledge};

    ghost then = { λ v x w. (w ≡ knowledge v.sends v.takes v.before v.pushed (v.taken ++ x ∷ [])) × IsPrefix (v.taken ++ x ∷ []) v.pushed };
}

impl<A: Allocator> Lesson<Item<A>, Knowledge<A>> for Rest {
    ghost use Rattle.std.specs.Prelude.{◌≡◌, ◌++◌};

    ghost fact = { λ v items. v.pushed ≡ v.taken ++ items };
}

/// What the rule tells of what a pass knows.
pub(crate) struct Law;

impl<A: Allocator> Lesson<Item<A>, Knowledge<A>> for Law {
    ghost use Rattle.std.specs.Prelude.{◌≡◌, true};
    ghost use mathlib.Core.List.{IsPrefix};
    ghost use Rattle.occ_queue.specs.Items.{items_of};
    ghost use Rattle.occ_queue.specs.Lanes.{AreOfOne};

    ghost fact = { λ v items. AreOfOne v.before (items_of v.pushed) (items_of v.taken) × (v.sends ≡ true → IsPrefix (items_of v.taken) (items_of v.pushed)) };
}
