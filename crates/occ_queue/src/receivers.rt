//! The end of a lane at which its items are taken.
ghost use Rattle.std.specs.Prelude.{◌≡◌, ◌≤◌, true, false, Some, [], length, slice_get, option_map, IfSome, IfNone, IsNone, IsTrue};
ghost use Rattle.std.specs.List.{list_any};
ghost use Rattle.std.specs.Arc.{arc_value};
ghost use mathlib.Core.List.{IsPrefix};
ghost use Rattle.crossbeam_queue.specs.Passes.{view, IsPassOf};
ghost use Rattle.occ_types.specs.declared.limits.TheConstants.{MAX_NUMBER};
ghost use Rattle.occ_queue.specs.Items.{item_of, is_mark};
ghost use Rattle.occ_queue.specs.Lanes.{AreOfOne, InTurn, taking, longer};
ghost use Rattle.occ_queue.specs.Rule.{known_by, IsTaking};

use crate::items::Item;
use crate::news::News;
use crate::rules::{Hearing, Law, Line, Pass, Takes, Telling};
use std::alloc::Allocator;
use std::marker::Model;
use std::sync::{Arc, Wait};

/// The end of a lane at which its items are taken, in the order in which they were pushed. It knows all that was taken, and of what was
/// pushed as much as it heard.
#[derive(Drop)]
pub struct Receiver<A: Allocator> {
    pub(crate) line: Arc<Line<A>, A>,
    pub(crate) pass: Pass<A>,
    taken: u64,
    closed: bool,
}

impl<A: Allocator> Model for Receiver<A> {
    ghost use Rattle.std.specs.Prelude.{◌≡◌, length};
    ghost use Rattle.std.specs.List.{list_any};
    ghost use Rattle.std.specs.Arc.{arc_value};
    ghost use Rattle.crossbeam_queue.specs.Passes.{IsPassOf};
    ghost use Rattle.occ_queue.specs.Items.{is_mark};
    ghost use Rattle.occ_queue.specs.Lanes.{Known, AreOfOne};
    ghost use Rattle.occ_queue.specs.Rule.{known_by, IsTaking};

    ghost Value = { Known };

    ghost view = { λ r. known_by r.pass };

    ghost invariant = { λ r. IsPassOf (arc_value r.line) r.pass × IsTaking r.pass
        × (r.taken ≡ length (known_by r.pass).taken) × (r.closed ≡ list_any is_mark (known_by r.pass).taken)
        × AreOfOne (known_by r.pass).before (known_by r.pass).pushed (known_by r.pass).taken };
}

impl<A: Allocator> Receiver<A> {
    /// The end of a lane out of which nothing was taken.
    pub(crate) fn new(line: Arc<Line<A>, A>, pass: Pass<A>) -> Receiver<A>
        requires pass { IsPassOf (arc_value line) pass }
        requires unused { ((view pass).pushed ≡ []) × ((view pass).taken ≡ []) }
        requires number { (view pass).before ≤ MAX_NUMBER }
        requires takes { IsTaking pass }
        ensures { result ≡ known_by pass }
    {
        Receiver {
            line,
            pass,
            taken: 0,
            closed: false,
        }
    }

    /// How many items were taken. Its clauses have the law of what a receiver knows, for a caller to rest on: what was taken is in turn,
    /// and it and what this end heard of as pushed are beginnings of one list.
    pub fn taken(&self) -> u64
        ensures number { result ≡ length self.now.taken }
        ensures in_turn { InTurn self.now.before self.now.taken }
        ensures law { AreOfOne self.now.before self.now.pushed self.now.taken }
    {
        self.taken
    }

    /// Whether the closing mark was taken. Then all that this end heard of as pushed was taken too.
    pub fn is_closed(&self) -> bool
        ensures mark { result ≡ list_any is_mark self.now.taken }
        ensures all { IsTrue result → IsPrefix self.now.pushed self.now.taken }
    {
        self.closed
    }

    /// Takes the next item, which takes no memory. There is none only where all that this end heard of as pushed was taken, and always
    /// after the closing mark. It may wait for the other end, as the library's queue does, for as long as that end is within its own step.
    pub fn take<R: Wait>(&mut self, rt: &R) -> Option<Item<A>>
        ensures some { IfSome result (λ item. self.new ≡ taking self.old (item_of item)) }
        ensures none { IfNone result ((self.new ≡ self.old) × IsPrefix self.old.pushed self.old.taken) }
        ensures told { IfSome (slice_get self.old.pushed (length self.old.taken)) (λ item. option_map item_of result ≡ Some item) }
        ensures closed { list_any is_mark self.old.taken ≡ true → IsNone result }
    {
        let Some(item) = self.line.pop_as::<Takes, R>(rt, &mut self.pass) else {
            return None;
        };
        self.taken += 1;
        self.closed = item.is_mark();
        Some(item)
    }

    /// What this end knows, to be told to the sender.
    pub fn news(&mut self) -> News<A>
        ensures news { result ≡ self.old }
        ensures same { self.new ≡ self.old }
    {
        News {
            pass: self.line.another::<Telling>(&mut self.pass),
        }
    }

    /// Hears of what was pushed.
    pub fn hear(&mut self, news: News<A>)
        requires { news.lane ≡ self.old.lane }
        ensures heard { self.new ≡ record self.old { pushed = longer self.old.pushed news.pushed } }
    {
        self.line.absorb::<Hearing>(&mut self.pass, news.pass);
        self.line.learn_as::<Law>(&mut self.pass);
    }
}
