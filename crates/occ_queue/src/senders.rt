//! The end of a lane at which a session pushes.
ghost use Rattle.std.specs.Prelude.{◌≡◌, ◌≤◌, true, None, Some, [], length, IfOk, IfErr, OnOk, OnErr, MatchResult};
ghost use mathlib.Core.List.{IsPrefix};
ghost use Rattle.std.specs.Arc.{arc_value};
ghost use Rattle.crossbeam_queue.specs.Passes.{view, IsPassOf, ruled_capacity};
ghost use Rattle.occ_types.specs.declared.fault.Fault.TheVariants.{QueueFull};
ghost use Rattle.occ_types.specs.declared.limits.TheConstants.{MAX_NUMBER};
ghost use Rattle.occ_model.specs.Event.{Close};
ghost use Rattle.occ_queue.specs.Items.{item_of};
ghost use Rattle.occ_queue.specs.Numbering.{next, is_full, turn_fault, close_fault, refusal_of_submit, refusal_of_close};
ghost use Rattle.occ_queue.specs.Lanes.{InTurn, as_queue, capacity, pushing, longer};
ghost use Rattle.occ_queue.specs.Rule.{known_by, IsSending};

use crate::items::Item;
use crate::news::News;
use crate::numbering::Numbering;
use crate::rules::{Hearing, Law, Line, Pass, Pushes, Telling};
use occ_types::{Fault, Refused};
use std::alloc::Allocator;
use std::marker::Model;
use std::sync::{Arc, Wait};

/// The end of a lane at which a session pushes its items: they have the numbers after the one that the lane begins behind, without a
/// gap, and nothing follows the closing mark. It knows all that was pushed, and of what was taken as much as it heard.
#[derive(Drop)]
pub struct Sender<A: Allocator> {
    pub(crate) line: Arc<Line<A>, A>,
    pub(crate) pass: Pass<A>,
    before: u64,
    numbering: Numbering,
}

impl<A: Allocator> Model for Sender<A> {
    ghost use Rattle.std.specs.Prelude.{◌≡◌};
    ghost use Rattle.std.specs.Arc.{arc_value};
    ghost use mathlib.Core.List.{IsPrefix};
    ghost use Rattle.crossbeam_queue.specs.Passes.{IsPassOf, ruled_capacity};
    ghost use Rattle.occ_queue.specs.Lanes.{Known, InTurn, capacity, numbers};
    ghost use Rattle.occ_queue.specs.Rule.{known_by, IsSending};

    ghost Value = { Known };

    ghost view = { λ s. known_by s.pass };

    ghost invariant = { λ s. IsPassOf (arc_value s.line) s.pass × (ruled_capacity (arc_value s.line) ≡ capacity (known_by s.pass)) × IsSending s.pass
        × (s.before ≡ (known_by s.pass).before) × (s.numbering ≡ numbers (known_by s.pass).before (known_by s.pass).pushed)
        × InTurn (known_by s.pass).before (known_by s.pass).pushed × IsPrefix (known_by s.pass).taken (known_by s.pass).pushed };
}

impl<A: Allocator> Sender<A> {
    /// The end of a lane that begins behind the number `last`, and into which nothing was pushed.
    pub(crate) fn new(line: Arc<Line<A>, A>, pass: Pass<A>, last: u64) -> Sender<A>
        requires pass { IsPassOf (arc_value line) pass × (ruled_capacity (arc_value line) ≡ capacity (known_by pass)) }
        requires unused { ((view pass).pushed ≡ []) × ((view pass).taken ≡ []) }
        requires number { (last ≡ (view pass).before) × (last ≤ MAX_NUMBER) }
        requires sends { IsSending pass }
        ensures { result ≡ known_by pass }
    {
        Sender {
            line,
            pass,
            before: last,
            numbering: Numbering {
                pushed: last,
                closed: false,
            },
        }
    }

    /// The number that the next item takes: 1 more than that of the last one, or than the one that the lane begins behind. Its clauses
    /// have the law of what a sender knows, for a caller to rest on.
    pub fn next(&self) -> u64
        ensures number { result ≡ next (as_queue self.now) }
        ensures in_turn { InTurn self.now.before self.now.pushed }
        ensures taken { IsPrefix self.now.taken self.now.pushed }
    {
        self.numbering.next()
    }

    /// How many items were pushed.
    pub fn pushed(&self) -> u64
        ensures { result ≡ length self.now.pushed }
    {
        self.numbering.pushed - self.before
    }

    /// Whether the closing mark was pushed.
    pub fn is_closed(&self) -> bool
        ensures { result ≡ (as_queue self.now).closed }
    {
        self.numbering.closed
    }

    /// Pushes an item that has the next number, which takes no memory. It may wait for the other end, as the library's queue does, for as
    /// long as that end is within its own step.
    ///
    /// Refused with the first of these that holds; the item is handed back then, and the next number stays:
    /// - `Closed` where the closing mark was pushed;
    /// - `NumbersExhausted` where only the number of the mark is left, or none;
    /// - `OutOfTurn` where the item has another number, or is a closing mark, which `close` pushes;
    /// - `QueueFull`, only where as many were pushed as the lane holds beyond those that this end heard of as taken.
    pub fn submit<R: Wait>(&mut self, rt: &R, item: Item<A>) -> Result<(), Refused<Item<A>>>
        ensures ok { OnOk result (self.new ≡ pushing self.old (item_of item)) }
        ensures err { OnErr result (self.new ≡ self.old) }
        ensures handed_back { IfErr result (λ refused. refused.value ≡ item) }
        ensures fault { MatchResult result
            (λ _. turn_fault (as_queue self.old) (item_of item) ≡ None)
            (λ refused. refusal_of_submit (as_queue self.old) (item_of item) ≡ Some refused.fault) }
    {
        if let Err(fault) = self.numbering.check_turn(&item) {
            return Err(Refused { value: item, fault });
        }
        self.push(rt, item)
    }

    /// Pushes the closing mark, which takes no memory, and answers its number. Refused with `Closed` where it was pushed before, with
    /// `NumbersExhausted` where no number is left for it, as in a lane that begins behind `MAX_NUMBER`, and then with `QueueFull` as
    /// `submit` is; nothing changes then.
    pub fn close<R: Wait>(&mut self, rt: &R) -> Result<u64, Fault>
        ensures ok { OnOk result (self.new ≡ pushing self.old (Close (next (as_queue self.old)))) }
        ensures err { OnErr result (self.new ≡ self.old) }
        ensures number { IfOk result (λ number. number ≡ next (as_queue self.old)) }
        ensures fault { MatchResult result
            (λ _. close_fault (as_queue self.old) ≡ None)
            (λ fault. refusal_of_close (as_queue self.old) ≡ Some fault) }
    {
        let number = self.next();
        self.numbering.check_close()?;
        self.push(rt, Item::Close { number })?;
        Ok(number)
    }

    /// What this end knows, to be told to the receiver.
    pub fn news(&mut self) -> News<A>
        ensures news { result ≡ self.old }
        ensures same { self.new ≡ self.old }
    {
        News {
            pass: self.line.another::<Telling>(&mut self.pass),
        }
    }

    /// Hears of what was taken.
    pub fn hear(&mut self, news: News<A>)
        requires { news.lane ≡ self.old.lane }
        ensures heard { self.new ≡ record self.old { taken = longer self.old.taken news.taken } }
    {
        self.line.absorb::<Hearing>(&mut self.pass, news.pass);
        self.line.learn_as::<Law>(&mut self.pass);
    }

    // An item that may be pushed goes to the end, if there is room.
    fn push<R: Wait>(&mut self, rt: &R, item: Item<A>) -> Result<(), Refused<Item<A>>>
        requires { InTurn self.old.before (pushing self.old (item_of item)).pushed }
        ensures ok { OnOk result (self.new ≡ pushing self.old (item_of item)) }
        ensures err { OnErr result (self.new ≡ self.old) }
        ensures handed_back { IfErr result (λ refused. refused.value ≡ item) }
        ensures full { IfErr result (λ refused. (refused.fault ≡ QueueFull) × (is_full (as_queue self.old) ≡ true)) }
    {
        let closes = item.is_mark();
        match self.line.push_as::<Pushes, R>(rt, &mut self.pass, item) {
            Ok(()) => {
                self.numbering.push(closes);
                Ok(())
            }
            Err(value) => Err(Refused {
                value,
                fault: Fault::QueueFull,
            }),
        }
    }
}
