//! The queue of one session, which keeps the law of its numbers.
ghost use Rattle.std.specs.Prelude.{◌≡◌, ◌<◌, ◌≤◌, None, Some, drop, slice_get, option_map, IfOk, IfErr, IsSome, OnOk, OnErr, IsOkUnless, length};
ghost use Rattle.std.specs.Result.{result_err};
ghost use Rattle.occ_types.specs.declared.fault.Fault.TheVariants.{Memory, QueueFull};
ghost use Rattle.occ_types.specs.declared.limits.TheConstants.{MAX_NUMBER};
ghost use Rattle.occ_types.specs.Schema.{fault_if};
ghost use Rattle.occ_model.specs.Event.{Close};
ghost use Rattle.occ_queue.specs.Items.{item_of};
ghost use Rattle.occ_queue.specs.Numbering.{IsInTurn, unused, behind, behind_fault, next, with_item, is_full, refusal_of_request, refusal_of_submit, refusal_of_close};

use crate::items::Item;
use crate::numbering::Numbering;
use crate::queues::Queue;
use occ_types::limits::MAX_NUMBER;
use occ_types::{Fault, Refused};
use std::alloc::Allocator;
use std::marker::Model;

/// The items of one session on their way to be entered, by one owner: what is pushed has the numbers after the one that the queue
/// begins behind, without a gap, and nothing follows the closing mark. An item that was taken has left it, and doesn't count for the
/// room.
#[derive(Drop)]
pub struct SessionQueue<A: Allocator> {
    queue: Queue<A>,
    before: u64,
    numbering: Numbering,
}

impl<A: Allocator> Model for SessionQueue<A> {
    ghost use Rattle.occ_queue.specs.Numbering.{Numbered, IsInTurn};

    ghost Value = { Numbered };

    ghost view = { λ q. record { items = q.queue.items; limit = q.queue.limit; before = q.before; pushed = q.numbering.pushed; closed = q.numbering.closed } };

    ghost invariant = { λ q. IsInTurn (record { items = q.queue.items; limit = q.queue.limit; before = q.before; pushed = q.numbering.pushed; closed = q.numbering.closed }) };
}

impl<A: Allocator> SessionQueue<A> {
    /// The queue of a session that has pushed nothing, with room for `limit` items: the first one takes the number 1. Refused with
    /// `Memory` where there is none for them.
    pub fn new(alloc: A, limit: usize) -> Result<SessionQueue<A>, Fault>
        ensures unused { IfOk result (λ queue. queue ≡ unused limit) }
        ensures memory { IsOkUnless result Memory }
    {
        SessionQueue::behind(alloc, limit, 0)
    }

    /// The queue of a session whose last number is `last`, with room for `limit` items: the first one takes the number after it. Behind
    /// `MAX_NUMBER` nothing can be pushed, not even the closing mark. Refused with `NumbersExhausted` where the last number is above that
    /// limit, and with `Memory` where there is none for the items.
    pub fn behind(alloc: A, limit: usize, last: u64) -> Result<SessionQueue<A>, Fault>
        ensures unused { IfOk result (λ queue. queue ≡ behind limit last) }
        ensures number { IfOk result (λ _. last ≤ MAX_NUMBER) }
        ensures fault { IfErr result (λ fault. fault ≡ behind_fault last) }
    {
        if last > MAX_NUMBER {
            return Err(Fault::NumbersExhausted);
        }
        let queue = Queue::new(alloc, limit)?;
        Ok(SessionQueue {
            queue,
            before: last,
            numbering: Numbering {
                pushed: last,
                closed: false,
            },
        })
    }

    /// The number that the next item takes: 1 more than that of the last one, or than the one that the queue begins behind. Its clause
    /// has the law of every queue of a session, for a caller to rest on.
    pub fn next(&self) -> u64
        ensures number { result ≡ next self.now }
        ensures law { IsInTurn self.now }
    {
        self.numbering.next()
    }

    /// Whether the session is closed: its closing mark was pushed.
    pub fn is_closed(&self) -> bool
        ensures { result ≡ self.now.closed }
    {
        self.numbering.closed
    }

    /// Whether there is no room for another item.
    pub fn is_full(&self) -> bool
        ensures { result ≡ is_full self.now }
    {
        self.queue.is_full()
    }

    /// Whether a request with this number could be submitted. Refused as `submit` refuses it.
    pub fn check_request(&self, number: u64) -> Result<(), Fault>
        ensures { result_err result ≡ refusal_of_request self.now number }
    {
        self.numbering.check_number(number)?;
        if self.queue.is_full() {
            return Err(Fault::QueueFull);
        }
        Ok(())
    }

    /// Pushes an item that has the next number, which takes no memory. Refused, the first of these that holds: with `Closed` where the
    /// session is closed; with `NumbersExhausted` where only the number of the closing mark is left, or none; with `OutOfTurn` where
    /// the item has another number, or is a closing mark, which `close` pushes; and with `QueueFull`. The item is handed back then, and
    /// the next number stays.
    pub fn submit(&mut self, item: Item<A>) -> Result<(), Refused<Item<A>>>
        ensures ok { OnOk result (self.new ≡ with_item self.old (item_of item)) }
        ensures err { OnErr result (self.new ≡ self.old) }
        ensures handed_back { IfErr result (λ refused. refused.value ≡ item) }
        ensures fault { option_map (λ r. r.fault) (result_err result) ≡ refusal_of_submit self.old (item_of item) }
    {
        if let Err(fault) = self.numbering.check_turn(&item) {
            return Err(Refused { value: item, fault });
        }
        self.push(item)
    }

    /// Closes the session: its closing mark is pushed, which takes no memory, and the number of the mark is answered. Refused with
    /// `Closed` where the session is closed, with `NumbersExhausted` where no number is left for the mark, as in a queue that begins
    /// behind `MAX_NUMBER`, and then with `QueueFull`; nothing changes then.
    pub fn close(&mut self) -> Result<u64, Fault>
        ensures ok { OnOk result (self.new ≡ with_item self.old (Close (next self.old))) }
        ensures err { OnErr result (self.new ≡ self.old) }
        ensures number { IfOk result (λ number. number ≡ next self.old) }
        ensures fault { result_err result ≡ refusal_of_close self.old }
    {
        let number = self.next();
        self.numbering.check_close()?;
        self.push(Item::Close { number })?;
        Ok(number)
    }

    /// Takes the first item.
    pub fn take(&mut self) -> Option<Item<A>>
        ensures first { option_map item_of result ≡ slice_get self.old.items 0 }
        ensures rest { self.new ≡ record self.old { items = drop 1 self.old.items } }
    {
        self.queue.take()
    }
    // An item that may be pushed goes to the end, if there is room.
    fn push(&mut self, item: Item<A>) -> Result<(), Refused<Item<A>>>
        requires { IsInTurn (with_item self.old (item_of item)) }
        ensures ok { OnOk result (self.new ≡ with_item self.old (item_of item)) }
        ensures err { OnErr result (self.new ≡ self.old) }
        ensures handed_back { IfErr result (λ refused. refused.value ≡ item) }
        ensures full { option_map (λ r. r.fault) (result_err result) ≡ fault_if (is_full self.old) QueueFull }
    {
        let closes = item.is_mark();
        self.queue.push(item)?;
        self.numbering.push(closes);
        Ok(())
    }
}
