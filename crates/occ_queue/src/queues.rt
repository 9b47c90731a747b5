//! Queues of items that wait to be entered.
ghost use Rattle.std.specs.Prelude.{◌≡◌, ◌<◌, ◌≤◌, ◌++◌, [], ◌∷◌, length, drop, nat_le, slice_get, option_map, IfOk, IfErr, OnOk, OnErr, IsOkUnless, IsSome, MatchResult};
ghost use Rattle.occ_types.specs.declared.fault.Fault.TheVariants.{Memory, QueueFull};
ghost use Rattle.occ_queue.specs.Items.{item_of};

use crate::items::Item;
use occ_types::{Fault, Refused};
use std::alloc::Allocator;
use std::collections::VecDeque;
use std::marker::Model;

/// The items of one session that wait to be entered, the first one first, and how many there may be. Its room is taken when it is made.
#[derive(Drop)]
pub struct Queue<A: Allocator> {
    items: VecDeque<Item<A>, A>,
    limit: usize,
}

impl<A: Allocator> Model for Queue<A> {
    ghost use Rattle.std.specs.Prelude.{◌≤◌, length};
    ghost use Rattle.std.specs.VecDeque.{deque_capacity};
    ghost use Rattle.occ_queue.specs.Waiting.{Waiting};

    ghost Value = { Waiting };

    ghost use Rattle.occ_queue.specs.Items.{items_of};

    ghost view = { λ q. record { items = items_of q.items.items; limit = q.limit } };

    ghost invariant = { λ q. (q.limit ≤ deque_capacity q.items) × (length q.items.items ≤ q.limit) };
}

impl<A: Allocator> Queue<A> {
    /// An empty queue with room for `limit` items. Refused with `Memory` where there is none for them.
    pub fn new(alloc: A, limit: usize) -> Result<Queue<A>, Fault>
        ensures empty { IfOk result (λ queue. queue ≡ record { items = []; limit = limit }) }
        ensures memory { IsOkUnless result Memory }
    {
        let items = VecDeque::with_capacity(alloc, limit)?;
        Ok(Queue { items, limit })
    }

    /// Whether there is no room for another item.
    pub fn is_full(&self) -> bool
        ensures { result ≡ nat_le self.now.limit (length self.now.items) }
    {
        self.limit <= self.items.len()
    }

    /// An item goes to the end, which takes no memory. It is refused with `QueueFull`, and handed back, exactly where the queue is full.
    pub fn push(&mut self, item: Item<A>) -> Result<(), Refused<Item<A>>>
        ensures ok { OnOk result (self.new ≡ record self.old { items = self.old.items ++ item_of item ∷ [] }) }
        ensures err { OnErr result (self.new ≡ self.old) }
        ensures handed_back { IfErr result (λ refused. refused.value ≡ item) }
        ensures fault { MatchResult result
            (λ _. length self.old.items < self.old.limit)
            (λ refused. (self.old.limit ≤ length self.old.items) × (refused.fault ≡ QueueFull)) }
    {
        if self.is_full() {
            return Err(Refused {
                value: item,
                fault: Fault::QueueFull,
            });
        }
        self.items.push_back_reserved(item);
        Ok(())
    }

    /// Takes the first item.
    pub fn take(&mut self) -> Option<Item<A>>
        ensures first { option_map item_of result ≡ slice_get self.old.items 0 }
        ensures rest { self.new ≡ record self.old { items = drop 1 self.old.items } }
        ensures room { IsSome result → length self.new.items < self.new.limit }
    {
        self.items.pop_front()
    }

    /// An item goes before all others, where it was taken from. It takes no memory.
    pub fn put_back(&mut self, item: Item<A>)
        requires { length self.old.items < self.old.limit }
        ensures { self.new ≡ record self.old { items = item_of item ∷ self.old.items } }
    {
        self.items.push_front_reserved(item);
    }
}
