//! What a lane has left, once its two ends are together again.
ghost use Rattle.std.specs.Prelude.{◌≡◌, ◌+◌, ◌≤◌, ◌++◌, [], length, vec_len, vec_capacity};
ghost use Rattle.occ_queue.specs.Items.{items_of};

use crate::items::Item;
use crate::receivers::Receiver;
use crate::rules::{Rest, Together};
use crate::senders::Sender;
use std::alloc::Allocator;
use std::sync::Wait;

/// Takes out all that a lane has left, the first one first: what was pushed is what was taken, followed by it. It goes into an empty
/// list that has room for as many items as were pushed beyond those that were taken, so that it takes no memory. It waits for nobody,
/// since both ends are here, but the library's queue asks for the handle.
pub fn drain<A: Allocator, R: Wait>(
    rt: &R,
    sender: Sender<A>,
    receiver: Receiver<A>,
    room: Vec<Item<A>, A>,
) -> Vec<Item<A>, A>
    requires lane { sender.lane ≡ receiver.lane }
    requires empty { (room.items ≡ []) × (vec_len room ≡ 0) }
    requires room { length sender.pushed ≤ length receiver.taken + vec_capacity room }
    ensures { sender.pushed ≡ receiver.taken ++ items_of result.items }
{
    let Sender { line, mut pass, .. } = sender;
    let Receiver { pass: taking, .. } = receiver;
    line.absorb::<Together>(&mut pass, taking);
    let mut left = room;
    while let Some(item) = line.pop_as::<Rest, R>(rt, &mut pass) {
        left.push_reserved(item);
    }
    left
}
