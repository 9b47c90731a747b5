//! The two ends that threads share of a session's queue.
ghost use Rattle.std.specs.Prelude.{◌≡◌, ◌<◌, ◌≤◌, [], true, IfOk, IfErr, IsOkUnless};
ghost use Rattle.std.specs.Arc.{arc_value};
ghost use Rattle.crossbeam_queue.specs.Passes.{view, IsPassOf, ruled_capacity};
ghost use Rattle.occ_types.specs.declared.fault.Fault.TheVariants.{Memory};
ghost use Rattle.occ_types.specs.declared.limits.TheConstants.{MAX_NUMBER};
ghost use Rattle.occ_queue.specs.Lanes.{capacity};
ghost use Rattle.occ_queue.specs.Numbering.{behind_fault};
ghost use Rattle.occ_queue.specs.Rule.{knowledge};

use crate::receivers::Receiver;
use crate::rules::{Beginning, Ends, Line, Pass};
use crate::senders::Sender;
use occ_types::Fault;
use occ_types::limits::MAX_NUMBER;
use std::alloc::Allocator;
use std::marker::Brand;
use std::sync::Arc;

/// The two ends of a lane into which nothing was pushed, with room for `limit` items, which is taken here: the first item takes the
/// number 1. Refused with `Memory` where there is none for them.
pub fn lane<A: Allocator + Copy>(alloc: A, limit: usize) -> Result<(Sender<A>, Receiver<A>), Fault>
    requires { 0 < limit }
    ensures one { IfOk result (λ ends. ends.0 ≡ ends.1) }
    ensures unused { IfOk result (λ ends. (ends.0.pushed ≡ []) × (ends.0.taken ≡ []) × (capacity ends.0 ≡ limit)) }
    ensures begins { IfOk result (λ ends. ends.0.before ≡ 0) }
    ensures memory { IsOkUnless result Memory }
{
    lane_behind(alloc, limit, 0)
}

/// The two ends of a lane as `lane` makes it, for a session whose last number is `last`: the first item takes the one after it. Behind
/// `MAX_NUMBER` nothing can be pushed, not even the closing mark. Refused with `NumbersExhausted` where the last number is above that
/// limit, and with `Memory` where there is none for the ends.
pub fn lane_behind<A: Allocator + Copy>(
    alloc: A,
    limit: usize,
    last: u64,
) -> Result<(Sender<A>, Receiver<A>), Fault>
    requires { 0 < limit }
    ensures one { IfOk result (λ ends. ends.0 ≡ ends.1) }
    ensures unused { IfOk result (λ ends. (ends.0.pushed ≡ []) × (ends.0.taken ≡ []) × (capacity ends.0 ≡ limit)) }
    ensures begins { IfOk result (λ ends. (ends.0.before ≡ last) × (last ≤ MAX_NUMBER)) }
    ensures fault { IfErr result (λ fault. fault ≡ behind_fault last) }
{
    if last > MAX_NUMBER {
        return Err(Fault::NumbersExhausted);
    }
    let (line, first) = Line::ruled(alloc, limit)?;
    let line = Arc::new(alloc, line)?;
    let same = Arc::try_clone(&line)?;
    Ok(ends::<A, Brand>(line, same, first, last))
}

// The ends of a lane that begins behind `last`: its first pass becomes the sender's, and another the receiver's.
fn ends<A: Allocator, B: Beginning>(
    line: Arc<Line<A>, A>,
    same: Arc<Line<A>, A>,
    first: Pass<A>,
    last: u64,
) -> (Sender<A>, Receiver<A>)
    requires same { arc_value same ≡ arc_value line }
    requires queue { IsPassOf (arc_value line) first }
    requires capacity { ruled_capacity (arc_value line) ≡ first.table_id.slots }
    requires first { view first ≡ knowledge true true 0 [] [] }
    requires number { (last ≡ B.before) × (last ≤ MAX_NUMBER) }
    ensures one { result.0 ≡ result.1 }
    ensures unused { result.0 ≡ record { lane = first.table_id; before = last; pushed = []; taken = [] } }
{
    let mut sending = first;
    let taking = line.another::<Ends<B>>(&mut sending);
    (
        Sender::new(same, sending, last),
        Receiver::new(line, taking),
    )
}
