//! A lane between two threads.
use occ_queue::{Item, Receiver, Sender, lane, lane_behind};
use occ_sets::{RequestWrites, WriteSet};
use occ_types::limits::MAX_NUMBER;
use occ_types::{Cell, Fault, Key, Object, Refused, Row};
use std::alloc::Global;
use std::sync::Wait;
use std::test::Fail;
use std::thread;
use std::thread::Threads;

const REQUESTS: u64 = 1_000;

/// How many items the lane holds, which is much less than are pushed.
const ROOM: usize = 4;

// The request with this number: it deletes the key of its number, and puts a row under a key beyond all of these.
fn request(alloc: Global, number: u64) -> Result<Item<Global>, Fault> {
    let mut writes = WriteSet::new(alloc);
    writes.set(0, Key::Num(number), None)?;
    let row = Row::from_cell(Cell::Int(7));
    writes.set(1, Key::Num(number.saturating_add(REQUESTS)), Some(row))?;
    Ok(Item::Request {
        number,
        start: number.saturating_mul(3),
        writes: RequestWrites::from_set(writes)?,
    })
}

fn object(table: usize, key: u64) -> Object<Global> {
    Object {
        table,
        key: Key::Num(key),
    }
}

// Whether these are the writes of the request with this number, in their order.
fn are_writes_of(writes: &WriteSet<Global>, number: u64) -> bool {
    let row = Row::from_cell(Cell::Int(7));
    let first = object(0, number);
    let second = object(1, number.saturating_add(REQUESTS));
    writes.len() == 2
        && writes.write_at(0) == Some((&first, None))
        && writes.write_at(1) == Some((&second, Some(&row)))
}

// Whether it is the request with this number, as it was handed in.
fn is_request(item: &Item<Global>, asked: u64) -> bool {
    match item {
        Item::Request {
            number,
            start,
            writes,
        } => {
            *number == asked
                && *start == asked.saturating_mul(3)
                && are_writes_of(writes.as_set(), asked)
        }
        Item::Alone { .. } | Item::Close { .. } => false,
    }
}

// Submits an item, again and again while there is no room.
fn submit(
    rt: &impl Wait,
    sender: &mut Sender<Global>,
    mut item: Item<Global>,
) -> Result<(), Fault> {
    for _ in rt.forever() {
        match sender.submit(rt, item) {
            Ok(()) => return Ok(()),
            Err(refused) => {
                if refused.fault != Fault::QueueFull {
                    return Err(refused.fault);
                }
                item = refused.value;
                thread::yield_now();
            }
        }
    }
    unreachable!()
}

// Closes the lane, as soon as there is room for the mark.
fn close(rt: &impl Wait, sender: &mut Sender<Global>) -> Result<u64, Fault> {
    for _ in rt.forever() {
        match sender.close(rt) {
            Err(Fault::QueueFull) => thread::yield_now(),
            closed => return closed,
        }
    }
    unreachable!()
}

fn submit_all(rt: &impl Wait, alloc: Global, sender: &mut Sender<Global>) -> Result<(), Fault> {
    for place in 0..REQUESTS {
        let request = request(alloc, place + 1)?;
        submit(rt, sender, request)?;
    }
    Ok(())
}

// Submits all requests and closes, also after a fault. The answer is the number of the mark.
fn send(rt: &impl Wait, alloc: Global, sender: &mut Sender<Global>) -> Result<u64, Fault> {
    let sent = submit_all(rt, alloc, sender);
    let mark = close(rt, sender);
    sent?;
    mark
}

// Whether nothing comes behind the mark.
fn is_over(rt: &impl Wait, receiver: &mut Receiver<Global>) -> bool {
    receiver.take(rt).is_none() && receiver.is_closed()
}

// Takes until the mark. The answer is its number, or none where a request came that was not the next one as it was handed in.
fn receive(rt: &impl Wait, receiver: &mut Receiver<Global>) -> Option<u64> {
    let mut next = 1u64;
    let mut right = true;
    for _ in rt.forever() {
        match receiver.take(rt) {
            None => thread::yield_now(),
            Some(Item::Close { number }) => {
                right = right && is_over(rt, receiver);
                return if right { Some(number) } else { None };
            }
            Some(item) => {
                right = right && is_request(&item, next);
                next = next.saturating_add(1);
            }
        }
    }
    unreachable!()
}

fn send_and_receive<R: Threads + Wait + Sync>(
    rt: &R,
    alloc: Global,
    sender: &mut Sender<Global>,
    receiver: &mut Receiver<Global>,
) -> (Result<u64, Fault>, Option<u64>) {
    thread::join(rt, || send(rt, alloc, sender), || receive(rt, receiver))
}

#[test]
fn what_one_thread_submits_another_takes(rt: HostRuntime) -> Result<(), Fail> {
    let alloc = rt.alloc();
    let (mut sender, mut receiver) = lane(alloc, ROOM)?;
    let came = send_and_receive(&rt, alloc, &mut sender, &mut receiver);
    assert!(rt; came == (Ok(REQUESTS + 1), Some(REQUESTS + 1)));
    Ok(())
}

// Whether a request of this number is refused with this fault.
fn is_refused(
    rt: &impl Wait,
    sender: &mut Sender<Global>,
    item: Item<Global>,
    with: Fault,
) -> bool {
    match sender.submit(rt, item) {
        Ok(()) => false,
        Err(Refused { fault, .. }) => fault == with,
    }
}

// Whether what comes next is the request with this number.
fn comes(rt: &impl Wait, receiver: &mut Receiver<Global>, asked: u64) -> bool {
    match receiver.take(rt) {
        Some(item) => is_request(&item, asked),
        None => false,
    }
}

// Whether what comes next is the mark with this number.
fn comes_closed(rt: &impl Wait, receiver: &mut Receiver<Global>, mark: u64) -> bool {
    match receiver.take(rt) {
        Some(item) => item.is_mark() && item.number() == mark,
        None => false,
    }
}

// Whether a lane that begins two numbers before the last one carries a request and the mark, and nothing else.
fn carries_two(
    rt: &impl Wait,
    alloc: Global,
    sender: &mut Sender<Global>,
    receiver: &mut Receiver<Global>,
) -> Result<bool, Fault> {
    let early = is_refused(rt, sender, request(alloc, 1)?, Fault::OutOfTurn);
    sender.submit(rt, request(alloc, MAX_NUMBER - 1)?)?;
    let item = request(alloc, MAX_NUMBER)?;
    let last = is_refused(rt, sender, item, Fault::NumbersExhausted);
    let mark = sender.close(rt)?;
    let came = comes(rt, receiver, MAX_NUMBER - 1);
    let closed = comes_closed(rt, receiver, mark);
    Ok(early && last && mark == MAX_NUMBER && came && closed && receiver.taken() == 2)
}

fn goes_on(rt: &impl Wait, alloc: Global) -> Result<bool, Fault> {
    let (mut sender, mut receiver) = lane_behind(alloc, ROOM, MAX_NUMBER - 2)?;
    carries_two(rt, alloc, &mut sender, &mut receiver)
}

// Whether a lane behind the last number of all carries nothing.
fn carries_nothing(
    rt: &impl Wait,
    alloc: Global,
    sender: &mut Sender<Global>,
    receiver: &mut Receiver<Global>,
) -> Result<bool, Fault> {
    let item = request(alloc, sender.next())?;
    let refused = is_refused(rt, sender, item, Fault::NumbersExhausted);
    let mark = sender.close(rt) == Err(Fault::NumbersExhausted);
    Ok(refused && mark && !sender.is_closed() && receiver.take(rt).is_none())
}

// Whether that is so, and none begins behind a number above it.
fn is_used_up(rt: &impl Wait, alloc: Global) -> Result<bool, Fault> {
    let (mut sender, mut receiver) = lane_behind(alloc, ROOM, MAX_NUMBER)?;
    let next = sender.next();
    let above = lane_behind(alloc, ROOM, next).err() == Some(Fault::NumbersExhausted);
    Ok(above && carries_nothing(rt, alloc, &mut sender, &mut receiver)?)
}

#[test]
fn lanes_begin_behind_a_number(rt: HostRuntime) -> Result<(), Fail> {
    assert!(rt; goes_on(&rt, rt.alloc())?);
    assert!(rt; is_used_up(&rt, rt.alloc())?);
    Ok(())
}
