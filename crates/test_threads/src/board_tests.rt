//! Tests of the board.
use occ_board::{Board, Last, Publisher, Seat};
use occ_model::{Cause, Verdict};
use occ_types::limits::{MAX_COUNTER, MAX_NUMBER};
use std::alloc::Global;
use std::sync::Wait;
use std::test::Fail;
use std::thread;
use std::thread::Threads;

/// How often the publisher stores, and how often each seat loads.
const ROUNDS: u64 = 20_000;

// The words that the formats give as examples, each written and read.
#[test]
fn a_word_tells_the_last_transaction(rt: HostRuntime) -> Result<(), Fail> {
    let nothing = Last {
        number: 0,
        status: None,
        tn: 0,
    };
    assert!(rt; nothing.word() == 0 && Last::of_word(0) == nothing);
    let conflict = Last {
        number: 1,
        status: Some(Verdict::BackUp(Cause::Conflict)),
        tn: 0,
    };
    assert!(rt; conflict.word() == 6 && Last::of_word(6) == conflict);
    let committed = Last {
        number: 1,
        status: Some(Verdict::Commit),
        tn: 5,
    };
    assert!(rt; committed.word() == 21474836485 && Last::of_word(21474836485) == committed);
    let too_old = Last {
        number: 2,
        status: Some(Verdict::BackUp(Cause::TooOld)),
        tn: 5,
    };
    assert!(rt; too_old.word() == 21474836491 && Last::of_word(21474836491) == too_old);
    Ok(())
}

// A transaction is over, if the board has room for it.
fn settle(publisher: &mut Publisher<Global>, session: usize, status: Verdict) -> bool {
    if session == 0 || publisher.sessions() < session {
        return false;
    }
    let (number, tn) = (publisher.number(session), publisher.tnc());
    if number >= MAX_NUMBER || tn >= MAX_COUNTER {
        return false;
    }
    match status {
        Verdict::Commit => publisher.finished(session, number + 1, tn + 1),
        Verdict::BackUp(_) => publisher.settled(session, number + 1, status),
    }
    true
}

fn told(number: u64, status: Option<Verdict>, tn: u64) -> Last {
    Last { number, status, tn }
}

// Whether a seat sees a counter, and how the last transaction of its session ended.
fn sees(seat: &mut Seat<Global>, start: u64, last: Last) -> bool {
    seat.start() == start && seat.last() == last
}

// A commit and a back-up of one session, then a commit of another. Whether the first session's seat sees each.
fn sees_each(publisher: &mut Publisher<Global>, seat: &mut Seat<Global>) -> bool {
    let (commit, conflict) = (Verdict::Commit, Verdict::BackUp(Cause::Conflict));
    let nothing = sees(seat, 0, told(0, None, 0));
    let first = settle(publisher, 1, commit) && sees(seat, 1, told(1, Some(commit), 1));
    let both = settle(publisher, 1, conflict) && settle(publisher, 2, commit);
    let second = sees(seat, 2, told(2, Some(conflict), 1));
    nothing && first && both && second
}

#[test]
fn a_seat_sees_what_was_stored(rt: HostRuntime) -> Result<(), Fail> {
    let (mut publisher, mut seats) = Board::new(rt.alloc(), 2)?;
    let right = match seats.get_mut(0) {
        Some(seat) => sees_each(&mut publisher, seat),
        None => false,
    };
    assert!(rt; right);
    Ok(())
}

// A session goes on behind a number and the board at a counter, near their limits, if the board has room for them.
fn go_on(publisher: &mut Publisher<Global>, session: usize, number: u64, counter: u64) -> bool {
    if session == 0 || publisher.sessions() < session {
        return false;
    }
    let rises = publisher.number(session) <= number && publisher.tnc() <= counter;
    if !rises || number > MAX_NUMBER || counter > MAX_COUNTER {
        return false;
    }
    publisher.counter(counter);
    publisher.resumed(session, number);
    true
}

// Whether a seat sees where its session and the board go on, and then the last commits.
fn sees_where_it_goes_on(publisher: &mut Publisher<Global>, seat: &mut Seat<Global>) -> bool {
    let commit = Verdict::Commit;
    let begun = go_on(publisher, 1, MAX_NUMBER - 1, MAX_COUNTER - 1)
        && sees(seat, MAX_COUNTER - 1, told(MAX_NUMBER - 1, None, 0));
    let last = told(MAX_NUMBER, Some(commit), MAX_COUNTER);
    let over = settle(publisher, 1, commit) && sees(seat, MAX_COUNTER, last);
    begun && over && !settle(publisher, 2, commit)
}

#[test]
fn a_seat_sees_where_its_session_goes_on(rt: HostRuntime) -> Result<(), Fail> {
    let (mut publisher, mut seats) = Board::new(rt.alloc(), 2)?;
    let right = match seats.get_mut(0) {
        Some(seat) => sees_where_it_goes_on(&mut publisher, seat),
        None => false,
    };
    assert!(rt; right);
    Ok(())
}

// Each third transaction is backed up. Whether there was room for all.
fn publish(publisher: &mut Publisher<Global>, rounds: u64) -> bool {
    for round in 0..rounds {
        let status = if round % 3 == 2 {
            Verdict::BackUp(Cause::TooOld)
        } else {
            Verdict::Commit
        };
        if !settle(publisher, 1 + (round % 3) as usize, status) {
            return false;
        }
    }
    true
}

// Whether what a seat sees never fell.
fn watch(seat: &mut Seat<Global>, rounds: u64) -> bool {
    let (mut start, mut last) = (
        0,
        Last {
            number: 0,
            status: None,
            tn: 0,
        },
    );
    for _ in 0..rounds {
        let later = seat.last();
        let begun = seat.start();
        if begun < start || begun < later.tn || later.number < last.number || later.tn < last.tn {
            return false;
        }
        (start, last) = (begun, later);
    }
    true
}

// One thread stores and three load. Whether there was room, no word fell, and each sees at last what was stored last.
fn store_and_watch<R: Threads + Wait + Sync>(
    rt: &R,
    publisher: &mut Publisher<Global>,
    seats: &mut [Seat<Global>],
) -> bool {
    let [first, second, third] = seats else {
        return false;
    };
    let ((stored, one), (two, three)) = thread::join(
        rt,
        || thread::join(rt, || publish(publisher, ROUNDS), || watch(first, ROUNDS)),
        || thread::join(rt, || watch(second, ROUNDS), || watch(third, ROUNDS)),
    );
    let last = publisher.tnc();
    let seen = first.start() == last && second.start() == last && third.start() == last;
    stored && one && two && three && seen
}

#[test]
fn no_word_falls(rt: HostRuntime) -> Result<(), Fail> {
    let (mut publisher, mut seats) = Board::new(rt.alloc(), 3)?;
    let right = store_and_watch(&rt, &mut publisher, &mut seats);
    assert!(rt; right);
    Ok(())
}
