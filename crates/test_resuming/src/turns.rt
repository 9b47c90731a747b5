//! The turns of a session: a call of the core each, and whether it came out as it was to.
use crate::alone::run_alone;
use crate::lives::{Life, Phase, Session};
use crate::objects::{KEYS, PLACES, TABLES, key_of, table_of};
use crate::past::{Asked, Stands, Work};
use crate::rows::{ends, is_row};
use occ_case::Verdict;
use occ_core::{Outcome, SingleWrite};
use occ_queue::Item;
use occ_sets::{RequestWrites, WriteSet};
use occ_types::{Fault, Row};
use std::alloc::Global;

/// The next turn of a session. Whether what came was due.
pub(crate) fn turn(life: &mut Life, one: &mut Session) -> Result<bool, Fault> {
    match one.phase {
        Phase::Idle => idle(life, one),
        Phase::Reading => reading(life, one),
        Phase::Open { commits } => decide(life, one, commits),
        Phase::Writing { done } => write_one(life, one, done),
        Phase::Backing => back_up(life, one),
        Phase::Closed => Ok(true),
    }
}

fn idle(life: &mut Life, one: &mut Session) -> Result<bool, Fault> {
    match life.dice.below(24) {
        0 => close(life, one),
        1..=4 => run_alone(life, one),
        _ => Ok(begin(life, one)),
    }
}

fn reading(life: &mut Life, one: &mut Session) -> Result<bool, Fault> {
    match life.dice.below(16) {
        0..=4 => read(life, one),
        5..=6 => scan(life, one),
        7..=10 => write(life, one),
        11..=13 => enter(life, one),
        14 => serial_end(life, one),
        _ => abandon(life, one),
    }
}

// A transaction begins, a few numbers back now and then.
fn begin(life: &mut Life, one: &mut Session) -> bool {
    let back = life.dice.below(6).saturating_sub(3) as u64;
    one.work = Work::new(life.alloc, life.plain.counter.saturating_sub(back));
    one.phase = Phase::Reading;
    true
}

// The session ends with its mark.
fn close(life: &mut Life, one: &mut Session) -> Result<bool, Fault> {
    let mark = Item::Close { number: one.next() };
    one.phase = Phase::Closed;
    Ok(matches!(life.core.enter(one.id, mark), Ok(Outcome::MarkedClosed)))
}

// Some places of one table.
pub(crate) fn some_places(life: &mut Life) -> (usize, usize) {
    let first = life.dice.below(TABLES).saturating_mul(KEYS);
    let skipped = life.dice.below(KEYS);
    let count = life.dice.below(KEYS.saturating_sub(skipped));
    let lower = first.saturating_add(skipped);
    (lower, lower.saturating_add(count).saturating_add(1))
}

// A place.
pub(crate) fn some_place(life: &mut Life) -> usize {
    life.dice.below(PLACES)
}

// Notes what was asked.
fn ask(life: &Life, one: &mut Session, places: (usize, usize)) -> Result<(), Fault> {
    let seen = life.plain.rows;
    Ok(one.work.asked.push(Asked { places, seen })?)
}

fn read(life: &mut Life, one: &mut Session) -> Result<bool, Fault> {
    let place = some_place(life);
    let key = key_of(life.alloc, place)?;
    let (number, start) = (one.next(), one.work.start);
    let found = life
        .core
        .read(one.id, number, start, table_of(place), &key)?;
    ask(life, one, (place, place.saturating_add(1)))?;
    Ok(is_row(found.as_ref(), life.plain.rows.at(place)))
}

fn scan(life: &mut Life, one: &mut Session) -> Result<bool, Fault> {
    let places = some_places(life);
    let (lower, upper) = ends(life.alloc, places)?;
    let (number, start) = (one.next(), one.work.start);
    let found = life.core.scan(
        one.id,
        number,
        start,
        table_of(places.0),
        lower.as_ref(),
        upper.as_ref(),
    )?;
    ask(life, one, places)?;
    let rows = life.plain.rows;
    rows.are_answered(life.alloc, places, found.as_slice())
}

// A row or its deletion goes into the private copy.
fn write(life: &mut Life, one: &mut Session) -> Result<bool, Fault> {
    let place = some_place(life);
    let number = life.dice.number(100);
    let row = if number < 30 { None } else { Some(number) };
    one.work.write(place, row)?;
    Ok(true)
}

// What is read is forgotten.
fn abandon(life: &mut Life, one: &mut Session) -> Result<bool, Fault> {
    one.phase = Phase::Idle;
    let forgotten = life.core.forget(one.id, one.next())?;
    Ok(forgotten != one.work.asked.is_empty())
}

// The transaction that a session has open, as it hands it in.
fn request(alloc: Global, one: &Session) -> Result<Item<Global>, Fault> {
    let mut writes = WriteSet::new(alloc);
    for write in &one.work.writes {
        set(alloc, &mut writes, write.0, write.1)?;
    }
    Ok(Item::Request {
        number: one.next(),
        start: one.work.start,
        writes: RequestWrites::from_set(writes)?,
    })
}

fn set(
    alloc: Global,
    writes: &mut WriteSet<Global>,
    place: usize,
    number: Option<i64>,
) -> Result<(), Fault> {
    let row = match number {
        Some(number) => Some(Row::from(number)),
        None => None,
    };
    writes.set(table_of(place), key_of(alloc, place)?, row)?;
    Ok(())
}

fn enter(life: &mut Life, one: &mut Session) -> Result<bool, Fault> {
    let item = request(life.alloc, one)?;
    let Ok(Outcome::Entered { place }) = life.core.enter(one.id, item) else {
        return Ok(false);
    };
    let commits = life.plain.commits(&one.work);
    life.plain.note(life.alloc, one, Stands::Active)?;
    one.phase = Phase::Open { commits };
    Ok(place == life.plain.place.saturating_add(one.entered))
}

fn serial_end(life: &mut Life, one: &mut Session) -> Result<bool, Fault> {
    let item = request(life.alloc, one)?;
    let commits = life.plain.commits(&one.work);
    let busy = life.plain.is_busy();
    match life.core.serial_end(one.id, item) {
        Ok(Outcome::Committed { tn }) => Ok(committed(life, one, tn)? && commits && !busy),
        Ok(Outcome::BackedUp(_)) => {
            life.plain.note(life.alloc, one, Stands::Back)?;
            Ok(!commits && !busy)
        }
        Ok(_) => Ok(false),
        Err(refused) => Ok(busy && refused.fault == Fault::StoreBusy),
    }
}

/// Notes a transaction as committed in one step. Whether its number is the one that was due.
pub(crate) fn committed(life: &mut Life, one: &mut Session, tn: u64) -> Result<bool, Fault> {
    for write in &one.work.writes {
        life.plain.rows.set(write.0, write.1);
    }
    life.plain.note(life.alloc, one, Stands::Done(tn))?;
    Ok(life.plain.count(tn))
}

fn decide(life: &mut Life, one: &mut Session, commits: bool) -> Result<bool, Fault> {
    match life.core.decide(one.id)? {
        Verdict::Commit => {
            one.phase = Phase::Writing { done: 0 };
            Ok(commits)
        }
        Verdict::BackUp(_) => {
            life.plain.stand(one.entered, Stands::Back);
            one.phase = Phase::Backing;
            Ok(!commits)
        }
    }
}

fn write_one(life: &mut Life, one: &mut Session, done: usize) -> Result<bool, Fault> {
    let due = life.plain.write(one.entered, done);
    match (life.core.write_one(one.id)?, due) {
        (SingleWrite::Wrote { row, write }, Some((place, number))) => {
            life.plain.rows.set(place, number);
            one.phase = Phase::Writing {
                done: done.saturating_add(1),
            };
            Ok(row == life.plain.place.saturating_add(one.entered) && write == done)
        }
        (SingleWrite::NoMore, None) => finish(life, one),
        _ => Ok(false),
    }
}

fn finish(life: &mut Life, one: &mut Session) -> Result<bool, Fault> {
    let tn = life.core.finish(one.id)?;
    life.plain.stand(one.entered, Stands::Done(tn));
    one.phase = Phase::Idle;
    Ok(life.plain.count(tn))
}

fn back_up(life: &mut Life, one: &mut Session) -> Result<bool, Fault> {
    one.phase = Phase::Idle;
    Ok(life.core.back_up(one.id)? == one.last)
}
