//! Random books, each of which is gone on from twice.
use crate::cuts::{left, loaded, resumed};
use crate::dice::Dice;
use crate::lives::{Life, Phase, Session};
use crate::past::Stands;
use crate::turns::turn;
use occ_core::Core;
use occ_types::{Fault, Refused};
use std::alloc::Global;

/// More turns than a session needs to end what it has under way.
const MOST_TURNS: usize = 100;

/// What came of some books.
#[derive(Clone, Copy, Default)]
pub(crate) struct Sums {
    pub(crate) right: u64,
    pub(crate) wrong: u64,
    pub(crate) committed: u64,
    pub(crate) backed_up: u64,
    /// How many stores were no base yet, since a transaction was active.
    pub(crate) busy: u64,
}

/// A store and its sessions.
#[derive(Drop)]
pub(crate) struct Book {
    pub(crate) life: Life,
    pub(crate) sessions: Vec<Session>,
}

/// Nothing where all came as it was due, and else a fault with which nothing is refused here.
pub(crate) fn due(right: bool) -> Result<(), Fault> {
    if right { Ok(()) } else { Err(Fault::QueueFull) }
}

/// Makes the random book of a seed, and adds what came of it.
pub(crate) fn make(alloc: Global, seed: u64, sums: &mut Sums) {
    match live(alloc, seed, sums) {
        Ok(()) => sums.right = sums.right.saturating_add(1),
        Err(_) => sums.wrong = sums.wrong.saturating_add(1),
    }
}

fn live(alloc: Global, seed: u64, sums: &mut Sums) -> Result<(), Fault> {
    let first = resumed(loaded(alloc, Dice::of(seed))?)?;
    let second = go_on(first, sums)?;
    let third = go_on(second, sums)?;
    let _last = go_on(third, sums)?;
    Ok(())
}

// A store that goes on from what a random schedule made of this one.
fn go_on(mut book: Book, sums: &mut Sums) -> Result<Book, Fault> {
    play(&mut book)?;
    let mut book = refused_while_busy(book, sums)?;
    let whole = book.life.dice.below(3) > 0;
    if whole {
        settle(&mut book)?;
    }
    add(&book, sums);
    resumed(left(book, whole)?)
}

// Some turns, and whether all is right then.
fn play(book: &mut Book) -> Result<(), Fault> {
    for _ in 0..book.life.dice.below(120) {
        due(step(book)?)?;
    }
    due(book.life.is_right()?)
}

fn step(book: &mut Book) -> Result<bool, Fault> {
    let count = book.sessions.len();
    let at = book.life.dice.below(count.saturating_mul(8));
    if at < count {
        return Ok(checkpoint(book));
    }
    turn_at(book, at % count.max(1))
}

fn turn_at(book: &mut Book, at: usize) -> Result<bool, Fault> {
    match book.sessions.as_mut_slice().get_mut(at) {
        Some(one) => turn(&mut book.life, one),
        None => Ok(false),
    }
}

// A checkpoint, which is refused where a row is open. Whether it folds what is due.
fn checkpoint(book: &mut Book) -> bool {
    let open = book
        .sessions
        .iter()
        .any(|one| matches!(one.phase, Phase::Open { .. }));
    match book.life.core.checkpoint() {
        Ok(count) => !open && book.life.plain.fold() == count,
        Err(fault) => open && fault == Fault::StoreBusy,
    }
}

// A store that has a transaction active is no base, and comes back as it was.
fn refused_while_busy(book: Book, sums: &mut Sums) -> Result<Book, Fault> {
    if !book.life.plain.is_busy() {
        return Ok(book);
    }
    sums.busy = sums.busy.saturating_add(1);
    let Book { life, sessions } = book;
    let Life {
        alloc,
        core,
        plain,
        dice,
    } = life;
    let core = Box::new(alloc, handed_back(core)?)?;
    let life = Life {
        alloc,
        core,
        plain,
        dice,
    };
    due(life.is_right()?)?;
    Ok(Book { life, sessions })
}

fn handed_back(core: Box<Core<Global>>) -> Result<Core<Global>, Fault> {
    match Box::into_inner(core).into_base() {
        Err(
            Refused {
                value,
                fault: Fault::StoreBusy,
            },
        ) => Ok(value),
        _ => Err(Fault::QueueFull),
    }
}

// Ends what is under way. Whether all is right then, and serial replay explains it.
fn settle(book: &mut Book) -> Result<(), Fault> {
    for at in 0..book.sessions.len() {
        settle_at(book, at)?;
    }
    due(book.life.is_right()? && book.life.is_replayed()?)
}

fn settle_at(book: &mut Book, at: usize) -> Result<(), Fault> {
    for _ in 0..MOST_TURNS {
        if is_under_way(&book.sessions, at) {
            due(turn_at(book, at)?)?;
        }
    }
    due(!is_under_way(&book.sessions, at))
}

fn is_under_way(sessions: &[Session], at: usize) -> bool {
    match sessions.get(at) {
        Some(one) => matches!(
            one.phase,
            Phase::Open { .. } | Phase::Writing { .. } | Phase::Backing
        ),
        None => false,
    }
}

// Adds what became of the transactions.
fn add(book: &Book, sums: &mut Sums) {
    for entered in &book.life.plain.past {
        match entered.stands {
            Stands::Done(_) => sums.committed = sums.committed.saturating_add(1),
            Stands::Back => sums.backed_up = sums.backed_up.saturating_add(1),
            Stands::Active => {}
        }
    }
}
