//! What a store leaves, and the store that goes on from it.
use crate::books::{Book, due};
use crate::dice::Dice;
use crate::lives::{Life, Plain, Session};
use crate::objects::{PLACES, TABLES, key_of, schema, table_of};
use crate::past::replayed;
use crate::rows::Rows;
use occ_book::Base;
use occ_core::Core;
use occ_types::{Fault, Object, Refused, Row};
use std::alloc::Global;

/// A base, and what it is to be: its rows, the last number of each session, and the place of the next row. The counter isn't in it.
#[derive(Drop)]
pub(crate) struct Cut {
    alloc: Global,
    dice: Dice,
    base: Box<Base<Global>>,
    rows: Rows,
    numbers: Vec<u64>,
    place: usize,
    counter: u64,
}

/// The base of some random rows, for up to four sessions.
pub(crate) fn loaded(alloc: Global, mut dice: Dice) -> Result<Cut, Fault> {
    let mut rows = Rows::none();
    for _ in 0..dice.below(PLACES) {
        rows.set(dice.below(PLACES), Some(dice.number(100)));
    }
    let mut numbers = Vec::new(alloc);
    for _ in 0..dice.below(4).saturating_add(1) {
        numbers.push(0u64)?;
    }
    let base = Base::from_rows(alloc, TABLES, numbers.len(), listed(alloc, &rows)?)?;
    Ok(Cut {
        alloc,
        dice,
        base: Box::new(alloc, base)?,
        rows,
        numbers,
        place: 1,
        counter: 0,
    })
}

// Rows as a list, the last place first.
fn listed(alloc: Global, rows: &Rows) -> Result<Vec<(Object<Global>, Row<Global>)>, Fault> {
    let mut list = Vec::new(alloc);
    for place in 0..PLACES {
        let place = PLACES.saturating_sub(place).saturating_sub(1);
        if let Some(number) = rows.at(place) {
            let (table, key) = (table_of(place), key_of(alloc, place)?);
            list.push((Object { table, key }, Row::from(number)))?;
        }
    }
    Ok(list)
}

/// What a store leaves: the base of all that it did, where nothing is under way, or the base that was folded until now.
pub(crate) fn left(book: Book, whole: bool) -> Result<Cut, Fault> {
    let Book { life, sessions } = book;
    let Life {
        alloc,
        core,
        plain,
        dice,
    } = life;
    let count = if whole {
        plain.past.len()
    } else {
        plain.folded
    };
    let Some(rows) = replayed(&plain.past, count, &plain.first) else {
        return Err(Fault::QueueFull);
    };
    let base = base_of(core, whole)?;
    Ok(Cut {
        alloc,
        dice,
        base: Box::new(alloc, base)?,
        rows,
        numbers: numbers_of(alloc, &sessions, &plain, count)?,
        place: plain.place.saturating_add(count),
        counter: plain.counter,
    })
}

fn base_of(core: Box<Core<Global>>, whole: bool) -> Result<Base<Global>, Fault> {
    if whole {
        return Ok(Box::into_inner(core).into_base()?);
    }
    Ok(core.base().clone()?)
}

// The last number of each session once so many transactions are folded; 0 where it has none.
fn numbers_of(
    alloc: Global,
    sessions: &[Session],
    plain: &Plain,
    count: usize,
) -> Result<Vec<u64>, Fault> {
    let mut numbers = Vec::new(alloc);
    for one in sessions {
        numbers.push(plain.last(one.id, count).unwrap_or(one.before))?;
    }
    Ok(numbers)
}

/// The store that goes on from a base, where that is what it is to be. In a third of all cases the sessions begin anew, and the counter too.
pub(crate) fn resumed(cut: Cut) -> Result<Book, Fault> {
    let Cut {
        alloc,
        mut dice,
        mut base,
        rows,
        mut numbers,
        place,
        mut counter,
    } = cut;
    if dice.below(3) == 0 {
        base = renumbered(alloc, base, numbers.as_mut_slice())?;
        counter = 0;
    }
    if dice.below(3) == 0 {
        base = handed_back(alloc, base)?;
    }
    due(base.place() == place && has_numbers(&base, &numbers))?;
    due(has_rows(alloc, &base, &rows)?)?;
    let sessions = numbers.len().saturating_add(dice.below(3));
    let keep = dice.below(5);
    let life = Life {
        alloc,
        core: go_on(alloc, base, (sessions, keep, counter))?,
        plain: Plain::new(alloc, rows, (place, counter, keep)),
        dice,
    };
    due(life.is_right()? && life.core.marks().is_empty())?;
    Ok(Book {
        life,
        sessions: begun(alloc, &numbers, sessions)?,
    })
}

fn go_on(
    alloc: Global,
    base: Box<Base<Global>>,
    (sessions, keep, counter): (usize, usize, u64),
) -> Result<Box<Core<Global>>, Fault> {
    let (schema, base) = (schema(alloc)?, Box::into_inner(base));
    let core = Core::resume(alloc, schema, sessions, keep, base, counter)?;
    Ok(Box::new(alloc, core)?)
}

fn renumbered(
    alloc: Global,
    base: Box<Base<Global>>,
    numbers: &mut [u64],
) -> Result<Box<Base<Global>>, Fault> {
    for number in numbers {
        *number = 0;
    }
    let base = Box::into_inner(base).renumbered();
    Ok(Box::new(alloc, base)?)
}

// A base is refused where it has more sessions, and comes back.
fn handed_back(alloc: Global, base: Box<Base<Global>>) -> Result<Box<Base<Global>>, Fault> {
    let fewer = base.numbers().sessions().saturating_sub(1);
    match Core::resume(alloc, schema(alloc)?, fewer, 1, Box::into_inner(base), 0) {
        Err(
            Refused {
                value: (_schema, base),
                fault: Fault::NoSession,
            },
        ) => Ok(Box::new(alloc, base)?),
        _ => Err(Fault::QueueFull),
    }
}

// Whether these are the last numbers of a base, with 0 for a session that has none.
fn has_numbers(base: &Base<Global>, numbers: &[u64]) -> bool {
    for at in 0..numbers.len() {
        let last = base.last(at.saturating_add(1)).unwrap_or(0);
        if numbers.get(at) != Some(&last) {
            return false;
        }
    }
    base.numbers().sessions() == numbers.len()
}

fn has_rows(alloc: Global, base: &Base<Global>, rows: &Rows) -> Result<bool, Fault> {
    let tables = Box::new(alloc, base.state()?)?;
    rows.are_in(alloc, &tables)
}

// So many sessions, each of which had this last number, if any.
fn begun(alloc: Global, numbers: &[u64], count: usize) -> Result<Vec<Session>, Fault> {
    let mut sessions = Vec::new(alloc);
    for at in 0..count {
        let last = match numbers.get(at) {
            Some(number) => *number,
            None => 0,
        };
        sessions.push(Session::new(alloc, at.saturating_add(1), last))?;
    }
    Ok(sessions)
}
