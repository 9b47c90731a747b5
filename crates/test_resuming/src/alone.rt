//! Operations that run alone.
use crate::lives::{Life, Session};
use crate::objects::{key_of, table_of};
use crate::past::{Asked, Stands, Work};
use crate::rows::{Rows, ends, is_row};
use crate::turns::{committed, some_place, some_places};
use occ_sets::{Answer, Op};
use occ_types::{Fault, Row};
use std::alloc::Global;

type Ops = Vec<Op<Global>, Global>;

// What some operations do: the rows then, and what was asked on the way.
#[derive(Drop)]
struct Due {
    rows: Rows,
    work: Work,
}

/// Runs a few operations alone. Whether that came out as it was to.
pub(crate) fn run_alone(life: &mut Life, one: &mut Session) -> Result<bool, Fault> {
    let mut due = Due {
        rows: life.plain.rows,
        work: Work::new(life.alloc, life.plain.counter),
    };
    let operations = some_operations(life, &mut due)?;
    let busy = life.plain.is_busy();
    let (tn, answers) = match life.core.run_alone(one.id, one.next(), operations) {
        Ok(ran) => ran,
        Err(refused) => return Ok(busy && refused.fault == Fault::StoreBusy),
    };
    let answered = are_due(life.alloc, &due.work.asked, &answers)?;
    one.work = due.work;
    one.work.asked.clear();
    Ok(committed(life, one, tn)? && answered && !busy)
}

// Up to five operations, and what they do.
fn some_operations(life: &mut Life, due: &mut Due) -> Result<Ops, Fault> {
    let mut operations = Vec::new(life.alloc);
    for _ in 0..life.dice.below(6) {
        let operation = match life.dice.below(3) {
            0 => question(life, due)?,
            1 => addition(life, due)?,
            _ => change(life, due)?,
        };
        operations.push(operation)?;
    }
    Ok(operations)
}

fn question(life: &mut Life, due: &mut Due) -> Result<Op<Global>, Fault> {
    let seen = due.rows;
    if life.dice.below(2) == 0 {
        let place = some_place(life);
        let places = (place, place.saturating_add(1));
        due.work.asked.push(Asked { places, seen })?;
        return Ok(Op::Get {
            table: table_of(place),
            key: key_of(life.alloc, place)?,
        });
    }
    let places = some_places(life);
    let (lower, upper) = ends(life.alloc, places)?;
    due.work.asked.push(Asked { places, seen })?;
    Ok(Op::Scan {
        table: table_of(places.0),
        lower,
        upper,
    })
}

fn addition(life: &mut Life, due: &mut Due) -> Result<Op<Global>, Fault> {
    let place = some_place(life);
    let amount = life.dice.number(9);
    let sum = due.rows.at(place).unwrap_or(0).saturating_add(amount);
    due.rows.set(place, Some(sum));
    due.work.write(place, Some(sum))?;
    Ok(Op::Add {
        table: table_of(place),
        key: key_of(life.alloc, place)?,
        amount,
    })
}

fn change(life: &mut Life, due: &mut Due) -> Result<Op<Global>, Fault> {
    let place = some_place(life);
    let number = life.dice.number(20);
    let table = table_of(place);
    let key = key_of(life.alloc, place)?;
    let row = if number < 5 { None } else { Some(number) };
    due.rows.set(place, row);
    due.work.write(place, row)?;
    match row {
        Some(number) => Ok(Op::Put {
            table,
            key,
            row: Row::from(number),
        }),
        None => Ok(Op::Delete { table, key }),
    }
}

// Whether each of the questions was answered what is due.
fn are_due(alloc: Global, asked: &[Asked], answers: &[Answer<Global>]) -> Result<bool, Fault> {
    for (asked, answer) in asked.iter().zip(answers.iter()) {
        if !is_due(alloc, asked, answer)? {
            return Ok(false);
        }
    }
    Ok(asked.len() == answers.len())
}

fn is_due(alloc: Global, asked: &Asked, answer: &Answer<Global>) -> Result<bool, Fault> {
    match answer {
        Answer::Found(row) => Ok(is_row(row.as_ref(), asked.seen.at(asked.places.0))),
        Answer::Rows(rows) => asked
            .seen
            .are_answered(alloc, asked.places, rows.as_slice()),
    }
}
