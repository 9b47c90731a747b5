//! Random transactions of four clients, who read in ranges and pages beside one another, and often beside an open row. In the order in
//! which they commit a plain list of rows answers each of their calls as the store did, and one is backed up just where another wrote
//! what it asked for.
use crate::calls::{begin, commit, write};
use crate::dice::Dice;
use crate::keys::{Keys, store};
use crate::parties::{End, Party};
use crate::places::{PLACES, Places, Rows};
use occ_client::{Client, Core, Item, RequestWrites, WriteSet};
use occ_types::{Fault, Row};
use std::alloc::Global;
use std::test::Fail;

/// How many programs are made.
const PROGRAMS: u64 = 1_500;

/// How many transactions a program has, each of a session of its own.
const TRANSACTIONS: usize = 4;

/// The session whose row is open beside them.
const BESIDE: usize = 5;

/// The store of a program, the keys of one of its tables, and what is due: its rows, what each that committed wrote, and the place that a
/// row writes which is open.
#[derive(Drop)]
pub(crate) struct Desk {
    pub(crate) core: Box<Core<Global>>,
    pub(crate) keys: Keys,
    pub(crate) rows: Rows,
    pub(crate) past: Vec<Places>,
    pub(crate) open: Option<usize>,
    pub(crate) dice: Dice,
}

/// How many transactions committed and were backed up, and how many programs came out otherwise than they were to.
#[derive(Clone, Copy, Debug, PartialEq, Eq)]
struct Sums {
    committed: usize,
    backed_up: usize,
    wrong: usize,
}

impl Sums {
    // Notes what came of a program.
    fn note(&mut self, parties: &[Party], right: bool) {
        for party in parties {
            match party.end() {
                End::Committed => self.committed = self.committed.saturating_add(1),
                End::BackedUp => self.backed_up = self.backed_up.saturating_add(1),
                End::Open | End::Abandoned => {}
            }
        }
        self.wrong = self.wrong.saturating_add(usize::from(!right));
    }
}

impl Desk {
    // Puts the rows that there are at first.
    fn fill(&mut self, client: &mut Client<Global>) -> Result<(), Fault> {
        begin(client, &mut self.core)?;
        for place in 0..PLACES {
            if !self.dice.once_in(3) {
                let number = self.dice.number();
                let key = self.keys.copy(place)?;
                write(client, &self.core, self.keys.table(), key, Some(number))?;
                self.rows.set(place, Some(number));
            }
        }
        let _committed = commit(client, &mut self.core)?;
        Ok(())
    }

    // In each second program a row enters that stays open, so that the others end step by step.
    fn open_row(&mut self, alloc: Global) -> Result<(), Fault> {
        if self.dice.once_in(2) {
            let place = self.dice.below(PLACES);
            let item = self.putting(alloc, place)?;
            let _entered = self.core.enter(BESIDE, item)?;
            self.open = Some(place);
        }
        Ok(())
    }

    // The first transaction of a session, which puts 5 at a place.
    fn putting(&self, alloc: Global, place: usize) -> Result<Item<Global>, Fault> {
        let mut writes = WriteSet::new(alloc);
        writes.set(
            self.keys.table(),
            self.keys.copy(place)?,
            Some(Row::from(5i64)),
        )?;
        Ok(Item::Request {
            number: 1,
            start: self.core.tnc(),
            writes: RequestWrites::from_set(writes)?,
        })
    }

    // The open row is written and finished, where there is one.
    fn finish_row(&mut self) -> Result<(), Fault> {
        if let Some(place) = self.open {
            let _verdict = self.core.decide(BESIDE)?;
            let _written = self.core.write_one(BESIDE)?;
            let _number = self.core.finish(BESIDE)?;
            self.rows.set(place, Some(5));
        }
        Ok(())
    }

    // The transactions go on in turns, until all are over. Whether each step came out as it was to.
    fn play(&mut self, parties: &mut [Party]) -> Result<bool, Fault> {
        let mut right = true;
        for _ in 0..TRANSACTIONS * 6 {
            let place = next(parties, self.dice.below(TRANSACTIONS));
            if let Some(party) = parties.get_mut(place) {
                right = party.step(self)? && right;
            }
        }
        Ok(right)
    }

    // Plays a program to its end. Whether the store has the rows then that are due.
    fn run(&mut self, alloc: Global, parties: &mut [Party]) -> Result<bool, Fault> {
        self.open_row(alloc)?;
        let right = self.play(parties)?;
        self.finish_row()?;
        for party in parties {
            party.close(self)?;
        }
        Ok(right && self.keys.rows_in(&self.core) == self.rows)
    }
}

// The store of a seed, with its first rows.
fn opened(alloc: Global, seed: u64) -> Result<Box<Desk>, Fault> {
    let table = (seed % 3) as usize;
    let desk = Desk {
        core: store(alloc, BESIDE + 1)?,
        keys: Keys::of(alloc, table)?,
        rows: Rows::none(),
        past: Vec::new(alloc),
        open: None,
        dice: Dice::of(seed),
    };
    let mut desk = Box::new(alloc, desk)?;
    desk.fill(&mut Client::new(alloc, BESIDE + 1))?;
    Ok(desk)
}

// The transactions before their beginning.
fn parties(alloc: Global) -> Result<Vec<Party>, Fault> {
    let mut parties = Vec::new(alloc);
    for place in 0..TRANSACTIONS {
        parties.push(Party::new(alloc, place.saturating_add(1)))?;
    }
    Ok(parties)
}

// The first place from one on of a transaction that isn't over.
fn next(parties: &[Party], first: usize) -> usize {
    for skipped in 0..TRANSACTIONS {
        let place = first.saturating_add(skipped) % TRANSACTIONS;
        if parties.get(place).is_some_and(|party| party.goes_on()) {
            return place;
        }
    }
    0
}

// The program of a seed.
fn run(alloc: Global, seed: u64, sums: &mut Sums) -> Result<(), Fault> {
    let mut desk = opened(alloc, seed)?;
    let mut parties = parties(alloc)?;
    let right = desk.run(alloc, parties.as_mut_slice())?;
    sums.note(parties.as_slice(), right);
    Ok(())
}

// All programs.
fn run_all(alloc: Global) -> Result<Sums, Fault> {
    let mut sums = Sums {
        committed: 0,
        backed_up: 0,
        wrong: 0,
    };
    for seed in 0..PROGRAMS {
        run(alloc, seed, &mut sums)?;
    }
    Ok(sums)
}

#[test]
fn pages_are_those_of_a_plain_list(rt: HostRuntime) -> Result<(), Fail> {
    let sums = run_all(rt.alloc())?;
    assert!(rt; sums.wrong == 0, "{sums:?}");
    assert!(rt;
        sums.committed > 1_500 && sums.backed_up > 1_500,
        "{sums:?}"
    );
    Ok(())
}
