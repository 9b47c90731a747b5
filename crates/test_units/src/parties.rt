//! A client with its transaction, which a plain list of rows is to explain.
use crate::calls::{abandon, begin, commit, get, page, scan, write};
use crate::pages::Desk;
use crate::places::{Asked, PLACES, Part, Places, Rows, Span};
use occ_client::{Client, Page};
use occ_types::Fault;
use std::alloc::Global;

/// How many calls a transaction makes between its beginning and its end.
pub(crate) const CALLS: usize = 4;

/// What a transaction wrote at a place, or was answered.
#[derive(Clone, Copy)]
enum Told {
    Wrote(usize, Option<i64>),
    Got(usize, Option<i64>),
    Page {
        asked: Asked,
        rows: Rows,
        rest: Option<usize>,
    },
}

/// How a transaction ended.
#[derive(Clone, Copy, PartialEq, Eq)]
pub(crate) enum End {
    Open,
    Committed,
    BackedUp,
    Abandoned,
}

/// A client and its transaction: how many of its steps are left, what it was told, which places it asked for and wrote, how many had
/// committed before its beginning, and how it ended.
#[derive(Drop)]
pub(crate) struct Party {
    client: Client<Global>,
    left: usize,
    told: Vec<Told>,
    asked: Places,
    writes: Places,
    begun: usize,
    end: End,
}

impl Told {
    /// Whether this is told of these rows before the transaction and now, which it changes.
    fn follows(&self, before: &Rows, now: &mut Rows) -> bool {
        match self {
            Told::Wrote(place, row) => {
                now.set(*place, *row);
                true
            }
            Told::Got(place, row) => now.at(*place) == *row,
            Told::Page { asked, rows, rest } => {
                before.rest(*asked) == *rest && now.within(asked.shown(*rest)) == *rows
            }
        }
    }
}

impl Party {
    /// The client of a session, before its transaction.
    pub(crate) fn new(alloc: Global, session: usize) -> Party {
        let mut client = Client::new(alloc, session);
        client.checkpoint_each(Some(1));
        Party {
            client,
            left: CALLS + 2,
            told: Vec::new(alloc),
            asked: Places::none(),
            writes: Places::none(),
            begun: 0,
            end: End::Open,
        }
    }

    /// Whether it has a step left.
    pub(crate) fn goes_on(&self) -> bool {
        self.left > 0
    }

    /// How its transaction ended.
    pub(crate) fn end(&self) -> End {
        self.end
    }

    /// The next step of its transaction. Whether it came out as it was to.
    pub(crate) fn step(&mut self, desk: &mut Desk) -> Result<bool, Fault> {
        self.left = self.left.saturating_sub(1);
        if !self.client.is_open() {
            self.begun = desk.past.len();
            begin(&mut self.client, &mut desk.core)?;
            return Ok(true);
        }
        if self.left == 0 {
            return self.finish(desk);
        }
        self.call(desk)
    }

    // One call of the open transaction. False where its answer isn't one.
    fn call(&mut self, desk: &mut Desk) -> Result<bool, Fault> {
        let place = desk.dice.below(PLACES);
        match desk.dice.below(8) {
            0 => self.put(desk, place),
            1 | 2 => self.write(desk, place, None),
            3 => self.get(desk, place),
            _ => self.read(desk),
        }
    }

    fn put(&mut self, desk: &mut Desk, place: usize) -> Result<bool, Fault> {
        let number = desk.dice.number();
        self.write(desk, place, Some(number))
    }

    fn write(&mut self, desk: &mut Desk, place: usize, row: Option<i64>) -> Result<bool, Fault> {
        let key = desk.keys.copy(place)?;
        write(&mut self.client, &desk.core, desk.keys.table(), key, row)?;
        self.writes.add(place);
        self.told.push(Told::Wrote(place, row))?;
        Ok(true)
    }

    // An own write is seen, and nothing is asked then.
    fn get(&mut self, desk: &mut Desk, place: usize) -> Result<bool, Fault> {
        let Some(key) = desk.keys.at(place) else {
            return Ok(false);
        };
        let row = get(&mut self.client, &mut desk.core, desk.keys.table(), key)?;
        if !self.writes.has(place) {
            self.asked.add(place);
        }
        self.told.push(Told::Got(place, row))?;
        Ok(true)
    }

    fn read(&mut self, desk: &mut Desk) -> Result<bool, Fault> {
        let asked = asked(desk);
        let page = self.ask(desk, asked)?;
        let rest = page.rest.as_ref().map(|key| desk.keys.place_of(key));
        let Some(rows) = desk.keys.rows_of(&page) else {
            return Ok(false);
        };
        self.asked.add_all(read_for(desk, asked));
        self.told.push(Told::Page { asked, rows, rest })?;
        Ok(true)
    }

    fn ask(&mut self, desk: &mut Desk, asked: Asked) -> Result<Page<Global>, Fault> {
        let (client, table) = (&mut self.client, desk.keys.table());
        let ends = (desk.keys.end(asked.lower), desk.keys.end(asked.upper));
        match asked.part {
            Part::All => scan(client, &mut desk.core, table, ends),
            Part::First => page(client, &mut desk.core, false, table, ends, asked.most),
            Part::Last => page(client, &mut desk.core, true, table, ends, asked.most),
        }
    }

    // Ends the transaction. Whether that is as it was to: one commits just where nothing that it asked for was written since its beginning.
    fn finish(&mut self, desk: &mut Desk) -> Result<bool, Fault> {
        if desk.dice.once_in(8) {
            self.end = End::Abandoned;
            abandon(&mut self.client, &mut desk.core)?;
            return Ok(true);
        }
        let is_met = self.is_met(desk);
        if !commit(&mut self.client, &mut desk.core)? {
            self.end = End::BackedUp;
            return Ok(is_met);
        }
        self.end = End::Committed;
        desk.past.push(self.writes)?;
        Ok(self.follows(&mut desk.rows) && !is_met)
    }

    // Whether another one wrote meanwhile what it asked for; of one that is open, also what it writes.
    fn is_met(&self, desk: &Desk) -> bool {
        if let Some(place) = desk.open {
            if self.asked.has(place) || self.writes.has(place) {
                return true;
            }
        }
        for writes in desk.past.as_slice().iter().skip(self.begun) {
            if self.asked.meets(writes) {
                return true;
            }
        }
        false
    }

    // Whether these rows explain all that it was told. They are changed as it changes them.
    fn follows(&self, rows: &mut Rows) -> bool {
        let before = *rows;
        for told in &self.told {
            if !told.follows(&before, rows) {
                return false;
            }
        }
        true
    }

    /// Ends its session.
    pub(crate) fn close(&mut self, desk: &mut Desk) -> Result<(), Fault> {
        self.client.close(&mut desk.core)
    }
}

// A range, or a page of one.
fn asked(desk: &mut Desk) -> Asked {
    let part = match desk.dice.below(5) {
        0 => Part::All,
        1 | 2 => Part::First,
        _ => Part::Last,
    };
    let lower = some_end(desk);
    let behind = lower.unwrap_or(0).saturating_add(1);
    let upper = some_end(desk).map(|place| place.saturating_add(behind));
    Asked {
        part,
        lower,
        // behind all places a range has no end
        upper: upper.filter(|place| *place < PLACES),
        most: match desk.dice.below(6) {
            5 => usize::MAX,
            most => most,
        },
    }
}

// The place of an end, or none.
fn some_end(desk: &mut Desk) -> Option<usize> {
    if desk.dice.once_in(2) {
        return None;
    }
    Some(desk.dice.below(PLACES))
}

// The places that are read for a question: those up to and with one row more than a page shows. Where no key comes next to that of the
// last one, they go on up to the next row.
fn read_for(desk: &Desk, asked: Asked) -> Span {
    let (lower, upper) = asked.span();
    let Some(rest) = desk.rows.rest(asked) else {
        return (lower, upper);
    };
    if asked.part == Part::Last {
        return (desk.rows.before(lower, rest), upper);
    }
    if desk.keys.has_next(rest) {
        return (lower, rest.saturating_add(1));
    }
    (lower, desk.rows.next(rest, upper))
}
