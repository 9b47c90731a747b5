//! Rows that come into a base, and a store that goes on from it: each of their requests for memory is refused in turn, and the call is made
//! again with what came back.
use occ_audit::audit_rows;
use occ_book::{Base, Loading, Tables};
use occ_core::Core;
use occ_sets::Op;
use occ_types::limits::MAX_COUNTER;
use occ_types::{Cell, Fault, Key, KeyKind, KeyPart, Kind, Object, PartKind, Refused, Row, Schema};
use std::alloc::{Allocator, Global};
use std::test::Fail;
use test_tools::{Plan, Refusing};

type Rows<A> = Vec<(Object<A>, Row<A>), A>;

type Ops<A> = Vec<Op<A>, A>;

/// How many rows there are.
const ROWS: u64 = 8;

/// What came of a run.
#[derive(Clone, Copy, Debug, PartialEq, Eq)]
struct Came {
    /// How many rows stand at last, and the sum of their numbers.
    rows: (usize, i64),
    /// How many the list has, and their sum.
    listed: (usize, i64),
    /// Whether each store took and refused what it was to, and the audit of the last one is yes.
    right: bool,
}

/// Calls, of which the request at a place is refused, counted over all of them.
#[derive(Drop)]
struct Calls<'l> {
    lent: &'l Refusing<Global>,
    place: u64,
    before: u64,
    requests: u64,
    again: u64,
}

impl<'l> Calls<'l> {
    fn new(lent: &'l Refusing<Global>, place: u64) -> Calls<'l> {
        Calls {
            lent,
            place,
            before: 0,
            requests: 0,
            again: 0,
        }
    }

    // Before a call.
    fn refuse(&mut self) {
        self.before = self.lent.requests();
        self.lent
            .follow(match self.place.checked_sub(self.requests) {
                Some(ahead) => Plan::Once(self.before.saturating_add(ahead)),
                None => Plan::Nothing,
            });
    }

    // Behind a call.
    fn relent(&mut self) {
        self.lent.follow(Plan::Nothing);
        let made = self.lent.requests().saturating_sub(self.before);
        self.requests = self.requests.saturating_add(made);
    }

    // Before a call is made again that was refused for this.
    fn retry(&mut self, fault: Fault) -> Result<(), Fault> {
        if fault != Fault::Memory {
            return Err(fault);
        }
        self.again = self.again.saturating_add(1);
        Ok(())
    }
}

/// Makes the calls.
#[derive(Drop)]
struct Caller<'l, A: Allocator> {
    alloc: A,
    calls: Calls<'l>,
}

impl<'l, A: Allocator + Copy> Caller<'l, A> {
    // The row of a number, with its object.
    fn row(&mut self, number: u64) -> Result<(Object<A>, Row<A>), Fault> {
        self.calls.refuse();
        let first = row_of(self.alloc, number);
        self.calls.relent();
        match first {
            Ok(row) => Ok(row),
            Err(fault) => {
                self.calls.retry(fault)?;
                row_of(self.alloc, number)
            }
        }
    }

    // A base of all rows, which come in one after another.
    fn loaded(&mut self) -> Result<Base<A>, Fault> {
        let mut loading = self.loading()?;
        for number in 0..ROWS {
            self.load(&mut loading, number)?;
        }
        Ok(loading.into_base())
    }

    fn loading(&mut self) -> Result<Loading<A>, Fault> {
        self.calls.refuse();
        let first = Loading::new(self.alloc, 3, 2);
        self.calls.relent();
        match first {
            Ok(loading) => Ok(loading),
            Err(fault) => {
                self.calls.retry(fault)?;
                Loading::new(self.alloc, 3, 2)
            }
        }
    }

    fn load(&mut self, loading: &mut Loading<A>, number: u64) -> Result<(), Fault> {
        let (object, row) = self.row(number)?;
        self.calls.refuse();
        let first = loading.put(object, row);
        self.calls.relent();
        match first {
            Ok(()) => Ok(()),
            Err(Refused { value, fault }) => {
                self.calls.retry(fault)?;
                Ok(loading.put(value.0, value.1)?)
            }
        }
    }

    // The same base of a list of all rows, the last one first.
    fn listed(&mut self) -> Result<Base<A>, Fault> {
        let mut rows = Vec::new(self.alloc);
        for number in 0..ROWS {
            rows.push(self.row(ROWS.saturating_sub(number).saturating_sub(1))?)?;
        }
        self.base_of(rows)
    }

    fn base_of(&mut self, rows: Rows<A>) -> Result<Base<A>, Fault> {
        self.calls.refuse();
        let first = Base::from_rows(self.alloc, 3, 2, rows);
        self.calls.relent();
        match first {
            Ok(base) => Ok(base),
            Err(Refused { value, fault }) => {
                self.calls.retry(fault)?;
                Ok(Base::from_rows(self.alloc, 3, 2, value)?)
            }
        }
    }

    // How many rows the list has, and their sum.
    fn state_of_list(&mut self) -> Result<(usize, i64), Fault> {
        let base = Box::new(self.alloc, self.listed()?)?;
        let tables = Box::new(self.alloc, self.state(&base)?)?;
        sum(self.alloc, &tables)
    }

    fn state(&mut self, base: &Base<A>) -> Result<Tables<A>, Fault> {
        self.calls.refuse();
        let first = base.state();
        self.calls.relent();
        match first {
            Ok(tables) => Ok(tables),
            Err(fault) => {
                self.calls.retry(fault)?;
                base.state()
            }
        }
    }

    fn schema(&mut self) -> Result<Schema<A>, Fault> {
        self.calls.refuse();
        let first = schema_of(self.alloc);
        self.calls.relent();
        match first {
            Ok(schema) => Ok(schema),
            Err(fault) => {
                self.calls.retry(fault)?;
                schema_of(self.alloc)
            }
        }
    }

    // A store of three sessions that goes on from a base, and keeps no write set.
    fn resumed(&mut self, base: Base<A>, counter: u64) -> Result<Box<Core<A>, A>, Fault> {
        let schema = self.schema()?;
        self.calls.refuse();
        let first = Core::resume(self.alloc, schema, 3, 0, base, counter);
        self.calls.relent();
        match first {
            Ok(core) => boxed(self.alloc, core),
            Err(Refused { value, fault }) => {
                self.calls.retry(fault)?;
                let (schema, base) = value;
                resume(self.alloc, schema, base, counter)
            }
        }
    }

    // Session 1 puts the row of 1 under the key 0, alone. Why that is refused, where it is not for memory.
    fn put(&mut self, core: &mut Core<A>, number: u64) -> Result<Option<Fault>, Fault> {
        let operations = putting(self.alloc)?;
        self.calls.refuse();
        let first = core.run_alone(1, number, operations);
        self.calls.relent();
        match first {
            Ok(_done) => Ok(None),
            Err(Refused { value, fault }) => self.put_again(core, number, value, fault),
        }
    }

    fn put_again(
        &mut self,
        core: &mut Core<A>,
        number: u64,
        operations: Ops<A>,
        fault: Fault,
    ) -> Result<Option<Fault>, Fault> {
        if fault != Fault::Memory {
            return Ok(Some(fault));
        }
        self.calls.retry(fault)?;
        let _done = core.run_alone(1, number, operations)?;
        Ok(None)
    }

    // A store that takes the last transaction number, and then refuses one. Whether it does.
    fn uses_up(&mut self, core: &mut Core<A>) -> Result<bool, Fault> {
        let taken = self.put(core, 1)?.is_none() && core.tnc() == MAX_COUNTER;
        Ok(taken && self.put(core, 2)? == Some(Fault::CounterExhausted))
    }

    // The store that goes on from it, with numbers that begin anew. Whether it takes a number and folds, and is right then.
    fn begins_anew(&mut self, core: &mut Core<A>) -> Result<bool, Fault> {
        let put = self.put(core, 1)?.is_none() && core.tnc() == 1;
        let folded = self.fold(core)?;
        Ok(put && folded == 1 && audit_rows(self.alloc, &core.view())?)
    }

    fn fold(&mut self, core: &mut Core<A>) -> Result<usize, Fault> {
        self.calls.refuse();
        let first = core.checkpoint();
        self.calls.relent();
        match first {
            Ok(folded) => Ok(folded),
            Err(fault) => {
                self.calls.retry(fault)?;
                core.checkpoint()
            }
        }
    }

    // All of it.
    fn run(&mut self) -> Result<Came, Fault> {
        let base = self.loaded()?;
        let mut core = self.resumed(base, MAX_COUNTER - 1)?;
        let used_up = self.uses_up(&mut core)?;
        let mut next = self.next(core)?;
        let right = self.begins_anew(&mut next)? && used_up;
        Ok(Came {
            rows: sum(self.alloc, next.table())?,
            listed: self.state_of_list()?,
            right,
        })
    }

    // The store that goes on from another one.
    fn next(&mut self, core: Box<Core<A>, A>) -> Result<Box<Core<A>, A>, Fault> {
        let base = Box::into_inner(core).into_base()?;
        self.resumed(base.renumbered(), 0)
    }
}

fn boxed<A: Allocator + Copy>(alloc: A, core: Core<A>) -> Result<Box<Core<A>, A>, Fault> {
    Ok(Box::new(alloc, core)?)
}

fn resume<A: Allocator + Copy>(
    alloc: A,
    schema: Schema<A>,
    base: Base<A>,
    counter: u64,
) -> Result<Box<Core<A>, A>, Fault> {
    let core = Core::resume(alloc, schema, 3, 0, base, counter)?;
    boxed(alloc, core)
}

// A table of numbers, one of texts, and one of pairs.
fn schema_of<A: Allocator + Copy>(alloc: A) -> Result<Schema<A>, Fault> {
    let columns: &[Kind] = &[Kind::Int, Kind::Text];
    let pairs = KeyKind::Pair(PartKind::Num, PartKind::Text);
    let tables = [
        ("numbers", KeyKind::Num, columns),
        ("texts", KeyKind::Text, columns),
        ("pairs", pairs, columns),
    ];
    Schema::of(alloc, &tables)
}

// The row of a number, with its object.
fn row_of<A: Allocator + Copy>(alloc: A, number: u64) -> Result<(Object<A>, Row<A>), Fault> {
    let object = object_of(alloc, number)?;
    Ok((object, cells_of(alloc, number)?))
}

fn cells_of<A: Allocator + Copy>(alloc: A, number: u64) -> Result<Row<A>, Fault> {
    let mut cells = Vec::new(alloc);
    cells.push(Cell::Int(i64::try_from(number).unwrap_or(0)))?;
    cells.push(Cell::text(alloc, "pears")?)?;
    Ok(Row::from_cells(cells)?)
}

fn object_of<A: Allocator + Copy>(alloc: A, number: u64) -> Result<Object<A>, Fault> {
    let table = (number % 3) as usize;
    let key = key_of(alloc, number)?;
    Ok(Object { table, key })
}

fn key_of<A: Allocator + Copy>(alloc: A, number: u64) -> Result<Key<A>, Fault> {
    match number % 3 {
        0 => Ok(Key::Num(number)),
        1 => Ok(Key::text(alloc, word_of(number))?),
        _ => pair_of(alloc, number),
    }
}

fn word_of(number: u64) -> &'static str {
    match number {
        1 => "b",
        4 => "a",
        _ => "c",
    }
}

fn pair_of<A: Allocator + Copy>(alloc: A, number: u64) -> Result<Key<A>, Fault> {
    let second = KeyPart::text(alloc, "a")?;
    Ok(Key::pair(alloc, KeyPart::Num(number), second)?)
}

// The operation that puts the row of 1 under the key 0.
fn putting<A: Allocator + Copy>(alloc: A) -> Result<Ops<A>, Fault> {
    let row = cells_of(alloc, 1)?;
    let mut operations = Vec::new(alloc);
    operations.push(Op::Put {
        table: 0,
        key: Key::Num(0),
        row,
    })?;
    Ok(operations)
}

// How many rows stand in some tables, and the sum of those of all numbers.
fn sum<A: Allocator + Copy>(alloc: A, tables: &Tables<A>) -> Result<(usize, i64), Fault> {
    let mut sum = 0i64;
    for number in 0..ROWS {
        let object = object_of(alloc, number)?;
        if let Some(row) = tables.row(object.table, &object.key) {
            sum = sum.saturating_add(row.int(0).unwrap_or(0));
        }
    }
    Ok((tables.len(), sum))
}

/// What comes of a run where the request at a place is refused.
#[derive(Clone, Copy, Debug, PartialEq, Eq)]
struct Tried {
    came: Came,
    /// How many requests its calls made.
    requests: u64,
    /// How many of them were made again.
    again: u64,
    /// How many bytes are kept at last.
    kept: u64,
}

fn refused_at(alloc: Global, place: u64) -> Result<Tried, Fault> {
    let lent = Refusing::new(alloc, Plan::Nothing);
    let mut caller = Caller {
        alloc: &lent,
        calls: Calls::new(&lent, place),
    };
    let came = caller.run()?;
    Ok(Tried {
        came,
        requests: caller.calls.requests,
        again: caller.calls.again,
        kept: lent.bytes_out(),
    })
}

// What comes of a run that makes so many requests, and so many calls again. At last the row of the key 0 has 1, which was 0.
fn due(requests: u64, again: u64) -> Tried {
    Tried {
        came: Came {
            rows: (8, 29),
            listed: (8, 28),
            right: true,
        },
        requests,
        again,
        kept: 0,
    }
}

#[test]
fn stores_go_on_from_each_refused_request(rt: HostRuntime) -> Result<(), Fail> {
    let ample = refused_at(rt.alloc(), u64::MAX)?;
    assert!(rt;
        ample == due(ample.requests, 0) && ample.requests > 40,
        "{ample:?}"
    );
    for place in 0..ample.requests {
        let tried = refused_at(rt.alloc(), place)?;
        assert!(rt; tried == due(tried.requests, 1), "{place}: {tried:?}");
    }
    Ok(())
}
