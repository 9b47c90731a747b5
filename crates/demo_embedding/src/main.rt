//! The store in a program of one's own: two tables, a conflict, a retry, a range, a counter under load, a log that is kept short,
//! refusals, and a store that goes on from another one's rows.
#![tactic(auto)]

use occ_client::{Client, Core, End, Fault, Key, KeyKind, Kind, Schema};
use std::alloc::Global;
use std::process::ExitCode;

/// The places of the tables in the schema: the balance of each account, and the account of each owner.
const ACCOUNTS: usize = 0;

const OWNERS: usize = 1;

fn main(rt: HostRuntime) -> ExitCode {
    let told = match show(rt.alloc()) {
        Ok(lines) => print!(rt; "{lines}"),
        Err(fault) => eprintln!(rt; "{fault}"),
    };
    told.map_or(ExitCode::FAILURE, |()| ExitCode::SUCCESS)
}

type One = Client<Global>;

type Store = Core<Global>;

fn show(alloc: Global) -> Result<String, Fault> {
    let mut lines = String::new(alloc);
    let mut store = open(alloc)?;
    tell(alloc, &mut store, &mut lines)?;
    go_on(alloc, store, &mut lines)?;
    Ok(lines)
}

/// Two tables.
fn schema(alloc: Global) -> Result<Schema<Global>, Fault> {
    Schema::of(
        alloc,
        &[
            ("accounts", KeyKind::Num, &[Kind::Int]),
            ("owners", KeyKind::Text, &[Kind::Int]),
        ],
    )
}

/// A store of two sessions that keeps the last 8 write sets for testing.
fn open(alloc: Global) -> Result<Box<Store>, Fault> {
    let store = Core::open(alloc, schema(alloc)?, 2, 8)?;
    Ok(Box::new(alloc, store)?)
}

/// What two clients do with a store, told line by line.
fn tell(alloc: Global, store: &mut Store, lines: &mut String) -> Result<(), Fault> {
    let (mut alice, mut bob) = (Client::new(alloc, 1), Client::new(alloc, 2));
    play(alloc, &mut alice, &mut bob, store, lines)
}

/// What they do, one after another.
fn play(
    alloc: Global,
    alice: &mut One,
    bob: &mut One,
    store: &mut Store,
    lines: &mut String,
) -> Result<(), Fault> {
    pay(alice, bob, store, lines)?;
    owner(alloc, bob, store, lines)?;
    count(alice, bob, store, lines)?;
    range(alice, store, lines)?;
    refusals(alloc, alice, store, lines)
}

/// Both read the balance, and the second one to end is backed up: it tries again, three times at most.
fn pay(a: &mut One, b: &mut One, store: &mut Store, lines: &mut String) -> Result<(), Fault> {
    a.begin(store)?;
    b.begin(store)?;
    add(a, store, 7, 30)?;
    add(b, store, 7, 12)?;
    let (first, second) = (a.commit(store)?, b.commit(store)?);
    let again = b.transact(store, 3, |b, store| add(b, store, 7, 12))?;
    Ok(writeln!(lines, "{first:?}, {second:?}, again {again:?}")?)
}

/// Adds to the balance of an account, which is 0 where there is none, and answers the sum.
fn add(client: &mut One, store: &mut Store, account: u64, amount: i64) -> Result<i64, Fault> {
    let sum = balance(client, store, account)?.saturating_add(amount);
    client.put(store, ACCOUNTS, account.into(), sum.into())?;
    Ok(sum)
}

/// The balance of an account, which is 0 where there is none.
fn balance(client: &mut One, store: &mut Store, account: u64) -> Result<i64, Fault> {
    number(client, store, ACCOUNTS, &account.into())
}

/// The number in the row under a key, or 0 where there is none.
fn number(
    client: &mut One,
    store: &mut Store,
    table: usize,
    key: &Key<Global>,
) -> Result<i64, Fault> {
    let row = client.get(store, table, key)?;
    Ok(row.as_ref().and_then(|row| row.int(0)).unwrap_or(0))
}

/// Carol opens an account, and another transaction finds it by its owner.
fn owner(
    alloc: Global,
    client: &mut One,
    store: &mut Store,
    lines: &mut String,
) -> Result<(), Fault> {
    let end = enter(client, store, Key::text(alloc, "carol")?)?;
    let (account, balance) = find(client, store, Key::text(alloc, "carol")?)?;
    Ok(writeln!(lines, "{end:?}, carol has account {account} with {balance}")?)
}

/// Enters the account 9 with 40: one transaction writes to both tables.
fn enter(client: &mut One, store: &mut Store, owner: Key<Global>) -> Result<End, Fault> {
    client.begin(store)?;
    client.put(store, OWNERS, owner, 9.into())?;
    add(client, store, 9, 40)?;
    client.commit(store)
}

/// The account of an owner, and its balance.
fn find(client: &mut One, store: &mut Store, owner: Key<Global>) -> Result<(i64, i64), Fault> {
    client.begin(store)?;
    let account = number(client, store, OWNERS, &owner)?;
    let balance = balance(client, store, account.unsigned_abs())?;
    client.commit(store)?;
    Ok((account, balance))
}

/// Two sessions count on one account in turn, and the log is folded after every thousand commits.
fn count(a: &mut One, b: &mut One, store: &mut Store, lines: &mut String) -> Result<(), Fault> {
    for turn in 1..=1_250u64 {
        let _counted = a.transact(store, 3, |a, store| add(a, store, 1, 1))?;
        let _counted = b.transact(store, 3, |b, store| add(b, store, 1, 1))?;
        if turn % 500 == 0 {
            let (folded, left) = (store.checkpoint()?, store.log().len());
            writeln!(lines, "{folded} rows are folded, {left} are left")?;
        }
    }
    Ok(())
}

/// A range, with an own write over it, which is given up then.
fn range(client: &mut One, store: &mut Store, lines: &mut String) -> Result<(), Fault> {
    client.begin(store)?;
    add(client, store, 3, 5)?;
    let (lower, upper) = (Key::Num(1), Key::Num(7));
    let rows = client.scan(store, ACCOUNTS, Some(&lower), Some(&upper))?;
    for (key, row) in rows.as_slice() {
        writeln!(lines, "{key}: {row}")?;
    }
    let _known = client.abandon(store)?;
    Ok(())
}

/// What is refused says why, and leaves the transaction as it was.
fn refusals(
    alloc: Global,
    client: &mut One,
    store: &mut Store,
    lines: &mut String,
) -> Result<(), Fault> {
    let none = client.commit(store).err();
    client.begin(store)?;
    let twice = client.begin(store).err();
    let name = Key::text(alloc, "seven")?;
    let kind = client.get(store, ACCOUNTS, &name).err();
    let (lower, upper) = (Key::Num(7), Key::Num(1));
    let empty = client
        .scan(store, ACCOUNTS, Some(&lower), Some(&upper))
        .err();
    let table = client.get(store, 2, &Key::Num(7)).err();
    let _known = client.abandon(store)?;
    client.close(store)?;
    let closed = client.begin(store).err();
    let missing = Client::new(alloc, 3).begin(store).err();
    let all = [none, twice, kind, empty, table, closed, missing];
    for fault in all.into_iter().flatten() {
        writeln!(lines, "{fault}")?;
    }
    Ok(())
}

/// The store ends, and another one goes on from its rows, with numbers that begin anew.
fn go_on(alloc: Global, store: Box<Store>, lines: &mut String) -> Result<(), Fault> {
    let base = Box::into_inner(store).into_base()?;
    let next = Core::resume(alloc, schema(alloc)?, 2, 8, base.renumbered(), 0)?;
    let mut next = Box::new(alloc, next)?;
    deposit(alloc, &mut next, lines)
}

/// A new client of the session 1, which was closed, adds to an account.
fn deposit(alloc: Global, store: &mut Store, lines: &mut String) -> Result<(), Fault> {
    let mut alice = Client::new(alloc, 1);
    let end = alice.transact(store, 1, |alice, store| add(alice, store, 7, 8))?;
    alice.begin(store)?;
    let sum = balance(&mut alice, store, 7)?;
    let _known = alice.abandon(store)?;
    Ok(writeln!(
        lines,
        "{end:?} from row {} on, account 7 has {sum}",
        store.base().place()
    )?)
}
