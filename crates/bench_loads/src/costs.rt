//! What a transaction costs by one owner: loads of like transactions on a core, ended in each of four ways, and the same on a bare map.
use crate::bare::Bare;
use crate::by_owner::{Ending, Owner};
use crate::dice::Dice;
use crate::loads::{Load, Shape};
use occ_types::Fault;
use std::alloc::{Allocator, Global};
use std::io;
use std::rt::Runtime;
use test_tools::{Plan, Refusing};

/// How many rounds are done where memory is counted.
const COUNTED: u64 = 1_000;
/// How many rows a table has at most where memory is counted, which costs the same with more.
const COUNTED_ROWS: u64 = 10_000;

/// On what rounds are done.
#[derive(Clone, Copy)]
enum Ground {
    /// A core, whose transactions end so.
    Core(Ending),
    /// A core, whose transactions end in one step, and whose log is folded.
    Folded,
    /// A bare map.
    Map,
}

/// So many rounds of a load, by one owner.
#[derive(Clone, Copy)]
pub(crate) struct Rounds {
    load: Load,
    ground: Ground,
    count: u64,
}

impl Ground {
    /// The one that a word names.
    fn named(word: &str) -> Option<Ground> {
        match word {
            "folded" => Some(Ground::Folded),
            "bare" => Some(Ground::Map),
            _ => {
                let ending = Ending::named(word)?;
                Some(Ground::Core(ending))
            }
        }
    }
}

impl Rounds {
    /// The rounds that three words tell.
    pub(crate) fn told(load: &str, ground: &str, count: &str) -> Option<Rounds> {
        let load = Load::named(load)?;
        let ground = Ground::named(ground)?;
        match count.parse::<u64>() {
            Ok(count) => Some(Rounds {
                load,
                ground,
                count,
            }),
            Err(_) => None,
        }
    }

    /// Does them. The answer is how many transactions committed; on a bare map it is the sum of what was read, so that the reads are done.
    fn play<A: Allocator + Copy>(self, alloc: A) -> Result<i64, Fault> {
        let shape = self.load.shape();
        match self.ground {
            Ground::Core(ending) => committed(alloc, shape, ending, self.count, false),
            Ground::Folded => committed(alloc, shape, Ending::Serial, self.count, true),
            Ground::Map => read_bare(alloc, shape, self.count),
        }
    }
}

fn committed<A: Allocator + Copy>(
    alloc: A,
    shape: Shape,
    ending: Ending,
    rounds: u64,
    folds: bool,
) -> Result<i64, Fault> {
    let done = Owner::open(alloc, shape)?.play(ending, rounds, folds)?;
    Ok(i64::try_from(done).unwrap_or(i64::MAX))
}

fn read_bare<A: Allocator + Copy>(alloc: A, shape: Shape, rounds: u64) -> Result<i64, Fault> {
    let mut map = Bare::fill(alloc, &shape)?;
    let mut dice = Dice::new();
    let mut sum = 0i64;
    for _ in 0..rounds {
        let read = map.turn(&shape, shape.first(&mut dice))?;
        sum = sum.wrapping_add(read);
    }
    Ok(sum)
}

/// Does some rounds, and prints what they answer. Whether they could be done.
pub(crate) fn tell_rounds<R: Runtime>(rt: &R, alloc: Global, rounds: Rounds) -> io::Result<bool> {
    match rounds.play(alloc) {
        Ok(done) => {
            println!(rt; "{done}")?;
            Ok(true)
        }
        Err(fault) => tell_fault(rt, fault),
    }
}

/// Prints what each load costs in memory, by each way.
pub(crate) fn tell_all<R: Runtime>(rt: &R, alloc: Global) -> io::Result<bool> {
    for load in Load::ALL {
        for ending in Ending::ALL {
            if !tell(rt, alloc, load, ending)? {
                return Ok(false);
            }
        }
    }
    Ok(true)
}

/// Prints what a load costs in memory, by one way.
fn tell<R: Runtime>(rt: &R, alloc: Global, load: Load, ending: Ending) -> io::Result<bool> {
    let (name, by) = (load.name(), ending.name());
    match counted(alloc, load.shape(), ending) {
        Ok(cost) => {
            print!(rt; "{name} by {by}: ")?;
            tell_cost(rt, cost)
        }
        Err(fault) => tell_fault(rt, fault),
    }
}

fn tell_cost<R: Runtime>(rt: &R, cost: Cost) -> io::Result<bool> {
    let (committed, transactions) = (cost.committed, cost.transactions);
    print!(rt; "{committed} of {transactions} commit, ")?;
    let (requests, bytes) = (cost.requests, cost.bytes);
    println!(rt; "{requests} requests, {bytes} bytes stay")?;
    Ok(true)
}

fn tell_fault<R: Runtime>(rt: &R, fault: Fault) -> io::Result<bool> {
    eprintln!(rt; "{fault:?}")?;
    Ok(false)
}

/// What some transactions of a load cost together.
#[derive(Clone, Copy)]
struct Cost {
    transactions: u64,
    committed: u64,
    requests: u64,
    bytes: u64,
}

/// What the rounds where memory is counted cost.
fn counted(alloc: Global, shape: Shape, ending: Ending) -> Result<Cost, Fault> {
    let lent = Refusing::new(alloc, Plan::Nothing);
    let rows = shape.rows.min(COUNTED_ROWS);
    counted_by(&lent, Shape { rows, ..shape }, ending)
}

/// The same by an allocator that counts.
fn counted_by(lent: &Refusing<Global>, shape: Shape, ending: Ending) -> Result<Cost, Fault> {
    let mut owner = Owner::open(lent, shape)?;
    played(lent, &mut owner, shape, ending)
}

/// The same by an owner whose core has its rows.
fn played<A: Allocator + Copy>(
    lent: &Refusing<Global>,
    owner: &mut Owner<A>,
    shape: Shape,
    ending: Ending,
) -> Result<Cost, Fault> {
    let (requests, bytes) = (lent.requests(), lent.bytes_out());
    let committed = owner.play(ending, COUNTED, false)?;
    Ok(Cost {
        transactions: COUNTED.saturating_mul(shape.together as u64),
        committed,
        requests: lent.requests().saturating_sub(requests),
        bytes: lent.bytes_out().saturating_sub(bytes),
    })
}
