//! A store with its sessions and lanes, on which scenarios and loads are played.
ghost use Rattle.std.specs.Prelude.{◌≡◌};

use crate::clients::{begin, close_once, hand_in, hand_in_alone, put};
use crate::plays::{Scene, play};
use occ_audit::audit_rows;
use occ_store::{
    AlwaysGo, Base, Frame, Gate, Group, Lane, Marks, Name, Op, Served, Session, Store, Tables,
};
use occ_types::{Cell, Fault, Key, KeyKind, Kind, Refused, Row, Schema};
use std::alloc::Allocator;
use std::marker::Brand;
use std::sync::Wait;
use std::thread::Threads;
use std::time::Clock;
use test_tools::Plan;

/// How a store is opened.
#[derive(Clone, Copy)]
pub(crate) struct Settings {
    /// How many sessions it has.
    pub(crate) sessions: usize,
    /// How many items each session's queue holds.
    pub(crate) capacity: usize,
    /// How many write sets it keeps for testing.
    pub(crate) keep: usize,
    /// Into how many groups its lanes are dealt.
    pub(crate) groups: usize,
    /// The counter that it goes on with; it begins empty where this is 0.
    pub(crate) counter: u64,
    /// The last number of its first session in the base that it goes on from.
    pub(crate) last: u64,
    /// Whether its opening finds no memory at one of its requests, and is tried again.
    pub(crate) starved: bool,
}

/// A store with its sessions and lanes.
type Opened<N, A> = (Store<N, A>, Vec<Session<N, A>, A>, Vec<Lane<N, A>, A>);

/// A store with all that was opened with it.
#[derive(Drop)]
pub(crate) struct Desk<N: Name, A: Allocator + Copy> {
    /// What is asked for memory.
    pub(crate) alloc: A,
    /// The store.
    pub(crate) store: Store<N, A>,
    /// Its sessions, the first one first.
    pub(crate) sessions: Vec<Session<N, A>, A>,
    /// Its lanes, dealt out in turn.
    pub(crate) groups: Vec<Group<N, A>, A>,
}

/// Plays a scenario on a new store of one table, whose keys are numbers and whose rows are one number. The first step that was answered
/// otherwise, with its answer.
pub(crate) fn played<A: Allocator + Copy + Send + Sync, R: Threads + Wait + Clock + Sync>(
    rt: &R,
    alloc: A,
    settings: Settings,
    scene: Scene<'_>,
) -> Result<Option<String>, Fault> {
    let schema = Schema::of(alloc, &[("t", KeyKind::Num, &[Kind::Int])])?;
    if settings.starved {
        scene.refuse();
    }
    let frame = framed(alloc, schema, settings)?;
    played_on::<Brand, A, R>(rt, alloc, frame, settings.groups, scene)
}

// The frame of a store, which begins empty or goes on.
fn framed<A: Allocator + Copy>(
    alloc: A,
    schema: Schema<A>,
    settings: Settings,
) -> Result<Frame<A>, Fault> {
    if settings.counter == 0 {
        empty(alloc, schema, settings)
    } else {
        resumed(alloc, schema, settings)
    }
}

// The frame of an empty store. Where it finds no memory it is made of the schema that came back.
fn empty<A: Allocator + Copy>(
    alloc: A,
    schema: Schema<A>,
    settings: Settings,
) -> Result<Frame<A>, Fault> {
    let Settings {
        sessions,
        capacity,
        keep,
        ..
    } = settings;
    match Frame::new(alloc, schema, sessions, 0, capacity, keep) {
        Ok(frame) => Ok(frame),
        Err(refused) => {
            let frame = Frame::new(alloc, refused.value, sessions, 0, capacity, keep)?;
            Ok(frame)
        }
    }
}

// The frame of a store that goes on. Where it finds no memory it is made of the schema and the base that came back.
fn resumed<A: Allocator + Copy>(
    alloc: A,
    schema: Schema<A>,
    settings: Settings,
) -> Result<Frame<A>, Fault> {
    let base = match left(alloc, settings) {
        Ok(base) => base,
        Err(_fault) => left(alloc, settings)?,
    };
    match resume(alloc, schema, base, settings) {
        Ok(frame) => Ok(frame),
        Err(refused) => {
            let (schema, base) = refused.value;
            resume_again(alloc, schema, base, settings)
        }
    }
}

// A base without rows, in which the first session has its last number.
fn left<A: Allocator + Copy>(alloc: A, settings: Settings) -> Result<Base<A>, Fault> {
    let tables = Tables::new(alloc, 1)?;
    let mut numbers = Marks::new(alloc, settings.sessions)?;
    if settings.sessions > 0 {
        numbers.set(1, settings.last);
    }
    Ok(Base::from_parts(tables, numbers, 1))
}

// The frame of a store that goes on from a base.
fn resume<A: Allocator + Copy>(
    alloc: A,
    schema: Schema<A>,
    base: Base<A>,
    settings: Settings,
) -> Result<Frame<A>, Refused<(Schema<A>, Base<A>)>> {
    let Settings {
        sessions,
        capacity,
        keep,
        counter,
        ..
    } = settings;
    Frame::resume(alloc, schema, sessions, 0, capacity, keep, base, counter)
}

// The same where that was the second try.
fn resume_again<A: Allocator + Copy>(
    alloc: A,
    schema: Schema<A>,
    base: Base<A>,
    settings: Settings,
) -> Result<Frame<A>, Fault> {
    match resume(alloc, schema, base, settings) {
        Ok(frame) => Ok(frame),
        Err(refused) => Err(refused.fault),
    }
}

// Plays on the store of a frame.
fn played_on<
    N: Name + Send + Sync,
    A: Allocator + Copy + Send + Sync,
    R: Threads + Wait + Clock + Sync,
>(
    rt: &R,
    alloc: A,
    frame: Frame<A>,
    groups: usize,
    scene: Scene<'_>,
) -> Result<Option<String>, Fault>
    requires named { frame.named ≡ N.named }
    requires ledger { (frame.ledger ≡ N.name) × (frame.parts ≡ N.parts) }
{
    let Ok((store, sessions, lanes)) = opened::<N, A>(frame) else {
        return Err(Fault::Memory);
    };
    let mut desk = Desk {
        alloc,
        store,
        sessions,
        groups: Vec::new(alloc),
    };
    deal_and_play(rt, &mut desk, lanes, groups, scene)
}

// The store of a frame. Where it finds no memory it is opened of the frame that came back.
fn opened<N: Name, A: Allocator + Copy>(frame: Frame<A>) -> Result<Opened<N, A>, Fault>
    requires named { frame.named ≡ N.named }
    requires ledger { (frame.ledger ≡ N.name) × (frame.parts ≡ N.parts) }
{
    match Store::<N, A>::open(frame) {
        Ok((store, _workers, sessions, lanes)) => Ok((store, sessions, lanes)),
        Err(refused) => opened_again::<N, A>(refused.value),
    }
}

// The same where that was the second try.
fn opened_again<N: Name, A: Allocator + Copy>(frame: Frame<A>) -> Result<Opened<N, A>, Fault>
    requires named { frame.named ≡ N.named }
    requires ledger { (frame.ledger ≡ N.name) × (frame.parts ≡ N.parts) }
{
    match Store::<N, A>::open(frame) {
        Ok((store, _workers, sessions, lanes)) => Ok((store, sessions, lanes)),
        Err(refused) => Err(refused.fault),
    }
}

// Deals the lanes into so many groups, and plays.
fn deal_and_play<
    N: Name + Send + Sync,
    A: Allocator + Copy + Send + Sync,
    R: Threads + Wait + Clock + Sync,
>(
    rt: &R,
    desk: &mut Desk<N, A>,
    lanes: Vec<Lane<N, A>, A>,
    groups: usize,
    scene: Scene<'_>,
) -> Result<Option<String>, Fault> {
    scene.refusing.follow(Plan::Nothing);
    desk.deal(lanes, groups)?;
    play(rt, desk, scene)
}

/// The lane of a session, which was dealt out with the others.
pub(crate) fn lane_of<N: Name, A: Allocator + Copy>(
    groups: &mut [Group<N, A>],
    session: usize,
) -> Result<&mut Lane<N, A>, Fault> {
    let (dealt, count) = (session.wrapping_sub(1), groups.len());
    let place = dealt.checked_rem(count).unwrap_or(0);
    let round = dealt.checked_div(count).unwrap_or(0);
    match groups.get_mut(place) {
        Some(group) => match group.lanes.as_mut_slice().get_mut(round) {
            Some(lane) => Ok(lane),
            None => Err(Fault::NoSession),
        },
        None => Err(Fault::NoSession),
    }
}

/// A lane more in the group at a place.
pub(crate) fn push_lane<N: Name, A: Allocator + Copy>(
    groups: &mut [Group<N, A>],
    place: usize,
    lane: Lane<N, A>,
) -> Result<(), Fault> {
    if let Some(group) = groups.get_mut(place) {
        group.lanes.push(lane)?;
    }
    Ok(())
}

/// The row that most transactions put.
pub(crate) fn seven<A: Allocator>() -> Row<A> {
    Row::from_cell(Cell::Int(7))
}

impl<N: Name, A: Allocator + Copy> Desk<N, A> {
    // Deals lanes in turn into so many groups.
    fn deal(&mut self, lanes: Vec<Lane<N, A>, A>, count: usize) -> Result<(), Fault> {
        for _ in 0..count {
            self.groups.push(Group::new(Vec::new(self.alloc)))?;
        }
        for lane in lanes {
            let dealt = lane.session().wrapping_sub(1);
            let place = dealt.checked_rem(count).unwrap_or(0);
            push_lane(&mut self.groups, place, lane)?;
        }
        Ok(())
    }

    /// A session.
    pub(crate) fn session(&mut self, session: usize) -> Result<&mut Session<N, A>, Fault> {
        let sessions = self.sessions.as_mut_slice();
        match sessions.get_mut(session.wrapping_sub(1)) {
            Some(session) => Ok(session),
            None => Err(Fault::NoSession),
        }
    }

    /// A session hands in a transaction that puts 7 under the keys from the first to the last. Its number.
    pub(crate) fn put<R: Wait>(
        &mut self,
        rt: &R,
        session: usize,
        first: u64,
        last: u64,
    ) -> Result<u64, Fault> {
        let session = self.session(session)?;
        let _start = begin(session)?;
        for key in first..=last {
            put(session, key, 7)?;
        }
        hand_in(rt, session)
    }

    /// The open transaction of a session deletes a key, and is handed in. Its number.
    pub(crate) fn delete<R: Wait>(
        &mut self,
        rt: &R,
        session: usize,
        key: u64,
    ) -> Result<u64, Fault> {
        let session = self.session(session)?;
        session.delete(0, Key::Num(key))?;
        hand_in(rt, session)
    }

    /// A session hands in one operation, which puts 7 under a key, to run alone. Its number.
    pub(crate) fn put_alone<R: Wait>(
        &mut self,
        rt: &R,
        session: usize,
        key: u64,
    ) -> Result<u64, Fault> {
        let mut operations = Vec::new(self.alloc);
        operations.push(Op::Put {
            table: 0,
            key: Key::Num(key),
            row: seven(),
        })?;
        hand_in_alone(rt, self.session(session)?, operations)
    }

    /// A session closes. The number of its mark.
    pub(crate) fn close<R: Wait>(&mut self, rt: &R, session: usize) -> Result<u64, Fault> {
        close_once(rt, self.session(session)?)
    }

    /// Serves the lane of a session once.
    pub(crate) fn serve<R: Wait, G: Gate>(
        &mut self,
        rt: &R,
        session: usize,
        gate: &G,
    ) -> Result<Served, Fault> {
        lane_of(&mut self.groups, session)?.serve_one(rt, &self.store, gate)
    }

    /// The lane of a session goes on with what it has left.
    pub(crate) fn resume<R: Wait>(&mut self, rt: &R, session: usize) -> Result<Served, Fault> {
        lane_of(&mut self.groups, session)?.resume(rt, &self.store, &AlwaysGo)
    }

    /// Whether serial replay explains the book of the store.
    pub(crate) fn is_right<R: Wait>(&self, rt: &R) -> Result<bool, Fault> {
        let mut observer = self.store.observer(rt);
        let book = self.store.book(rt, &mut observer)?;
        audit_rows(self.alloc, &book.view())
    }
}
