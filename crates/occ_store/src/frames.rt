//! Frames: a store that has no name yet.
ghost use Rattle.std.specs.Prelude.{◌≡◌, ◌≤◌, ◌<◌, ◌⊎◌, ◌+◌, ◌^◌, ℕ, suc, min, length, IfOk, IfErr, IsOkUnless, None};
ghost use Rattle.std.specs.List.{All};
ghost use Rattle.atomic_table.specs.Seated.{TableId};
ghost use Rattle.occ_types.specs.declared.limits.TheConstants.{MAX_NUMBER};
ghost use Rattle.occ_model.specs.Log.{last_folded};
ghost use Rattle.occ_model.specs.World.{empty_base, resumed};
ghost use Rattle.occ_board.specs.Words.{blank, continued};
ghost use Rattle.occ_board.specs.Rule.{fresh};
ghost use Rattle.occ_store.specs.Frames.{AreSeats, IsPart, AreParts, IsPlace, ArePlaces, HasRoomFor, HaveRoomFor, NumbersHaveRoom};
ghost use Rattle.std.specs.Arc.{arc_value};
ghost use Rattle.occ_types.specs.declared.fault.Fault.TheVariants.{Memory};
ghost use Rattle.occ_core.specs.Resuming.{resume_fault, CannotGoOn};

use crate::parts::{Part, Place};
use crate::publishing::law;
use occ_board::{Board, Publisher, Seat};
use occ_book::Base;
use occ_case::CaseFile;
use occ_core::Core;
use occ_filed::FiledCore;
use occ_history::BlankStory;
use occ_queue::lane_behind;
use occ_types::limits::MAX_NUMBER;
use occ_types::{Fault, Refused, Schema};
use std::alloc::Allocator;
use std::marker::Model;
use std::sync::Arc;
use std::sync::ledger::Blank;

/// All of a store but its name: the core with the file of its cases, the board, the story, and the queue of each session.
#[derive(Drop)]
pub struct Frame<A: Allocator + Copy> {
    pub(crate) alloc: A,
    pub(crate) filed: FiledCore<A>,
    pub(crate) file: Arc<CaseFile<A>, A>,
    pub(crate) publisher: Publisher<A>,
    pub(crate) story: BlankStory<A>,
    pub(crate) places: Vec<Place<A>, A>,
    pub(crate) parts: Vec<Part<A>, A>,
    pub(crate) rows: Blank,
}

impl<A: Allocator + Copy> Model for Frame<A> {
    ghost use Rattle.std.specs.Coded.{codes};
    ghost use Rattle.boxcar.specs.Table.{shelves_coded};
    ghost use Rattle.std.specs.FinMap as finite;
    ghost use Rattle.std.specs.Arc.{arc_value};
    ghost use Rattle.occ_store.specs.Frames.{Framed, named_by, IsFrame};

    ghost Value = { Framed };

    ghost coded = { Prim.hlevel (codes, finite.code, shelves_coded) };

    ghost view = { λ f. record { named = named_by f.filed f.publisher f.story f.places.items f.parts.items; ledger = f.rows.name; parts = f.rows.parts } };

    ghost invariant = { λ f. IsFrame f.filed (arc_value f.file) f.publisher f.places.items f.parts.items f.rows.parts };
}

impl<A: Allocator + Copy> Frame<A> {
    /// The frame of an empty store with these tables and so many sessions, numbered from 1. The first ones are workers, so many as
    /// `workers` says, and all where that is more; each of the others has a queue with room for `capacity` items, or for one where that
    /// is 0. It keeps the last `keep` write sets for testing. Each may be any number that memory has room for. Refused with `Memory`
    /// where there is none for it, and the schema is handed back then.
    pub fn new(
        alloc: A,
        schema: Schema<A>,
        sessions: usize,
        workers: usize,
        capacity: usize,
        keep: usize,
    ) -> Result<Frame<A>, Refused<Schema<A>>>
        ensures settings { IfOk result (λ frame. frame.named.settings ≡ record { schema = schema; sessions = sessions; keep = keep }) }
        ensures empty { IfOk result (λ frame. frame.named.base ≡ empty_base) }
        ensures counter { IfOk result (λ frame. frame.named.counter ≡ 0) }
        ensures workers { IfOk result (λ frame. frame.named.workers ≡ min workers sessions) }
        ensures room { IfOk result (λ frame. All (HasRoomFor capacity) frame.named.lanes) }
        ensures handed_back { IfErr result (λ refused. (refused.value ≡ schema) × (refused.fault ≡ Memory)) }
    {
        let count = schema.tables().len();
        let base = match Base::new(alloc, count, sessions) {
            Ok(base) => base,
            Err(fault) => {
                return Err(Refused {
                    value: schema,
                    fault,
                });
            }
        };
        match Frame::resume(alloc, schema, sessions, workers, capacity, keep, base, 0) {
            Ok(frame) => Ok(frame),
            Err(refused) => {
                let (schema, _base) = refused.value;
                Err(Refused {
                    value: schema,
                    fault: refused.fault,
                })
            }
        }
    }

    /// The frame of a store that goes on from a base, with the transaction counter where it stood: as `new` makes it, but with the rows
    /// of the base, and with each session behind its last number, which its next transaction follows. Until one is over, a poll shows
    /// that last number, without a status.
    ///
    /// Refused as `Core::resume`, and with `Memory` where there is none for the rest. The schema and the base are handed back then.
    pub fn resume(
        alloc: A,
        schema: Schema<A>,
        sessions: usize,
        workers: usize,
        capacity: usize,
        keep: usize,
        base: Base<A>,
        counter: u64,
    ) -> Result<Frame<A>, Refused<(Schema<A>, Base<A>)>>
        ensures settings { IfOk result (λ frame. frame.named.settings ≡ record { schema = schema; sessions = sessions; keep = keep }) }
        ensures base { IfOk result (λ frame. frame.named.base ≡ base.base) }
        ensures counter { IfOk result (λ frame. frame.named.counter ≡ counter) }
        ensures workers { IfOk result (λ frame. frame.named.workers ≡ min workers sessions) }
        ensures room { IfOk result (λ frame. All (HasRoomFor capacity) frame.named.lanes) }
        ensures fits { IfOk result (λ _. resume_fault schema sessions base counter ≡ None) }
        ensures fault { IfErr result (λ refused. (refused.fault ≡ Memory) ⊎ CannotGoOn schema sessions base counter refused.fault) }
        ensures handed_back { IfErr result (λ refused. refused.value ≡ (schema, base)) }
    {
        let Seating {
            publisher,
            story,
            places,
            parts,
        } = match room(alloc, &schema, sessions, workers, capacity, &base) {
            Ok(seating) => seating,
            Err(fault) => {
                return Err(Refused {
                    value: (schema, base),
                    fault,
                });
            }
        };
        let (filed, file) = FiledCore::resume(alloc, schema, sessions, keep, base, counter)?;
        law(&filed);
        let mut publisher = publisher;
        show(&mut publisher, filed.core());
        Ok(Frame {
            alloc,
            filed,
            file,
            publisher,
            story,
            places,
            parts,
            rows: Blank::new(sessions as u64),
        })
    }
}

// What takes memory beside the core: the board, the story, and what becomes of each worker and of each other session.
#[derive(Drop)]
struct Seating<A: Allocator + Copy> {
    publisher: Publisher<A>,
    story: BlankStory<A>,
    places: Vec<Place<A>, A>,
    parts: Vec<Part<A>, A>,
}

// Room for so many sessions, the first of which are so many workers.
fn room<A: Allocator + Copy>(
    alloc: A,
    schema: &Schema<A>,
    sessions: usize,
    workers: usize,
    capacity: usize,
    base: &Base<A>,
) -> Result<Seating<A>, Fault>
    ensures words { IfOk result (λ made. made.publisher.words ≡ blank sessions) }
    ensures count { IfOk result (λ made. length made.places.items + length made.parts.items ≡ sessions) }
    ensures workers { IfOk result (λ made. length made.places.items ≡ min workers sessions) }
    ensures room { IfOk result (λ made. HaveRoomFor capacity made.parts.items) }
    ensures places { IfOk result (λ made. NumbersHaveRoom base.now.base sessions → ArePlaces made.publisher.board schema.now base.now.base 1 made.places.items) }
    ensures parts { IfOk result (λ made. NumbersHaveRoom base.now.base sessions → AreParts made.publisher.board schema.now base.now.base (suc (length made.places.items)) made.parts.items) }
    ensures memory { IsOkUnless result Memory }
{
    let tables = schema.clone()?;
    let tables = Arc::new(alloc, tables)?;
    let story = BlankStory::new(alloc)?;
    let (publisher, seats) = Board::new(alloc, sessions)?;
    let mut seats = seats;
    let hired = first_ones(workers, seats.len());
    let others = seats.split_off(hired)?;
    let places = places(alloc, seats, &tables, base)?;
    let parts = parts(alloc, hired, others, &tables, capacity, base)?;
    Ok(Seating {
        publisher,
        story,
        places,
        parts,
    })
}

// How many of so many sessions are the first ones.
fn first_ones(workers: usize, sessions: usize) -> usize
    ensures is { result ≡ min workers sessions }
    ensures within { result ≤ sessions }
{
    workers.min(sessions)
}

// What becomes of the workers of these seats, which are numbered from 1.
fn places<A: Allocator + Copy>(
    alloc: A,
    seats: Vec<Seat<A>, A>,
    tables: &Arc<Schema<A>, A>,
    base: &Base<A>,
) -> Result<Vec<Place<A>, A>, Fault>
    ensures count { IfOk result (λ made. length made.items ≡ length seats.items) }
    ensures places { IfOk result (λ made. (board : TableId) → AreSeats board 1 seats.items → NumbersHaveRoom base.now.base (length seats.items) → ArePlaces board (arc_value tables.now) base.now.base 1 made.items) }
    ensures memory { IsOkUnless result Memory }
{
    let mut places = Vec::with_capacity(alloc, seats.len())?;
    for seat in seats {
        let session = places.len() + 1;
        let last = lane_begin(base, session);
        places.push(place(session, seat, tables, last)?)?;
    }
    Ok(places)
}

// What becomes of the sessions of these seats, which are numbered behind so many workers.
fn parts<A: Allocator + Copy>(
    alloc: A,
    workers: usize,
    seats: Vec<Seat<A>, A>,
    tables: &Arc<Schema<A>, A>,
    capacity: usize,
    base: &Base<A>,
) -> Result<Vec<Part<A>, A>, Fault>
    requires fits { workers + length seats.items < 2 ^ 64 }
    ensures count { IfOk result (λ made. length made.items ≡ length seats.items) }
    ensures room { IfOk result (λ made. HaveRoomFor capacity made.items) }
    ensures parts { IfOk result (λ made. (board : TableId) → AreSeats board (suc workers) seats.items → NumbersHaveRoom base.now.base (workers + length seats.items) → AreParts board (arc_value tables.now) base.now.base (suc workers) made.items) }
    ensures memory { IsOkUnless result Memory }
{
    let mut parts = Vec::with_capacity(alloc, seats.len())?;
    for seat in seats {
        let session = workers + parts.len() + 1;
        let last = lane_begin(base, session);
        parts.push(part(alloc, session, seat, tables, capacity, last)?)?;
    }
    Ok(parts)
}

// What becomes of the worker of a seat, behind its last number.
fn place<A: Allocator + Copy>(
    session: usize,
    seat: Seat<A>,
    tables: &Arc<Schema<A>, A>,
    last: u64,
) -> Result<Place<A>, Fault>
    requires { last ≤ MAX_NUMBER }
    ensures place { IfOk result (λ made. (board : TableId) → seat ≡ fresh board session → IsPlace board (arc_value tables.now) session last made) }
    ensures memory { IsOkUnless result Memory }
{
    let schema = Arc::try_clone(tables)?;
    Ok(Place {
        session,
        seat,
        schema,
        last,
    })
}

// The number that a session's lane begins behind: the last one that a base has of it. For a number past its limit there is no lane, and
// the core refuses the base.
fn lane_begin<A: Allocator>(base: &Base<A>, session: usize) -> u64
    ensures fits { result ≤ MAX_NUMBER }
    ensures last { last_folded base.now.base session ≤ MAX_NUMBER → result ≡ last_folded base.now.base session }
{
    match base.last(session) {
        Some(last) if last <= MAX_NUMBER => last,
        _ => 0,
    }
}

// What becomes of the session of a seat, behind its last number.
fn part<A: Allocator + Copy>(
    alloc: A,
    session: usize,
    seat: Seat<A>,
    tables: &Arc<Schema<A>, A>,
    capacity: usize,
    last: u64,
) -> Result<Part<A>, Fault>
    requires { last ≤ MAX_NUMBER }
    ensures room { IfOk result (λ made. HasRoomFor capacity made.receiver.lane) }
    ensures part { IfOk result (λ made. (board : TableId) → seat ≡ fresh board session → IsPart board (arc_value tables.now) session last made) }
    ensures memory { IsOkUnless result Memory }
{
    let (sender, receiver) = lane_behind(alloc, capacity.max(1), last)?;
    let schema = Arc::try_clone(tables)?;
    Ok(Part {
        session,
        seat,
        sender,
        receiver,
        schema,
    })
}

// Stores what a board shows of a core that goes on: the counter, and the last number of each session.
fn show<A: Allocator + Copy>(publisher: &mut Publisher<A>, core: &Core<A>)
    requires begun { core.now.world ≡ resumed core.now.world.settings core.now.world.base core.now.world.counter }
    requires blank { publisher.old.words ≡ blank core.now.world.settings.sessions }
    ensures { publisher.new ≡ record publisher.old { words = continued core.now.world.counter (last_folded core.now.world.base) core.now.world.settings.sessions } }
{
    core.law();
    let base = core.base();
    publisher.counter(core.tnc());
    for place in 0..core.sessions() {
        let session = place + 1;
        publisher.resumed(session, base.last(session).unwrap_or(0));
    }
}
