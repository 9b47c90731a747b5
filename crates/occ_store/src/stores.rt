//! The store: what threads share.
ghost use Rattle.std.specs.Prelude.{◌≡◌, ◌≤◌, ◌+◌, suc, [], map, length, vec_len, vec_capacity, IfOk, IfErr, IsOkUnless};
ghost use Rattle.std.specs.Arc.{arc_value};
ghost use Rattle.occ_types.specs.declared.fault.Fault.TheVariants.{Memory};
ghost use Rattle.occ_history.specs.Rule.{visitor};
ghost use Rattle.occ_store.specs.Names.{lane_of};
ghost use Rattle.occ_store.specs.Locked.{IsLocked};
ghost use Rattle.occ_store.specs.Frames.{IsPart, AreParts, IsPlace, ArePlaces, fresh_worker, fresh_session, fresh_lane, workers_from, sessions_from, lanes_from, fresh_workers, fresh_sessions, fresh_lanes, unseeing, seating};
ghost use Rattle.occ_history.specs.History.{Session as SessionParty, Client as ClientParty, Lane as LaneParty};

use crate::frames::Frame;
use crate::lanes::{Lane, unused_lane};
use crate::leases::Turns;
use crate::names::{Cut, FrontOf, Name, OwnStory};
use crate::parts::{Part, Place};
use crate::sessions::Session;
use crate::shared::{Origin, Shared};
use crate::stopping::StopWord;
use crate::workers::{Worker, unused_worker};
use occ_board::Publisher;
use occ_case::CaseFile;
use occ_filed::FiledCore;
use occ_history::Story;
use occ_types::{Fault, Refused};
use std::alloc::Allocator;
use std::marker::PhantomData;
use std::sync::ledger::{Book, Share};
use std::sync::{Arc, Mutex, MutexGuard, Wait};

/// A store, which threads share: the locked state, the file of its cases, the turn of those who take leases, and whether it is stopped.
#[derive(Drop)]
pub struct Store<N: Name, A: Allocator + Copy> {
    pub(crate) shared: Mutex<Shared<N, A>>,
    pub(crate) lease: Mutex<Turns>,
    pub(crate) file: OwnFile<N, A>,
    pub(crate) cut: Cut<N>,
    pub(crate) stop_word: StopWord<N>,
}

/// The file of the cases of a store.
#[derive(Drop)]
pub(crate) struct OwnFile<N: Name, A: Allocator + Copy> {
    cases: Arc<CaseFile<A>, A>,
    _name: PhantomData<N>,
    ghost own_file: { arc_value cases ≡ N.named.file },
}

impl<N: Name, A: Allocator + Copy> OwnFile<N, A> {
    /// The file that the name stands for.
    pub(crate) fn new(cases: Arc<CaseFile<A>, A>) -> OwnFile<N, A>
        requires { arc_value cases ≡ N.named.file }
    {
        OwnFile {
            cases,
            _name: PhantomData,
        }
    }

    /// The cases in it.
    pub(crate) fn cases(&self) -> &CaseFile<A>
        ensures { result.now ≡ N.named.file }
    {
        &self.cases
    }
}

/// What `Store::open` makes: the store, its workers, and the session and the lane of each of the other numbers, the first ones first.
pub type Opened<N, A> = (
    Store<N, A>,
    Vec<Worker<N, A>, A>,
    Vec<Session<N, A>, A>,
    Vec<Lane<N, A>, A>,
);

impl<N: Name, A: Allocator + Copy> Store<N, A> {
    /// Opens the store of a frame, under its name; each session begins behind the last number that the base has of it. Refused
    /// with `Memory` where there is none for the three lists, and the frame is handed back whole.
    pub fn open(frame: Frame<A>) -> Result<Opened<N, A>, Refused<Frame<A>>>
        requires named { frame.named ≡ N.named }
        requires ledger { (frame.ledger ≡ N.name) × (frame.parts ≡ N.parts) }
        ensures workers { IfOk result (λ opened. opened.1.items ≡ fresh_workers N.named) }
        ensures sessions { IfOk result (λ opened. opened.2.items ≡ fresh_sessions N.named) }
        ensures lanes { IfOk result (λ opened. opened.3.items ≡ fresh_lanes N.named) }
        ensures handed_back { IfErr result (λ refused. (refused.value ≡ frame) × (refused.fault ≡ Memory)) }
    {
        let origin = frame.filed.core().base().place() as u64;
        let (mut workers, mut clients, mut lanes) = match room(
            frame.alloc,
            frame.places.len(),
            frame.parts.len(),
        ) {
            Ok(lists) => lists,
            Err(fault) => {
                return Err(Refused {
                    value: frame,
                    fault,
                });
            }
        };
        let Frame {
            alloc,
            filed,
            file,
            publisher,
            story,
            places,
            parts,
            rows,
        } = frame;
        let (rows, mut share) = rows.open::<N>();
        let mut story = Story::named(story);
        hire(alloc, places, &mut story, &mut share, &mut workers);
        seat(
            alloc,
            parts,
            &mut story,
            &mut share,
            &mut clients,
            &mut lanes,
        );
        let origin = Origin::new(origin);
        let store = Store::new(filed, file, publisher, rows, story, origin);
        Ok((store, workers, clients, lanes))
    }

    // That of what a frame was made of, once its places are hired and its parts seated.
    fn new(
        filed: FiledCore<A>,
        file: Arc<CaseFile<A>, A>,
        publisher: Publisher<A>,
        rows: Book<N>,
        story: Story<OwnStory<N>, A>,
        origin: Origin<N>,
    ) -> Store<N, A>
        requires locked { IsLocked N.named filed publisher (rows.total + origin.place) story (visitor story) 0 }
        requires file { arc_value file ≡ N.named.file }
        requires cut { N.parts ≡ N.named.settings.sessions }
    {
        let mut story = story;
        let visitor = story.visitor();
        Store {
            shared: Mutex::new(Shared {
                filed,
                publisher,
                rows,
                story,
                visitor,
                reading: 0,
                origin,
            }),
            lease: Mutex::new(Turns),
            file: OwnFile::new(file),
            cut: Cut::new(),
            stop_word: StopWord::new(),
        }
    }
}

impl<N: Name, A: Allocator + Copy> Store<N, A> {
    /// Waits for the lock, and lends the locked state for as long as the guard lives. What `Shared::law` says holds of it.
    pub fn lock<R: Wait>(&self, rt: &R) -> MutexGuard<'_, Shared<N, A>> {
        self.shared.lock(rt)
    }

    /// The file of the cases.
    pub fn case_file(&self) -> &CaseFile<A>
        ensures { result.now ≡ N.named.file }
    {
        self.file.cases()
    }
}

// The lists of so many workers, and of so many sessions and lanes.
type Lists<N, A> = (
    Vec<Worker<N, A>, A>,
    Vec<Session<N, A>, A>,
    Vec<Lane<N, A>, A>,
);

// Three empty lists with room for so many workers, and for so many sessions and lanes. Refused with `Memory` where there is none for them.
fn room<N: Name, A: Allocator + Copy>(
    alloc: A,
    workers: usize,
    sessions: usize,
) -> Result<Lists<N, A>, Fault>
    ensures empty { IfOk result (λ lists. (lists.0.items ≡ []) × (lists.1.items ≡ []) × (lists.2.items ≡ [])) }
    ensures none { IfOk result (λ lists. (vec_len lists.0 ≡ 0) × (vec_len lists.1 ≡ 0) × (vec_len lists.2 ≡ 0)) }
    ensures room { IfOk result (λ lists. (workers ≤ vec_capacity lists.0) × (sessions ≤ vec_capacity lists.1) × (sessions ≤ vec_capacity lists.2)) }
    ensures memory { IsOkUnless result Memory }
{
    let hired = Vec::with_capacity(alloc, workers)?;
    let clients = Vec::with_capacity(alloc, sessions)?;
    let lanes = Vec::with_capacity(alloc, sessions)?;
    Ok((hired, clients, lanes))
}

// The workers of these places, each with a part of the ledger of its own.
fn hire<N: Name, A: Allocator + Copy>(
    alloc: A,
    places: Vec<Place<A>, A>,
    story: &mut Story<OwnStory<N>, A>,
    share: &mut Share<N>,
    workers: &mut Vec<Worker<N, A>, A>,
)
    requires places { ArePlaces N.named.board N.named.settings.schema N.named.base 1 places.items }
    requires story { story.old ≡ seating 0 }
    requires ledger { (length places.items ≤ share.old.parts) × (share.old.amount ≡ 0) }
    requires empty { (workers.old.items ≡ []) × (vec_len workers.old ≡ 0) }
    requires room { length places.items ≤ vec_capacity workers.old }
    ensures workers { workers.new.items ≡ workers_from N.named (length places.items) }
    ensures story { story.new ≡ seating (length places.items) }
    ensures ledger { (share.new.parts + length places.items ≡ share.old.parts) × (share.new.amount ≡ 0) }
{
    for place in places {
        let front = story.next_session();
        workers.push_reserved(hired(alloc, place, front, share.split_off(1, 0)));
    }
}

// The sessions and the lanes of these parts, which come behind the workers, each lane with a part of the ledger of its own.
fn seat<N: Name, A: Allocator + Copy>(
    alloc: A,
    parts: Vec<Part<A>, A>,
    story: &mut Story<OwnStory<N>, A>,
    share: &mut Share<N>,
    sessions: &mut Vec<Session<N, A>, A>,
    lanes: &mut Vec<Lane<N, A>, A>,
)
    requires parts { AreParts N.named.board N.named.settings.schema N.named.base (suc N.named.workers) parts.items }
    requires lanes { N.named.lanes ≡ map (λ part. part.receiver.lane) parts.items }
    requires story { story.old ≡ seating N.named.workers }
    requires ledger { (length parts.items ≤ share.old.parts) × (share.old.amount ≡ 0) }
    requires empty { (sessions.old.items ≡ []) × (lanes.old.items ≡ []) }
    requires none { (vec_len sessions.old ≡ 0) × (vec_len lanes.old ≡ 0) }
    requires room { (length parts.items ≤ vec_capacity sessions.old) × (length parts.items ≤ vec_capacity lanes.old) }
    ensures sessions { sessions.new.items ≡ sessions_from N.named (length parts.items) }
    ensures lanes { lanes.new.items ≡ lanes_from N.named (length parts.items) }
    ensures story { story.new ≡ seating (N.named.workers + length parts.items) }
{
    for part in parts {
        let front = story.next_session();
        let fronts = story.client_and_lane(front);
        let (session, lane) = named(alloc, part, fronts, share.split_off(1, 0));
        sessions.push_reserved(session);
        lanes.push_reserved(lane);
    }
}

// The worker of a place.
fn hired<N: Name, A: Allocator + Copy>(
    alloc: A,
    place: Place<A>,
    front: FrontOf<N>,
    share: Share<N>,
) -> Worker<N, A>
    requires front { front ≡ unseeing (SessionParty place.session) }
    requires place { IsPlace N.named.board N.named.settings.schema place.session place.last place }
    requires share { (share.parts ≡ 1) × (share.amount ≡ 0) }
    ensures { result ≡ fresh_worker N.named place.session place.last }
{
    let Place {
        session,
        seat,
        schema,
        last,
    } = place;
    unused_worker(alloc, session, schema, seat, last, front, share)
}

// The session of a part, and its lane.
fn named<N: Name, A: Allocator + Copy>(
    alloc: A,
    part: Part<A>,
    fronts: (FrontOf<N>, FrontOf<N>),
    share: Share<N>,
) -> (Session<N, A>, Lane<N, A>)
    requires fronts { fronts ≡ (unseeing (ClientParty part.session), unseeing (LaneParty part.session)) }
    requires part { IsPart N.named.board N.named.settings.schema part.session part.receiver.before part }
    requires lane { part.receiver.lane ≡ lane_of N.named part.session }
    requires share { (share.parts ≡ 1) × (share.amount ≡ 0) }
    ensures session { result.0 ≡ fresh_session N.named part.session part.receiver.before }
    ensures lane { result.1 ≡ fresh_lane N.named part.session part.receiver.before }
{
    let Part {
        session,
        seat,
        sender,
        receiver,
        schema,
    } = part;
    let (own, lanes) = fronts;
    let client = Session::new(alloc, session, schema, seat, sender, own);
    (client, unused_lane(session, receiver, lanes, share))
}
