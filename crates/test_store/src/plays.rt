//! Plays of a scenario on a store: each step is taken, and its answer compared to the one that is wanted.
use crate::accounts::{end, end_short};
use crate::answers::{
    account_text, last_text, looked_text, number_text, or_fault, page_text, queued_text,
    reading_text, row_text, served_text, word_text,
};
use crate::clients::{begin, checkpoint, is_followed, number, poll};
use crate::desks::{Desk, lane_of};
use crate::gates::{Looks, StopOnce, Together};
use crate::loads::play_load;
use crate::steps::Step;
use occ_store::{AlwaysGo, Lane, Name, Point, Served, Store, run_validators};
use occ_types::Fault;
use std::alloc::{AllocError, Allocator, Global};
use std::sync::Wait;
use std::thread::Threads;
use std::time::Clock;
use test_tools::{Plan, Refusing};

/// A play of a scenario.
#[derive(Clone, Copy)]
pub(crate) struct Scene<'a> {
    /// Its steps, each a line with the answers that are wanted.
    pub(crate) steps: &'a str,
    /// Which of several answers is wanted, counted from 0.
    pub(crate) way: usize,
    /// What the store asks for memory.
    pub(crate) refusing: &'a Refusing<Global>,
    /// Which request is refused of what is starved, counted from 0.
    pub(crate) place: u64,
    /// What texts are made of.
    pub(crate) texts: Global,
}

impl Scene<'_> {
    /// From now on the request at the place of the play is refused, counted from here.
    pub(crate) fn refuse(self) {
        let place = self.refusing.requests().saturating_add(self.place);
        self.refusing.follow(Plan::Once(place));
    }
}

/// Plays a scenario. The first step that was answered otherwise, with its answer.
pub(crate) fn play<
    N: Name + Send + Sync,
    A: Allocator + Copy + Send + Sync,
    R: Threads + Wait + Clock + Sync,
>(rt: &R, desk: &mut Desk<N, A>, scene: Scene<'_>) -> Result<Option<String>, Fault> {
    for line in scene.steps.lines() {
        let (step, wanted) = line.split_once(": ").unwrap_or((line, ""));
        let said = answer(rt, desk, scene, step)?;
        if !is_wanted(wanted, scene.way, said.as_str()) {
            let otherwise = format!(in scene.texts; "{step} answered {said}")?;
            return Ok(Some(otherwise));
        }
    }
    Ok(None)
}

// Whether an answer is that of a way, or the last one where there are fewer.
fn is_wanted(answers: &str, way: usize, said: &str) -> bool {
    let mut wanted = false;
    for answer in answers.split(" / ").take(way.saturating_add(1)) {
        wanted = answer == said;
    }
    wanted
}

// What a step answers.
fn answer<
    N: Name + Send + Sync,
    A: Allocator + Copy + Send + Sync,
    R: Threads + Wait + Clock + Sync,
>(rt: &R, desk: &mut Desk<N, A>, scene: Scene<'_>, step: &str) -> Result<String, AllocError> {
    let starved = step.strip_prefix("starved ");
    let Some(step) = Step::told(starved.unwrap_or(step)) else {
        return word_text(scene.texts, "that is no step");
    };
    if starved.is_some() {
        scene.refuse();
    }
    let said = take(rt, desk, scene.texts, step);
    scene.refusing.follow(Plan::Nothing);
    or_fault(scene.texts, said)
}

// Takes a step. What it answers.
fn take<N: Name + Send + Sync, A: Allocator + Copy + Send + Sync, R: Threads + Wait + Clock + Sync>(
    rt: &R,
    desk: &mut Desk<N, A>,
    texts: Global,
    step: Step,
) -> Result<String, Fault> {
    match step {
        Step::Put(session, first, last) => queued_text(texts, desk.put(rt, session, first, last)),
        Step::Alone(session, key) => queued_text(texts, desk.put_alone(rt, session, key)),
        Step::Close(session) => queued_text(texts, desk.close(rt, session)),
        Step::Serve(session) => served_text(texts, desk.serve(rt, session, &AlwaysGo)),
        Step::Stop(session, point) => served_text(texts, stop(rt, desk, session, point)),
        Step::Look(session) => look(rt, desk, texts, session),
        Step::Resume(session) => served_text(texts, desk.resume(rt, session)),
        Step::ServeAllBut(session, point) => serve_all_but(rt, desk, texts, session, point),
        Step::ServeTogether(point) => serve_together(rt, desk, texts, point),
        Step::Load(seed) => right_text(texts, play_load(rt, desk, seed)),
        Step::Row(session, number) => row(rt, desk, texts, session, number),
        Step::Lane(session) => lane(desk, texts, session),
        Step::Judged(session) => judged(desk, texts, session),
        Step::Poll(session) => last(desk, texts, session),
        Step::Read(session, key) => read(rt, desk, texts, session, key),
        Step::Page(session, last) => page(rt, desk, texts, session, last),
        Step::Delete(session, key) => queued_text(texts, desk.delete(rt, session, key)),
        Step::Fold => fold(rt, desk, texts),
        Step::Audit => right_text(texts, desk.is_right(rt)),
        Step::End => account_text(texts, end(rt, desk)),
        Step::EndShort => account_text(texts, end_short(rt, desk)),
    }
}

// Serves the lane of a session once, by a gate that stops it at a point.
fn stop<N: Name, A: Allocator + Copy, R: Wait>(
    rt: &R,
    desk: &mut Desk<N, A>,
    session: usize,
    point: Point,
) -> Result<Served, Fault> {
    let gate = StopOnce::new(session, point);
    desk.serve(rt, session, &gate)
}

// Serves the lane of a session once, by a gate that takes the lock at each point.
fn look<N: Name, A: Allocator + Copy, R: Wait>(
    rt: &R,
    desk: &mut Desk<N, A>,
    texts: Global,
    session: usize,
) -> Result<String, Fault> {
    let lane = lane_of(&mut desk.groups, session)?;
    let (came, points) = serve_looking(rt, &desk.store, lane);
    looked_text(texts, came, points)
}

// The same of a lane, with how many points it passed.
fn serve_looking<N: Name, A: Allocator + Copy, R: Wait>(
    rt: &R,
    store: &Store<N, A>,
    lane: &mut Lane<N, A>,
) -> (Result<Served, Fault>, u64) {
    let gate = Looks::at(rt, store);
    let came = lane.serve_one(rt, store, &gate);
    (came, gate.passed())
}

// Serves all groups in threads, by a gate that stops a session at a point.
fn serve_all_but<
    N: Name + Send + Sync,
    A: Allocator + Copy + Send + Sync,
    R: Threads + Wait + Clock + Sync,
>(
    rt: &R,
    desk: &mut Desk<N, A>,
    texts: Global,
    session: usize,
    point: Point,
) -> Result<String, Fault> {
    let gate = StopOnce::new(session, point);
    over_text(
        texts,
        run_validators(rt, &desk.store, &mut desk.groups, &gate),
    )
}

// Serves all groups in threads, by a gate that holds each of two sessions at a point until the other has come there.
fn serve_together<
    N: Name + Send + Sync,
    A: Allocator + Copy + Send + Sync,
    R: Threads + Wait + Clock + Sync,
>(rt: &R, desk: &mut Desk<N, A>, texts: Global, point: Point) -> Result<String, Fault> {
    let gate = Together::at(rt, point);
    over_text(
        texts,
        run_validators(rt, &desk.store, &mut desk.groups, &gate),
    )
}

// The fault that a group met, where one did.
fn over_text(texts: Global, fault: Option<Fault>) -> Result<String, Fault> {
    match fault {
        Some(fault) => Err(fault),
        None => Ok(word_text(texts, "no fault")?),
    }
}

// How the row of a session's transaction stands, as one sees it who comes to look.
fn row<N: Name, A: Allocator + Copy, R: Wait>(
    rt: &R,
    desk: &Desk<N, A>,
    texts: Global,
    session: usize,
    number: u64,
) -> Result<String, Fault> {
    let mut observer = desk.store.observer(rt);
    let standing = desk.store.row(rt, &mut observer, session, number);
    row_text(texts, standing)
}

fn lane<N: Name, A: Allocator + Copy>(
    desk: &mut Desk<N, A>,
    texts: Global,
    session: usize,
) -> Result<String, Fault> {
    let closed = lane_of(&mut desk.groups, session)?.is_closed();
    Ok(word_text(texts, if closed { "closed" } else { "open" })?)
}

fn judged<N: Name, A: Allocator + Copy>(
    desk: &mut Desk<N, A>,
    texts: Global,
    session: usize,
) -> Result<String, Fault> {
    let judged = lane_of(&mut desk.groups, session)?.judged();
    number_text(texts, judged)
}

fn last<N: Name, A: Allocator + Copy>(
    desk: &mut Desk<N, A>,
    texts: Global,
    session: usize,
) -> Result<String, Fault> {
    let (number, status, tn) = poll(desk.session(session)?);
    last_text(texts, number, status, tn)
}

// Begins a transaction, and reads a key in it.
fn read<N: Name, A: Allocator + Copy, R: Wait>(
    rt: &R,
    desk: &mut Desk<N, A>,
    texts: Global,
    session: usize,
    key: u64,
) -> Result<String, Fault> {
    let begun = begin(desk.session(session)?)?;
    let sessions = desk.sessions.as_mut_slice();
    let number = match sessions.get_mut(session.wrapping_sub(1)) {
        Some(session) => number(rt, &desk.store, session, key)?,
        None => None,
    };
    reading_text(texts, number, begun)
}

// Begins a transaction, and reads a page of one row in it.
fn page<N: Name, A: Allocator + Copy, R: Wait>(
    rt: &R,
    desk: &mut Desk<N, A>,
    texts: Global,
    session: usize,
    last: bool,
) -> Result<String, Fault> {
    let _start = begin(desk.session(session)?)?;
    let sessions = desk.sessions.as_mut_slice();
    match sessions.get_mut(session.wrapping_sub(1)) {
        Some(session) => page_text(texts, is_followed(rt, &desk.store, session, last)?),
        None => Err(Fault::NoSession),
    }
}

fn fold<N: Name, A: Allocator + Copy, R: Wait>(
    rt: &R,
    desk: &Desk<N, A>,
    texts: Global,
) -> Result<String, Fault> {
    let rows = checkpoint(rt, &desk.store)?;
    number_text(texts, rows as u64)
}

// Whether all is right.
fn right_text(texts: Global, right: Result<bool, Fault>) -> Result<String, Fault> {
    let word = if right? { "right" } else { "wrong" };
    Ok(word_text(texts, word)?)
}
