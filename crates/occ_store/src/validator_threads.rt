//! Validators in threads: one for each group of lanes.
ghost use Rattle.std.specs.Prelude.{◌≡◌, ℕ, map};
ghost use Rattle.occ_types.specs.Schema.{first_fault};
ghost use Rattle.occ_store.specs.Serving.{IsRun, AreRun};

use crate::names::Name;
use crate::serving::Gate;
use crate::stores::Store;
use crate::validators::Group;
use occ_types::Fault;
use std::alloc::Allocator;
use std::snapshot::Snapshot;
use std::sync::Wait;
use std::sync::atomic::{AtomicUsize, Ordering};
use std::thread;
use std::thread::{Promise, Scope, Threads};
use std::time::Clock;

/// Serves each group in a thread of its own, as `Group::serve` does, until all lanes are closed, were stopped or met a fault, or the store
/// is stopped. The lanes stay where they are. A thread that can't be started counts as a want of memory of its group, whose lanes are not
/// served. The answer is the fault of the first group, in order, that met one; each group tells its own, and whether it was stopped.
pub fn run_validators<
    N: Name + Send + Sync,
    A: Allocator + Copy + Send + Sync,
    G: Gate + Sync,
    R: Threads + Wait + Clock + Sync,
>(rt: &R, store: &Store<N, A>, groups: &mut [Group<N, A>], gate: &G) -> Option<Fault>
    ensures fault { result ≡ first_fault (map (λ group. group.fault) groups.new) }
    ensures ran { AreRun N.named (G.may_stop gate.now) N.may_be_stopped groups.old groups.new }
{
    let refused = AtomicUsize::new(usize::MAX);
    run_groups(rt, store, gate, &refused, groups);
    first_met(groups)
}

// Runs the groups. Which one was refused a thread last is told by how many come after it.
#[cycle(groups)]
fn run_groups<
    N: Name + Send + Sync,
    A: Allocator + Copy + Send + Sync,
    G: Gate + Sync,
    R: Threads + Wait + Clock + Sync,
>(rt: &R, store: &Store<N, A>, gate: &G, refused: &AtomicUsize, groups: &mut [Group<N, A>])
    ensures { AreRun N.named (G.may_stop gate.now) N.may_be_stopped groups.old groups.new }
{
    if let Some((first, others)) = groups.split_first_mut() {
        run_parts(rt, store, gate, refused, first, others);
    }
}

// The same for the first group and those after it.
#[cycle(groups)]
fn run_parts<
    N: Name + Send + Sync,
    A: Allocator + Copy + Send + Sync,
    G: Gate + Sync,
    R: Threads + Wait + Clock + Sync,
>(
    rt: &R,
    store: &Store<N, A>,
    gate: &G,
    refused: &AtomicUsize,
    first: &mut Group<N, A>,
    others: &mut [Group<N, A>],
)
    ensures first { IsRun N.named (G.may_stop gate.now) N.may_be_stopped first.old first.new }
    ensures others { AreRun N.named (G.may_stop gate.now) N.may_be_stopped others.old others.new }
{
    let (first, others) = run_lent(rt, store, gate, refused, first, others);
    take_back(first, others);
}

// The same, and both are given back as they are then.
#[cycle(groups)]
fn run_lent<
    'e,
    N: Name + Send + Sync,
    A: Allocator + Copy + Send + Sync,
    G: Gate + Sync,
    R: Threads + Wait + Clock + Sync,
>(
    rt: &'e R,
    store: &'e Store<N, A>,
    gate: &'e G,
    refused: &'e AtomicUsize,
    first: &'e mut Group<N, A>,
    others: &'e mut [Group<N, A>],
) -> (&'e mut Group<N, A>, &'e mut [Group<N, A>])
    ensures same_first { result.0.ghost_name ≡ first.entry.ghost_name }
    ensures same_others { result.1.ghost_name ≡ others.entry.ghost_name }
    ensures first { IsRun N.named (G.may_stop gate.now) N.may_be_stopped first.entry.now result.0.now }
    ensures others { AreRun N.named (G.may_stop gate.now) N.may_be_stopped others.entry.now result.1.now }
{
    thread::scope(
        thread::scope_env(),
        rt,
        |scope|
            ensures same_first { result.0.ghost_name ≡ first.entry.ghost_name }
            ensures same_others { result.1.ghost_name ≡ others.entry.ghost_name }
            ensures first { IsRun N.named (G.may_stop gate.entry.now) N.may_be_stopped first.entry.now result.0.now }
            ensures others { AreRun N.named (G.may_stop gate.entry.now) N.may_be_stopped others.entry.now result.1.now }
        { run_in(scope, rt, store, gate, refused, first, others) },
    )
}

// The same in a scope: the first group in a thread of its own, and the others meanwhile. Where no thread can be started, the first one's
// work is called here, and finds that it was refused.
#[cycle(groups)]
fn run_in<
    's,
    'e: 's,
    N: Name + Send + Sync,
    A: Allocator + Copy + Send + Sync,
    G: Gate + Sync,
    R: Threads + Wait + Clock + Sync,
>(
    scope: &'s Scope<'s, &'e ()>,
    rt: &'e R,
    store: &'e Store<N, A>,
    gate: &'e G,
    refused: &'e AtomicUsize,
    first: &'e mut Group<N, A>,
    others: &'e mut [Group<N, A>],
) -> (&'e mut Group<N, A>, &'e mut [Group<N, A>])
    ensures same_first { result.0.ghost_name ≡ first.entry.ghost_name }
    ensures same_others { result.1.ghost_name ≡ others.entry.ghost_name }
    ensures first { IsRun N.named (G.may_stop gate.now) N.may_be_stopped first.entry.now result.0.now }
    ensures others { AreRun N.named (G.may_stop gate.now) N.may_be_stopped others.entry.now result.1.now }
{
    let promise = Serving {
        group: Snapshot::of(&first),
        gate: Snapshot::of(gate),
    };
    let place = others.len();
    let work = move || {
        let is_refused = refused.load(Ordering::SeqCst) == place;
        run_group(rt, store, gate, is_refused, first);
        first
    };
    match scope.spawn_with(promise, work) {
        Ok(handle) => {
            run_groups(rt, store, gate, refused, &mut *others);
            (handle.join(rt), others)
        }
        Err(refusal) => {
            refused.store(place, Ordering::SeqCst);
            let mut work = refusal.value;
            let first = work();
            run_groups(rt, store, gate, refused, &mut *others);
            (first, others)
        }
    }
}

// What the thread of a group gives back: the group, which was run.
#[derive(Drop)]
struct Serving<'e, N: Name, A: Allocator + Copy, G: Gate> {
    group: Snapshot<&'e mut Group<N, A>>,
    gate: Snapshot<G>,
}

impl<'e, N: Name, A: Allocator + Copy, G: Gate> Promise<&'e mut Group<N, A>>
    for Serving<'e, N, A, G> {
    ghost use Rattle.std.specs.Prelude.{◌≡◌};
    ghost use Rattle.occ_store.specs.Serving.{IsRun};

    ghost kept_by = { λ serving group. (group.ghost_name ≡ serving.group.value.ghost_name)
        × IsRun N.named (G.may_stop serving.gate.value) N.may_be_stopped serving.group.value.now group.now };
}

// Serves a group, or notes the want of memory where it was refused a thread.
fn run_group<N: Name, A: Allocator + Copy, R: Wait + Clock, G: Gate>(
    rt: &R,
    store: &Store<N, A>,
    gate: &G,
    is_refused: bool,
    group: &mut Group<N, A>,
)
    ensures { IsRun N.named (G.may_stop gate.now) N.may_be_stopped group.old group.new }
{
    if is_refused {
        group.fault = Some(Fault::Memory);
        group.stopped = false;
    } else {
        group.serve(rt, store, gate);
    }
}

// Does nothing. That both are used here ends what was lent.
fn take_back<N: Name, A: Allocator + Copy>(first: &mut Group<N, A>, others: &mut [Group<N, A>])
    ensures first { first.new ≡ first.old }
    ensures others { others.new ≡ others.old }
{}

// The fault of the first group that met one.
fn first_met<N: Name, A: Allocator + Copy>(groups: &[Group<N, A>]) -> Option<Fault>
    ensures { result ≡ first_fault (map (λ group. group.fault) groups.now) }
{
    for group in groups {
        if group.fault.is_some() {
            return group.fault;
        }
    }
    None
}
