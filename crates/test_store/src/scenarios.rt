//! Scenarios, as the paragraphs of a text tell them.
use crate::desks::{Settings, played};
use crate::plays::Scene;
use crate::steps::numbers_in;
use occ_types::Fault;
use std::alloc::Global;
use std::io;
use std::sync::Wait;
use std::thread::Threads;
use std::time::Clock;
use test_tools::{Plan, Refusing};

/// More requests for memory than a store makes in one call.
const MOST: u64 = 1_000;

/// So many ways a scenario may have.
const WAYS: usize = 8;

/// A scenario: its name, how its store is opened, and its steps, each a line.
#[derive(Clone, Copy)]
struct Scenario<'t> {
    name: &'t str,
    settings: Settings,
    steps: &'t str,
}

/// What came of a scenario.
#[derive(Drop)]
struct Outcome {
    /// How many requests were refused in turn.
    refused: u64,
    /// What came otherwise: a step with its answer, or a way that no play went.
    otherwise: Option<String>,
}

/// Plays the scenario of a paragraph, and prints whether each step answered as it is written there.
pub(crate) fn tell<R: Threads + Wait + Clock + Sync>(
    rt: &HostRuntime,
    threads: &R,
    paragraph: &str,
) -> io::Result<()> {
    let Some(scenario) = told(paragraph) else {
        return println!(rt; "no scenario: {paragraph}");
    };
    print!(rt; "{}: ", scenario.name)?;
    match play_all(threads, rt.alloc(), scenario) {
        Ok(outcome) => tell_outcome(rt, outcome),
        Err(fault) => println!(rt; "{fault}"),
    }
}

fn tell_outcome(rt: &HostRuntime, outcome: Outcome) -> io::Result<()> {
    match outcome.otherwise {
        Some(otherwise) => println!(rt; "{otherwise}"),
        None if outcome.refused == 0 => println!(rt; "as written"),
        None => println!(rt; "as written, {} requests refused in turn", outcome.refused),
    }
}

// The scenario of a paragraph.
fn told(paragraph: &str) -> Option<Scenario<'_>> {
    let (name, rest) = paragraph.split_once('\n')?;
    let (settings, steps) = rest.split_once('\n')?;
    let [sessions, capacity, keep, groups, counter, last] = numbers_in(settings);
    Some(Scenario {
        name,
        settings: Settings {
            sessions: sessions as usize,
            capacity: capacity as usize,
            keep: keep as usize,
            groups: groups as usize,
            counter,
            last,
            starved: settings.starts_with("starved "),
        },
        steps,
    })
}

// How many ways a scenario has: as many as the most answers of a step.
fn ways_of(scenario: Scenario<'_>) -> usize {
    let mut ways = 1;
    for line in scenario.steps.lines() {
        ways = line.split(" / ").count().max(ways);
    }
    ways.min(WAYS)
}

// Plays a scenario, with each request of what is starved refused in turn, and at last with none.
fn play_all<R: Threads + Wait + Clock + Sync>(
    rt: &R,
    alloc: Global,
    scenario: Scenario<'_>,
) -> Result<Outcome, Fault> {
    let mut gone = [false; WAYS];
    for place in 0..MOST {
        let refusing = Refusing::new(alloc, Plan::Nothing);
        let mut otherwise = play_at(rt, alloc, &refusing, scenario, place, &mut gone)?;
        let over = refusing.refused() == 0;
        if over && otherwise.is_none() {
            otherwise = way_left(alloc, ways_of(scenario), &gone)?;
        }
        if over || otherwise.is_some() {
            return Ok(Outcome {
                refused: place,
                otherwise,
            });
        }
    }
    let endless = String::from_str(alloc, "no end of requests for memory")?;
    Ok(Outcome {
        refused: MOST,
        otherwise: Some(endless),
    })
}

// Plays a scenario by each of its ways, until one is as it came; marks that, and tells nothing. Else the step where the last one differed.
fn play_at<R: Threads + Wait + Clock + Sync>(
    rt: &R,
    alloc: Global,
    refusing: &Refusing<Global>,
    scenario: Scenario<'_>,
    place: u64,
    gone: &mut [bool],
) -> Result<Option<String>, Fault> {
    let mut otherwise = None;
    for way in 0..ways_of(scenario) {
        let scene = Scene {
            steps: scenario.steps,
            way,
            refusing,
            place,
            texts: alloc,
        };
        otherwise = played(rt, refusing, scenario.settings, scene)?;
        if otherwise.is_none() {
            mark(gone, way);
            break;
        }
    }
    Ok(otherwise)
}

fn mark(gone: &mut [bool], way: usize) {
    if let Some(gone) = gone.get_mut(way) {
        *gone = true;
    }
}

// The first of so many ways that was not gone.
fn way_left(alloc: Global, ways: usize, gone: &[bool]) -> Result<Option<String>, Fault> {
    for (way, gone) in gone.iter().take(ways).enumerate() {
        if !*gone {
            let left = format!(in alloc; "no play gave all answers of way {way}")?;
            return Ok(Some(left));
        }
    }
    Ok(None)
}
