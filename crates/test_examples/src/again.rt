//! Replays whose calls are made again where they want memory: an item to enter and the tables of a store with what was handed back, a step
//! as it stands in its line.

use occ_book::{Book, BookView};
use occ_case::OpenCase;
use occ_cli::answers::{Answer, write_answer};
use occ_cli::replay_steps::Replay;
use occ_print::books::write_book;
use occ_text::headers::{Header, Limits, read_header};
use occ_text::input::{Input, Next};
use occ_text::output::Output;
use occ_text::step_reading::read_step;
use occ_text::versions::Version;
use occ_types::Fault;
use std::alloc::{AllocError, Allocator, Global};
use test_tools::{Plan, Refusing};

/// What came of a replay: of the opening of its store, its steps, and the copy of its book.
#[derive(Clone, Copy)]
pub(crate) struct Played {
    /// How many calls these were.
    pub(crate) calls: u64,
    /// How many of them were made again, since they wanted memory that was refused.
    pub(crate) again: u64,
    /// How many requests for memory they made.
    pub(crate) requests: u64,
}

/// What came of the replays of a schedule.
#[derive(Clone, Copy)]
pub(crate) struct Repeated {
    /// How many requests for memory its calls make, each of which was refused in a replay of its own.
    pub(crate) requests: u64,
    /// How many calls were made again in these replays. The others did without.
    pub(crate) again: u64,
    /// How many calls there are.
    pub(crate) calls: u64,
    /// How many of them want memory, where each is first made while every request is refused.
    pub(crate) starved: u64,
}

/// Replays a schedule once for each request for memory that its calls make, with that request refused, and once with each call first
/// made while every request is refused. None where one of them was otherwise than with ample memory, whose text this is.
pub(crate) fn repeat(paper: Global, schedule: &[u8], text: &[u8]) -> Option<Repeated> {
    let (ample, _none) = replayed(paper, Plan::Nothing, schedule, text)?;
    let mut again = 0u64;
    for place in 0..ample.requests {
        let (played, refused) = replayed(paper, Plan::Once(place), schedule, text)?;
        if refused != 1 || played.again > 1 {
            return None;
        }
        again = again.saturating_add(played.again);
    }
    let (starved, _all) = replayed(paper, Plan::From(0), schedule, text)?;
    Some(Repeated {
        requests: ample.requests,
        again,
        calls: ample.calls,
        starved: starved.again,
    })
}

/// What came of a replay under a plan for the requests of its calls, and how many were refused. None where it gives another text, or
/// keeps memory.
fn replayed(paper: Global, plan: Plan, schedule: &[u8], text: &[u8]) -> Option<(Played, u64)> {
    let lent = Refusing::new(paper, Plan::Nothing);
    let played = play(&lent, paper, Calls::new(&lent, plan), schedule, text)?;
    if lent.bytes_out() > 0 {
        return None;
    }
    Some((played, lent.refused()))
}

/// Replays a schedule, and makes each call again that wants memory. None where it gives another text.
fn play<A: Allocator + Copy>(
    alloc: A,
    paper: Global,
    calls: Calls<'_>,
    schedule: &[u8],
    text: &[u8],
) -> Option<Played> {
    let mut reader = schedule;
    let mut input = Input::new(alloc).ok()?;
    let header = read_header(alloc, &mut input, &mut reader).ok()?;
    let limits = header.limits;
    let mut player = Player::open(alloc, paper, calls, header)?;
    player.play(limits, &mut input, &mut reader, text)
}

/// Calls, each first made under a plan for the requests of all of them, and made again with ample memory where it was refused.
#[derive(Drop)]
struct Calls<'l> {
    lent: &'l Refusing<Global>,
    plan: Plan,
    played: Played,
    before: u64,
}

impl<'l> Calls<'l> {
    fn new(lent: &'l Refusing<Global>, plan: Plan) -> Calls<'l> {
        let played = Played {
            calls: 0,
            again: 0,
            requests: 0,
        };
        Calls {
            lent,
            plan,
            played,
            before: 0,
        }
    }

    /// Before a call is made.
    fn refuse(&mut self) {
        self.played.calls = self.played.calls.saturating_add(1);
        self.before = self.lent.requests();
        self.lent.follow(self.next_plan());
    }

    /// The plan for the requests of the next call.
    fn next_plan(&self) -> Plan {
        match self.plan {
            Plan::Once(place) => match place.checked_sub(self.played.requests) {
                Some(ahead) => Plan::Once(self.before.saturating_add(ahead)),
                None => Plan::Nothing,
            },
            plan => plan,
        }
    }

    /// Behind a call.
    fn relent(&mut self) {
        self.lent.follow(Plan::Nothing);
        let made = self.lent.requests().saturating_sub(self.before);
        self.played.requests = self.played.requests.saturating_add(made);
    }

    /// Before a call is made again.
    fn count_again(&mut self) {
        self.played.again = self.played.again.saturating_add(1);
    }

    /// Opens a store, again with the tables that came back where it was refused.
    fn open<A: Allocator + Copy>(&mut self, alloc: A, header: Header<A>) -> Option<Replay<A>> {
        let limits = header.limits;
        self.refuse();
        let first = Replay::open(alloc, header.schema, limits);
        self.relent();
        match first {
            Ok(replay) => Some(replay),
            Err(refused) => {
                self.count_again();
                Replay::open(alloc, refused.value, limits).ok()
            }
        }
    }
}

/// A replay, and what it has told. It is in a box, which is dropped by one call.
#[derive(Drop)]
struct Player<'l, A: Allocator> {
    alloc: A,
    calls: Calls<'l>,
    replay: Box<Replay<A>, A>,
    told: Vec<u8>,
}

impl<'l, A: Allocator + Copy> Player<'l, A> {
    /// The replay of a schedule with this header, which tells on `paper`.
    fn open(alloc: A, paper: Global, calls: Calls<'l>, header: Header<A>) -> Option<Player<'l, A>> {
        let mut calls = calls;
        let replay = boxed(alloc, calls.open(alloc, header)?)?;
        Some(Player {
            alloc,
            calls,
            replay,
            told: Vec::new(paper),
        })
    }

    /// How many calls there were, where all that is told of the steps and of the book is this text up to its audit.
    fn play(
        &mut self,
        limits: Limits,
        input: &mut Input<A>,
        reader: &mut &[u8],
        text: &[u8],
    ) -> Option<Played> {
        self.take_all(limits, input, reader)?;
        self.has_told(text)
    }

    /// Does all steps, and copies the book.
    fn take_all(&mut self, limits: Limits, input: &mut Input<A>, reader: &mut &[u8]) -> Option<()> {
        for _ in 0..u64::MAX {
            if !self.take_step(limits.version, input, reader)? {
                return self.take_book(limits);
            }
        }
        None
    }

    /// Does the next step. False where none is left.
    fn take_step(
        &mut self,
        version: Version,
        input: &mut Input<A>,
        reader: &mut &[u8],
    ) -> Option<bool> {
        if input.next_line(reader).ok()? == Next::End {
            return Some(false);
        }
        let answer = self.answer(version, input.line())?;
        self.tell(&answer)?;
        Some(true)
    }

    /// What a step is answered.
    fn answer(&mut self, version: Version, line: &[u8]) -> Option<Answer<A>> {
        let step = read_step(self.alloc, version, line).ok()?;
        self.calls.refuse();
        let first = self.replay.answer(step);
        self.calls.relent();
        match first {
            Ok(answer) => Some(answer),
            Err(AllocError) => self.answer_again(version, line),
        }
    }

    /// What a step is answered that was refused.
    fn answer_again(&mut self, version: Version, line: &[u8]) -> Option<Answer<A>> {
        self.calls.count_again();
        let step = read_step(self.alloc, version, line).ok()?;
        self.replay.answer(step).ok()
    }

    /// Tells a copy of the book of the store.
    fn take_book(&mut self, limits: Limits) -> Option<()> {
        let book = self.copy_book()?;
        self.tell_book(limits, &book.view())
    }

    /// A copy of the book of the store.
    fn copy_book(&mut self) -> Option<Book<A, OpenCase<A>>> {
        self.calls.refuse();
        let first = self.replay.core().book();
        self.calls.relent();
        match first {
            Ok(book) => Some(book),
            Err(Fault::Memory) => {
                self.calls.count_again();
                self.replay.core().book().ok()
            }
            Err(_) => None,
        }
    }

    /// Tells an answer.
    fn tell(&mut self, answer: &Answer<A>) -> Option<()> {
        let mut line = String::new(self.alloc);
        write_answer(&mut line, self.replay.core().schema(), answer).ok()?;
        line.push('\n').ok()?;
        self.told.extend_from_slice(line.as_bytes()).ok()
    }

    /// Tells a book.
    fn tell_book<O>(&mut self, limits: Limits, book: &BookView<'_, A, O>) -> Option<()> {
        let mut output = Output::new(self.alloc);
        let schema = self.replay.core().schema();
        write_book(
            self.alloc,
            &mut output,
            &mut self.told,
            limits,
            schema,
            book,
        )
        .ok()?;
        output.flush(&mut self.told).ok()
    }

    /// How many calls there were, where all that was told is this text up to its audit.
    fn has_told(&self, text: &[u8]) -> Option<Played> {
        match text.strip_suffix(b"audit yes\n") {
            Some(text) if text == self.told.as_slice() => Some(self.calls.played),
            _ => None,
        }
    }
}

/// A replay in a box.
fn boxed<A: Allocator + Copy>(alloc: A, replay: Replay<A>) -> Option<Box<Replay<A>, A>> {
    Box::new(alloc, replay).ok()
}
