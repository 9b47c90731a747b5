//! A schedule that is replayed step by step: what a step is answered, and what there is to be said of that.

use crate::line_walk::token_at;
use crate::meetings::{Meeting, latest_of, meeting_of_last};
use crate::sayings::Saying;
use crate::step_words::{say_backed_up, say_no_session, say_refused};
use occ_book::Base;
use occ_case::{Cause, Verdict};
use occ_cli::answers::{Answer, write_answer};
use occ_cli::replay_steps::Replay;
use occ_core::{Outcome, Reply};
use occ_text::faults::{ReadFault, read_at_line};
use occ_text::headers::{Header, Limits};
use occ_text::step_reading::read_step;
use occ_text::steps::Step;
use occ_text::tokens::number;
use occ_types::Fault;
use std::alloc::{AllocError, Global};

/// A store as the steps so far leave it, and what was met at each entry.
#[derive(Drop)]
pub struct Steps {
    /// The store and its clients.
    pub replay: Box<Replay<Global>>,
    /// How the store was opened.
    pub limits: Limits,
    /// How many steps were refused.
    pub refused: u64,
    /// How many transactions were backed up.
    pub backed_up: u64,
    /// What the last row of each session met as it entered, by session from 0 on.
    met: Vec<Option<Meeting>>,
    /// The places of the rows that finished, by their transaction numbers from 1 on.
    finished: Vec<usize>,
}

impl Steps {
    /// An empty store.
    pub fn open(alloc: Global, header: Header<Global>) -> Result<Steps, AllocError> {
        let limits = header.limits;
        match Replay::open(alloc, header.schema, limits) {
            Ok(replay) => Steps::of(alloc, replay, limits),
            Err(_memory) => Err(AllocError),
        }
    }

    /// A store that goes on from a base. Refused as `Replay::resume`.
    pub fn resume(
        alloc: Global,
        header: Header<Global>,
        base: Base<Global>,
    ) -> Result<Steps, Fault> {
        let limits = header.limits;
        let replay = Replay::resume(alloc, header.schema, limits, base)?;
        let steps = Steps::of(alloc, replay, limits)?;
        Ok(steps)
    }

    // A store in which no step was done yet.
    fn of(alloc: Global, replay: Replay<Global>, limits: Limits) -> Result<Steps, AllocError> {
        Ok(Steps {
            replay: Box::new(alloc, replay)?,
            limits,
            refused: 0,
            backed_up: 0,
            met: Vec::new(alloc),
            finished: Vec::new(alloc),
        })
    }

    /// Does the step of the line of a number, appends its answer to a text, and tells what there is to be said of a refusal or a back-up.
    ///
    /// `Malformed` where the line is no step, and `Memory` where it was refused: nothing is done then.
    pub fn take(
        &mut self,
        alloc: Global,
        number: u64,
        line: &[u8],
        text: &mut String,
    ) -> Result<Option<Saying>, ReadFault> {
        let step = read_at_line(read_step(alloc, self.limits.version, line), number)?;
        let saying = self.respond(alloc, number, line, step, text)?;
        Ok(saying)
    }

    // Does a step, appends its answer to a text, and tells what there is to be said of it.
    fn respond(
        &mut self,
        alloc: Global,
        number: u64,
        line: &[u8],
        step: Step<'_, Global>,
        text: &mut String,
    ) -> Result<Option<Saying>, AllocError> {
        let answer = self.replay.answer(step)?;
        self.keep_finish(session_of(line))?;
        self.say(alloc, number, line, &answer, text)
    }

    // Keeps the place of the row that the step of a session just finished, where it did.
    fn keep_finish(&mut self, session: usize) -> Result<(), AllocError> {
        let core = self.replay.core();
        if core.tnc() <= self.finished.len() as u64 {
            return Ok(());
        }
        if let Some(row) = latest_of(core, session) {
            self.finished.push(row.place)?;
        }
        Ok(())
    }

    // Appends an answer to a text, and tells what there is to be said of it.
    fn say(
        &mut self,
        alloc: Global,
        number: u64,
        line: &[u8],
        answer: &Answer<Global>,
        text: &mut String,
    ) -> Result<Option<Saying>, AllocError> {
        write_answer(text, self.replay.core().schema(), answer)?;
        match answer {
            Answer::Refused(refusal) => self.say_refusal(alloc, number, line, refusal.fault),
            Answer::Replied(Reply::Refused(fault)) => {
                self.say_refusal(alloc, number, line, *fault)
            }
            Answer::Replied(Reply::RefusedItem(refused)) => {
                self.say_refusal(alloc, number, line, refused.fault)
            }
            Answer::Replied(reply) => self.say_reply(alloc, number, session_of(line), reply),
            _ => Ok(None),
        }
    }

    // That the step of a line is refused.
    fn say_refusal(
        &mut self,
        alloc: Global,
        number: u64,
        line: &[u8],
        fault: Fault,
    ) -> Result<Option<Saying>, AllocError> {
        self.refused = self.refused.saturating_add(1);
        let session = session_of(line);
        if fault == Fault::NoSession {
            let sessions = self.limits.sessions;
            return Ok(Some(say_no_session(alloc, number, line, session, sessions)?));
        }
        Ok(Some(say_refused(alloc, number, line, session, fault)?))
    }

    // What there is to be said of what the store replied to a session.
    fn say_reply(
        &mut self,
        alloc: Global,
        number: u64,
        session: usize,
        reply: &Reply<Global>,
    ) -> Result<Option<Saying>, AllocError> {
        match reply {
            Reply::Outcome(Outcome::Entered { .. }) => {
                self.keep_meeting(session)?;
                Ok(None)
            }
            Reply::Outcome(Outcome::BackedUp(cause)) => {
                self.keep_meeting(session)?;
                self.say_back_up(alloc, number, session, *cause)
            }
            Reply::Decided(Verdict::BackUp(cause)) => {
                self.say_back_up(alloc, number, session, *cause)
            }
            _ => Ok(None),
        }
    }

    // Keeps what the last row met, which is of this session and has just entered.
    fn keep_meeting(&mut self, session: usize) -> Result<(), AllocError> {
        let met = meeting_of_last(self.replay.core(), self.finished.as_slice())?;
        for _ in self.met.len()..session.saturating_add(1) {
            self.met.push(None)?;
        }
        if let Some(place) = self.met.get_mut(session) {
            *place = met;
        }
        Ok(())
    }

    // That the latest row of a session is backed up.
    fn say_back_up(
        &mut self,
        alloc: Global,
        number: u64,
        session: usize,
        cause: Cause,
    ) -> Result<Option<Saying>, AllocError> {
        self.backed_up = self.backed_up.saturating_add(1);
        let core = self.replay.core();
        let met = match self.met.get(session) {
            Some(met) => met.as_ref(),
            None => None,
        };
        match latest_of(core, session) {
            Some(row) => Ok(Some(say_backed_up(alloc, core.schema(), number, row, cause, met)?)),
            None => Ok(None),
        }
    }
}

// The session that a step names, or 0 where it names none.
fn session_of(line: &[u8]) -> usize {
    number(token_at(line, 1), 255).unwrap_or(0) as usize
}
