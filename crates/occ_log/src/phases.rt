//! The read phases under way.
ghost use Rattle.std.specs.Prelude.{◌≡◌, ◌==◌, ◌<◌, ◌++◌, [], ◌∷◌, not, length, OnOk, OnErr, IfOk, IfErr, IsOkUnless};
ghost use Rattle.std.specs.Option.{option_map};
ghost use Rattle.std.specs.FinMap as finite;
ghost use Rattle.occ_types.specs.declared.fault.Fault.TheVariants.{Memory};
ghost use Rattle.occ_types.specs.declared.limits.TheConstants as limit;
ghost use Rattle.occ_types.specs.PlainData.{question_of};
ghost use Rattle.occ_sets.specs.PlainSets.{answer_of};
ghost use Rattle.occ_log.specs.Phases.{phase_of, phases_of, reads_of, is_reading};

use crate::session_phases::{Phase, SessionPhases};
use occ_sets::{Answer, Observation, ReadSet};
use occ_types::{Fault, Question, Refused};
use std::alloc::{AllocError, Allocator};
use std::marker::Model;

/// A transaction as its session names it, before it enters.
#[derive(Clone, Copy)]
pub struct Transaction {
    /// The session, numbered from 1.
    pub session: usize,
    /// The number that the session gives it.
    pub number: u64,
    /// What the transaction counter was when its read phase began.
    pub start: u64,
}

/// The read phases under way: a short list for each session, found by the number of the transaction. The lists keep the room that they have, so phases take memory only where a session has more of them than ever before. Clauses see them as a finite map by session and number.
#[derive(Drop)]
pub struct ReadPhases<A: Allocator> {
    sessions: Vec<SessionPhases<A>, A>,
}

impl<A: Allocator> Model for ReadPhases<A> {
    ghost use Rattle.std.specs.FinMap.{FinMap};
    ghost use Rattle.occ_model.specs.World.{ReadPhase, phase_cmp};
    ghost use Rattle.occ_log.specs.Phases.{read_phases_code, phases_of};

    ghost Value = { FinMap phase_cmp ReadPhase };

    ghost coded = { read_phases_code };

    ghost view = { λ phases. phases_of phases.sessions.items };
}

impl<A: Allocator> ReadPhases<A> {
    /// A phase, or none where it is not under way.
    pub fn get(&self, session: usize, number: u64) -> Option<&Phase<A>>
        ensures { option_map (λ phase. phase_of phase.now) result ≡ finite.get self.now (session, number) }
    {
        match self.sessions.get(session) {
            Some(phases) => phases.get(number),
            None => None,
        }
    }

    /// Whether a session has a phase under way.
    pub fn is_reading(&self, session: usize) -> bool
        ensures { result ≡ is_reading self.now session }
    {
        let Some(phases) = self.sessions.get(session) else {
            return false;
        };
        !phases.is_empty()
    }

    /// Ends a phase and hands it out, or none where it is not under way. It takes no memory.
    pub fn take(&mut self, session: usize, number: u64) -> Option<Phase<A>>
        ensures phase { option_map phase_of result ≡ finite.get self.old (session, number) }
        ensures gone { self.new ≡ finite.remove self.old (session, number) }
    {
        if session >= self.sessions.len() {
            return None;
        }
        self.sessions[session].take(number)
    }

    /// Ends all phases of a session. It takes no memory.
    pub fn drop_session(&mut self, session: usize)
        ensures { self.new ≡ finite.retain_keys self.old (λ key. not (key.0 == session)) }
    {
        if session < self.sessions.len() {
            self.sessions[session].clear();
        }
    }

    /// Ends a phase, of which nothing is left. It takes no memory.
    pub fn discard(&mut self, session: usize, number: u64)
        ensures { self.new ≡ finite.remove self.old (session, number) }
    {
        let _phase = self.take(session, number);
    }
}

impl<A: Allocator + Copy> ReadPhases<A> {
    /// No phases, which take no memory.
    pub fn new(alloc: A) -> ReadPhases<A>
        ensures { result ≡ finite.empty }
    {
        ReadPhases {
            sessions: Vec::new(alloc),
        }
    }

    /// One more owner of what was read in a phase, which is nothing where it is not under way. Refused with `Memory` where it has too many
    /// owners to be counted.
    pub fn share(&self, alloc: A, session: usize, number: u64) -> Result<ReadSet<A>, Fault>
        ensures shared { IfOk result (λ shared. shared ≡ reads_of (finite.get self.now (session, number))) }
        ensures memory { IsOkUnless result Memory }
    {
        let Some(phase) = self.get(session, number) else {
            return Ok(ReadSet::new(alloc));
        };
        let shared = phase.reads.clone()?;
        Ok(shared)
    }

    /// Notes a question and the tables' answer after the others of a transaction's phase, which has less than `MAX_QUESTIONS` of them. It
    /// begins with this question where it is not under way, and has the transaction's start from now on.
    ///
    /// Refused with `Memory` where there is none. That leaves the phases as they were and hands back what was to be noted.
    pub fn note(
        &mut self,
        alloc: A,
        transaction: Transaction,
        question: Question<A>,
        answer: Answer<A>,
    ) -> Result<(), Refused<Observation<A>>>
        requires few { length (reads_of (finite.get self.old (transaction.session, transaction.number))) < limit.MAX_QUESTIONS }
        ensures ok { OnOk result (self.new ≡ finite.insert self.old (transaction.session, transaction.number) (record { start = transaction.start; reads = reads_of (finite.get self.old (transaction.session, transaction.number)) ++ (question_of question, answer_of answer) ∷ [] })) }
        ensures err { OnErr result (self.new ≡ self.old) }
        ensures handed_back { IfErr result (λ refused. refused.value ≡ record { question = question; answer = answer }) }
        ensures memory { IfErr result (λ refused. refused.fault ≡ Memory) }
    {
        if reach(&mut self.sessions, alloc, transaction.session).is_err() {
            return Err(Refused {
                value: Observation { question, answer },
                fault: Fault::Memory,
            });
        }
        let phases = &mut self.sessions[transaction.session];
        phases.note(alloc, transaction, question, answer)
    }
}

// Gives each session up to this one its list, where there is none yet. An error where there is no memory for them. No phase comes or goes.
fn reach<A: Allocator + Copy>(
    sessions: &mut Vec<SessionPhases<A>, A>,
    alloc: A,
    session: usize,
) -> Result<(), AllocError>
    ensures kept { phases_of sessions.new.items ≡ phases_of sessions.old.items }
    ensures reached { OnOk result (session < length sessions.new.items) }
{
    while sessions.len() <= session {
        sessions.push(SessionPhases::new(alloc))?;
    }
    Ok(())
}
