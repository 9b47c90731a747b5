//! The read phases of one session.
ghost use Rattle.std.specs.Prelude.{◌≡◌, ◌==◌, ◌<◌, ◌++◌, [], ◌∷◌, length, OnOk, OnErr, IfOk, IfErr};
ghost use Rattle.std.specs.List.{position};
ghost use Rattle.std.specs.Option.{option_map};
ghost use Rattle.std.specs.FinMap as finite;
ghost use Rattle.occ_types.specs.declared.fault.Fault.TheVariants.{Memory};
ghost use Rattle.occ_types.specs.declared.limits.TheConstants as limit;
ghost use Rattle.occ_types.specs.PlainData.{question_of};
ghost use Rattle.occ_sets.specs.PlainSets.{answer_of};
ghost use Rattle.occ_log.specs.Phases.{phase_of, reads_of};

use crate::phases::Transaction;
use occ_sets::{Answer, Observation, ReadSet};
use occ_types::{Fault, Question, Refused};
use std::alloc::Allocator;
use std::marker::Model;

/// A read phase under way.
#[derive(Drop)]
pub struct Phase<A: Allocator> {
    /// What the transaction counter was when the phase began.
    pub start: u64,
    /// What was read so far.
    pub reads: ReadSet<A>,
}

impl<A: Allocator + Copy> Phase<A> {
    // A phase with its first read.
    fn first(
        alloc: A,
        start: u64,
        question: Question<A>,
        answer: Answer<A>,
    ) -> Result<Phase<A>, Refused<Observation<A>>>
        ensures noted { IfOk result (λ phase. (phase.start ≡ start) × (phase.reads ≡ (question_of question, answer_of answer) ∷ [])) }
        ensures handed_back { IfErr result (λ refused. refused ≡ record { value = record { question = question; answer = answer }; fault = Memory }) }
    {
        let mut reads = ReadSet::new(alloc);
        reads.note(question, answer)?;
        Ok(Phase { start, reads })
    }
}

/// The read phases of one session, each under the number of its transaction. They are searched from the first one on: most sessions have one at a time, and none has more than the numbers that may be read under. Clauses see them as a finite map by number.
#[derive(Drop)]
pub(crate) struct SessionPhases<A: Allocator> {
    phases: Vec<(u64, Phase<A>), A>,
}

impl<A: Allocator> Model for SessionPhases<A> {
    ghost use Rattle.std.specs.Ordering.{nat_cmp};
    ghost use Rattle.std.specs.FinMap.{FinMap};
    ghost use Rattle.occ_model.specs.World.{ReadPhase};
    ghost use Rattle.occ_log.specs.Phases.{session_phases_code, session_phases_of, AreNumberedOnce};

    ghost Value = { FinMap nat_cmp ReadPhase };

    ghost coded = { session_phases_code };

    ghost view = { λ session. session_phases_of session.phases.items };

    ghost invariant = { λ session. AreNumberedOnce session.phases.items };
}

impl<A: Allocator> SessionPhases<A> {
    // No phases, which take no memory.
    pub(crate) fn new(alloc: A) -> SessionPhases<A>
        ensures { result ≡ finite.empty }
    {
        SessionPhases {
            phases: Vec::new(alloc),
        }
    }

    // A phase, or none where it is not under way.
    pub(crate) fn get(&self, number: u64) -> Option<&Phase<A>>
        ensures { option_map (λ phase. phase_of phase.now) result ≡ finite.get self.now number }
    {
        match place_of(self.phases.as_slice(), number) {
            Some(place) => Some(&self.phases[place].1),
            None => None,
        }
    }

    // Ends a phase and hands it out, or none where it is not under way.
    pub(crate) fn take(&mut self, number: u64) -> Option<Phase<A>>
        ensures phase { option_map phase_of result ≡ finite.get self.old number }
        ensures gone { self.new ≡ finite.remove self.old number }
    {
        match place_of(self.phases.as_slice(), number) {
            Some(place) => {
                let (_number, phase) = self.phases.remove(place);
                Some(phase)
            }
            None => None,
        }
    }

    // Whether there are no phases.
    pub(crate) fn is_empty(&self) -> bool
        ensures { result ≡ (finite.len self.now == 0) }
    {
        self.phases.is_empty()
    }

    // Ends all phases.
    pub(crate) fn clear(&mut self)
        ensures { self.new ≡ finite.empty }
    {
        self.phases.clear();
    }
}

impl<A: Allocator + Copy> SessionPhases<A> {
    // Notes a question and the tables' answer after the others of a transaction's phase, which begins with it where it is not under way.
    pub(crate) fn note(
        &mut self,
        alloc: A,
        transaction: Transaction,
        question: Question<A>,
        answer: Answer<A>,
    ) -> Result<(), Refused<Observation<A>>>
        requires few { length (reads_of (finite.get self.old transaction.number)) < limit.MAX_QUESTIONS }
        ensures ok { OnOk result (self.new ≡ finite.insert self.old transaction.number (record { start = transaction.start; reads = reads_of (finite.get self.old transaction.number) ++ (question_of question, answer_of answer) ∷ [] })) }
        ensures err { OnErr result (self.new ≡ self.old) }
        ensures handed_back { IfErr result (λ refused. refused.value ≡ record { question = question; answer = answer }) }
        ensures memory { IfErr result (λ refused. refused.fault ≡ Memory) }
    {
        if let Some(place) = place_of(self.phases.as_slice(), transaction.number) {
            let phase = &mut self.phases[place].1;
            phase.reads.note(question, answer)?;
            phase.start = transaction.start;
            return Ok(());
        }
        if self.phases.reserve(1).is_err() {
            return Err(Refused {
                value: Observation { question, answer },
                fault: Fault::Memory,
            });
        }
        let phase = Phase::first(alloc, transaction.start, question, answer)?;
        self.phases.push_reserved((transaction.number, phase));
        Ok(())
    }
}

// The place of the phase under a number, or none where there is none.
fn place_of<A: Allocator>(phases: &[(u64, Phase<A>)], number: u64) -> Option<usize>
    ensures { result ≡ position (λ phase. phase.0 == number) phases.now }
{
    phases.iter().position(|phase| phase.0 == number)
}
