//! Driving a core by steps.
ghost use Rattle.std.specs.Prelude.{◌≡◌, List, IfOk, IfErr, OnOk, OnErr, MatchResult};
ghost use Rattle.occ_types.specs.declared.fault.Fault.TheVariants.{Memory};
ghost use Rattle.occ_model.specs.Event.{Event, Reply as Said};
ghost use Rattle.occ_model.specs.Step.{Run};
ghost use Rattle.occ_core.specs.declared.steps.Step.TheVariants as steps;
ghost use Rattle.occ_core.specs.Runs.{Answers, Runs};

use crate::core_state::Core;
use crate::replies::Reply;
use crate::steps::Step;
use occ_types::{Fault, Refused};
use std::alloc::Allocator;

/// Does steps one after another, and answers the reply to each. A step that is refused changes nothing, and the next one goes on.
///
/// Room for all replies is taken first. Where there is no memory for it the fault is `Memory`, no step was done, and the steps are
/// handed back. Once the first step is done, want of memory is only ever the reply to the step that wanted it.
pub fn drive<A: Allocator + Copy>(
    alloc: A,
    core: &mut Core<A>,
    steps: Vec<Step<A>, A>,
) -> Result<Vec<Reply<A>, A>, Refused<Vec<Step<A>, A>>>
    ensures ok { IfOk result (λ replies. Runs core.old steps.items replies.items core.new) }
    ensures run { OnOk result ((events : List (Event × Said)) × Run core.old.world events core.new.world) }
    ensures err { OnErr result (core.new ≡ core.old) }
    ensures handed_back { IfErr result (λ refused. refused.value ≡ steps) }
    ensures memory { IfErr result (λ refused. refused.fault ≡ Memory) }
{
    let Ok(mut replies) = Vec::with_capacity(alloc, steps.len()) else {
        return Err(Refused {
            value: steps,
            fault: Fault::Memory,
        });
    };
    for step in steps {
        replies.push_reserved(core.take(step));
    }
    Ok(replies)
}

impl<A: Allocator + Copy> Core<A> {
    /// Does one step, and answers its reply. Where it is refused, the core is as it was.
    ///
    /// The object of a single write is copied for the reply before the write is done. Where there is no memory for the copy the step
    /// is refused with `Memory`, also where the write is a deletion. Where no write is left none is copied, and it is `NoMore`.
    pub fn take(&mut self, step: Step<A>) -> Reply<A>
        ensures { Answers self.old step result self.new }
    {
        match self.answer(step) {
            Ok(reply) => reply,
            Err(refusal) => refusal,
        }
    }

    // Does one step. The error is the reply to one that is refused.
    fn answer(&mut self, step: Step<A>) -> Result<Reply<A>, Reply<A>>
        ensures { MatchResult result (λ reply. Answers self.old step reply self.new) (λ refusal. Answers self.old step refusal self.new) }
    {
        match step {
            Step::Read {
                session,
                number,
                start,
                table,
                key,
            } => Ok(Reply::Found(self.read(session, number, start, table, &key)?)),
            Step::Scan {
                session,
                number,
                start,
                table,
                lower,
                upper,
            } => Ok(Reply::Rows(self.scan(
                session,
                number,
                start,
                table,
                lower.as_ref(),
                upper.as_ref(),
            )?)),
            Step::Forget { session, number } => Ok(Reply::Forgotten(self.forget(session, number)?)),
            Step::Enter { session, item } => Ok(Reply::Outcome(self.enter(session, item)?)),
            Step::Decide(session) => Ok(Reply::Decided(self.decide(session)?)),
            Step::WriteOne(session) => self.answer_write(session),
            Step::Finish(session) => Ok(Reply::Finished {
                tn: self.finish(session)?,
            }),
            Step::BackUp(session) => Ok(Reply::BackedUp(self.back_up(session)?)),
            Step::SerialEnd { session, item } => Ok(Reply::Outcome(self.serial_end(
                session, item,
            )?)),
            Step::RunAlone {
                session,
                number,
                operations,
            } => Ok(Reply::Outcome(self.take_alone(session, number, operations)?)),
            Step::Checkpoint => Ok(Reply::Folded(self.checkpoint()?)),
        }
    }

    // Does the next single write of a session, whose object is copied before that.
    fn answer_write(&mut self, session: usize) -> Result<Reply<A>, Reply<A>>
        ensures { MatchResult result (λ reply. Answers self.old (steps.WriteOne session) reply self.new) (λ refusal. Answers self.old (steps.WriteOne session) refusal self.new) }
    {
        let Some(next) = self.next_write(session) else {
            self.write_one(session)?;
            return Ok(Reply::NoMore);
        };
        let Ok(object) = next.clone() else {
            return Err(Reply::Refused(Fault::Memory));
        };
        self.write_one(session)?;
        Ok(Reply::Wrote(object))
    }
}
