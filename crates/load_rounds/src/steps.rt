//! Steps: what is done ahead of a round, in pieces.
//!
//! To count the work of long answers and to write them takes time. A thread that has other things to do between calls [`Rounds::step`] until
//! that is done, and then [`Rounds::advance`], which has less left to do.
ghost use Rattle.std.specs.Prelude.{◌≡◌, ◌≤◌, All, length, IfOk};

use crate::limits::{Excess, Limits};
use crate::rounds::{Rounds, Stage};
use crate::session::Session;
use execution::CountWork;
use load_queue::LocalSource;
use std::alloc::AllocError;

/// Says what came of steps that are done ahead of a round.
#[derive(Clone, Copy, Debug, PartialEq, Eq)]
pub enum Ahead {
    /// Steps are left. Nothing was asked.
    Working,
    /// The answers are over a limit already, by what is known.
    Over(Excess),
    /// No step is left, and the answers are within the limits: [`advance`](Rounds::advance) may be called.
    Done,
}

impl<E: Drop, P: CountWork<E>> Rounds<P, E> {
    ghost use Rattle.load_rounds.specs.Sessions.{state_of, memory_of};
    ghost use Rattle.load_rounds.specs.Executions.{plans_in, FitParts};
    ghost use Rattle.load_rounds.specs.Runs.{GoesOnFrom, Holds, KeepsPlans, WorksAhead};
    ghost use Rattle.load_rounds.specs.Limits.{TellsAhead};
    ghost use Rattle.load_rounds.specs.Steps.{DoesSteps};

    /// Does steps ahead of a round, as many as the limits have for one call: counts the work of the plans in order, up to its limit, and then
    /// works ahead on each that isn't finished ([`Execute::work_ahead`](execution::Execute::work_ahead)). Each plan has the steps that the one
    /// before left over, and at least one. Once that is done it looks whether a round more may be made; where none may, that executes the
    /// plans once more, whole, and takes no steps. Where the limits have no steps, it does what [`excess`](Rounds::excess) does, whole.
    ///
    /// Nothing is asked. Each call that returns [`Working`](Ahead::Working) leaves fewer steps than before (`told`), so that calls in a row reach
    /// the end. What a step is, is the plan's affair, and no clause counts those of a call.
    ///
    /// # Errors
    ///
    /// When out of memory, the run is [`Failed`](Stage::Failed), with as many rounds as before (`ahead`).
    ///
    /// # Headline
    ///
    /// As `Session::begin` says
    pub fn step<S: LocalSource>(
        &mut self,
        session: &Session<S>,
        limits: Limits,
    ) -> Result<Ahead, AllocError>
        requires ready { self.old.stage ≡ Stage.Ready }
        requires holds { Holds P.program P.text_of P.loaders P.fits self.old session.now }
        ensures ahead { WorksAhead result self.old self.new }
        ensures told { IfOk result (TellsAhead P.program P.text_of P.left limits
            session.now self.old self.new) }
        ensures holds { Holds P.program P.text_of P.loaders P.fits self.new session.now }
        ensures run { GoesOnFrom P.program P.text_of S.may_tell
            (state_of session.now) (state_of session.now) self.old self.new }
        ensures kept { KeepsPlans session.now session.now self.old self.new }
    {
        self.stage = Stage::Failed;
        let ahead = self.do_steps(session, limits)?;
        self.stage = Stage::Ready;
        Ok(ahead)
    }

    // Does what `step` does, whatever the stage, which stays.
    fn do_steps<S>(&mut self, session: &Session<S>, limits: Limits) -> Result<Ahead, AllocError>
        requires enough { All (λ plan. P.loaders plan
            ≤ length session.now.loaders) (plans_in self.old.parts) }
        requires fits { FitParts P.program P.text_of P.loaders P.fits
            self.old.parts (memory_of session.now) }
        ensures ahead { DoesSteps P.program P.text_of P.loaders P.fits P.left limits
            session.now result self.old self.new }
    {
        let Some(steps) = limits.steps else {
            return match self.excess(session, limits)? {
                Some(excess) => Ok(Ahead::Over(excess)),
                None => Ok(Ahead::Done),
            };
        };
        let alloc = session.alloc();
        let memory = session.memory();
        let mut rest = steps;
        if let Some(most) = limits.work {
            let Some(counted) = self.executions.count_ahead(alloc, memory, most, steps)? else {
                return Ok(Ahead::Working);
            };
            if counted.left.is_none() {
                return Ok(Ahead::Over(Excess::Work));
            }
            rest = counted.steps;
        }
        if self.executions.work_ahead(alloc, memory, rest)?.is_none() {
            return Ok(Ahead::Working);
        }
        if self.are_rounds_over(session, limits.rounds)? {
            return Ok(Ahead::Over(Excess::Rounds));
        }
        Ok(Ahead::Done)
    }
}
