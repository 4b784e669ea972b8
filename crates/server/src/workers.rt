//! Threads that run the batches of the rounds in which plans are answered.

ghost use Rattle.std.specs.Prelude.{◌≡◌, All, IfOk, IfErr, OnErr};
ghost use Rattle.batch_workers.specs.Workers.{IsBadCount};
ghost use Rattle.load_rounds.specs.Headline.{StopsAnswering};
ghost use Rattle.load_rounds.specs.Limits.{AreAnswersWithin};
ghost use Rattle.load_rounds.specs.Sessions.{state_of};
ghost use Rattle.load_rounds.specs.SharedRounds.{together};
ghost use Rattle.server.specs.Plans.{HasLoadersFor, limited_requests};

use batch_workers::{MOST_WORKERS, WorkFault, answer_all_with};
use gq_resolve::LimitedPlan;
use load_queue::Source;
use load_rounds::{Answer, Limits, Overrun, Session};
use std::alloc::AllocError;
use std::marker::Model;
use std::sync::Wait;
use std::thread::Threads;

/// A number of threads that run the batches of each round at the same time. The thread that calls is one of them, and the others
/// have ended when a call returns; a round of one batch starts none.
///
/// That they are 1 to 16 is an invariant, so no call that takes them has a fault for their number.
#[derive(Drop)]
pub struct Workers<'r, R> {
    rt: &'r R,
    count: usize,
}

impl<'r, R> Model for Workers<'r, R> {
    ghost use Rattle.std.specs.Prelude.{ℕ};
    ghost use Rattle.batch_workers.specs.Workers.{IsBadCount};

    ghost Value = { ℕ };

    ghost view = { λ w. w.count };

    ghost invariant = { λ w. ¬ (IsBadCount w.count) };
}

impl<'r, R> Workers<'r, R> {
    /// Returns `count` workers, 1 to 16, which the command's handle starts.
    ///
    /// # Errors
    ///
    /// [`BadCount`](WorkFault::BadCount) for any other number.
    pub fn new(rt: &'r R, count: usize) -> Result<Workers<'r, R>, WorkFault>
        ensures count { IfOk result (λ workers.
            (workers ≡ count) × ¬ (IsBadCount count)) }
        ensures refused { IfErr result (λ fault. (fault ≡ WorkFault.BadCount) × IsBadCount count) }
    {
        if count == 0 || count > MOST_WORKERS {
            return Err(WorkFault::BadCount);
        }
        Ok(Workers { rt, count })
    }
}

impl<'r, R: Threads + Wait + Sync> Workers<'r, R> {
    /// The answers to plans in a session, which has their loaders, in rounds that they share; or where they are over a limit.
    pub(crate) fn answer_all<S: Source>(
        &self,
        session: &mut Session<S>,
        plans: Vec<LimitedPlan>,
        limits: Limits,
    ) -> Result<Result<Vec<Answer>, Overrun>, AllocError>
        requires { All (HasLoadersFor session.old) plans.items }
        ensures answers { IfOk result (AreAnswersWithin S.may_answer (state_of session.old)
            (state_of session.new) limits (limited_requests plans.items)) }
        ensures stopped { OnErr result (StopsAnswering S.may_answer (state_of session.old)
            (state_of session.new) (together (limited_requests plans.items))) }
    {
        match answer_all_with(self.rt, session, plans, limits, self.count) {
            Ok(answers) => Ok(Ok(answers)),
            Err(WorkFault::Over(overrun)) => Ok(Err(overrun)),
            Err(WorkFault::NoMemory) => Err(AllocError),
            Err(WorkFault::BadCount) => unreachable!(),
        }
    }
}
