//! Limits of answers: on their work, and on their rounds.
//!
//! A short query may have a very long answer: of two users who are friends of each other and of themselves each level of friends
//! has twice as many as the one above. The work over what is known only grows (`law::refused_rightly`), so an answer is refused as soon as
//! that is over the limit, before anything more is asked. An answer that isn't refused is within the limits.
ghost use Rattle.std.specs.Prelude.{◌≡◌, ◌≤◌, All, length, IfOk, OnOk, OnErr};

use crate::answer::Answer;
use crate::rounds::{Rounds, Stage};
use crate::session::Session;
use execution::CountWork;
use futures::task::Poll;
use load_queue::{LocalSource, Wants};
use std::alloc::AllocError;

/// Limits of answers that are given together. `None` is no limit.
#[derive(Clone, Copy, Debug, PartialEq, Eq)]
pub struct Limits {
    /// How much work all of them may be: the sum of their positions, as [`CountWork`] counts them.
    pub work: Option<usize>,
    /// How many rounds may be made for them.
    pub rounds: Option<u32>,
    /// How many steps one call may take of answers by hand, at least one; then it returns that it isn't done. Answers in one call, and those
    /// by workers, take none.
    pub steps: Option<usize>,
}

impl Limits {
    ghost use Rattle.load_rounds.specs.Limits.{no_limits};

    /// Returns no limit on the work, none on the rounds, and none on the steps of a call.
    pub fn none() -> Limits
        ensures { result ≡ no_limits }
    {
        Limits {
            work: None,
            rounds: None,
            steps: None,
        }
    }
}

/// Says which limit answers are over.
#[derive(Clone, Copy, Debug, PartialEq, Eq)]
pub enum Excess {
    /// Their work is over the limit, by what is known already.
    Work,
    /// Something is missing, and no round more may be made.
    Rounds,
}

/// Says of answers that were refused which limit they are over, and how far they had come.
#[derive(Clone, Copy, Debug, PartialEq, Eq)]
pub struct Overrun {
    /// The limit that they are over.
    pub excess: Excess,
    /// How many rounds were made for them.
    pub rounds: u32,
}

impl<P, E> Rounds<P, E> {
    /// Returns what is told of the answers where they are over this limit, after the rounds so far.
    pub fn overrun(&self, excess: Excess) -> Overrun
        ensures { result ≡ record { excess = excess; rounds = self.now.rounds } }
    {
        Overrun {
            excess,
            rounds: self.rounds(),
        }
    }
}

impl<E: Drop, P: CountWork<E>> Rounds<P, E> {
    ghost use Rattle.load_rounds.specs.Sessions.{state_of};
    ghost use Rattle.load_rounds.specs.SharedRounds.{requests};
    ghost use Rattle.load_rounds.specs.Executions.{plans_in};
    ghost use Rattle.load_rounds.specs.Runs.{GoesOnFrom, Holds};
    ghost use Rattle.load_rounds.specs.Limits.{work_in, AsksInTime, EndsWithin, TellsExcess, TellsRounds, TellsWork};

    // Returns true if the work of all plans over what is known is over a limit.
    fn is_work_over<S>(
        &self,
        session: &Session<S>,
        limit: Option<usize>,
    ) -> Result<bool, AllocError>
        requires { All (λ plan. P.loaders plan
            ≤ length session.now.loaders) (plans_in self.now.parts) }
        ensures { IfOk result (TellsWork limit (work_in (state_of session.now)
            (requests P.program P.text_of (plans_in self.now.parts)))) }
    {
        let Some(most) = limit else {
            return Ok(false);
        };
        let alloc = session.alloc();
        let memory = session.memory();
        let mut left = most;
        for at in 0..self.executions.len() {
            match self.executions.plan(at).work_left(alloc, memory, left)? {
                Some(rest) => left = rest,
                None => return Ok(true),
            }
        }
        Ok(false)
    }

    // Returns true if something is missing and one round more would be over a limit. Each plan is begun anew here, so that nothing changes.
    pub(crate) fn are_rounds_over<S>(
        &self,
        session: &Session<S>,
        limit: Option<u32>,
    ) -> Result<bool, AllocError>
        requires { All (λ plan. P.loaders plan
            ≤ length session.now.loaders) (plans_in self.now.parts) }
        ensures { IfOk result (TellsRounds limit (requests P.program P.text_of
            (plans_in self.now.parts)) (state_of session.now) self.now.rounds) }
    {
        let Some(most) = limit else {
            return Ok(false);
        };
        if self.rounds() < most {
            return Ok(false);
        }
        let alloc = session.alloc();
        let memory = session.memory();
        let mut wants = Wants::new(alloc, memory)?;
        for at in 0..self.executions.len() {
            let plan = self.executions.plan(at);
            let mut progress = plan.start();
            match plan.execute(&mut progress, alloc, memory, &mut wants)? {
                Poll::Ready(_) => {}
                Poll::Pending => return Ok(true),
            }
        }
        Ok(false)
    }

    /// Returns which limit the answers are over already, by what is known, if they are over one. Nothing is asked, and nothing changes. To stay
    /// within limits a caller asks this before each [`advance`](Rounds::advance), or [`step`](Rounds::step), which tells it too.
    ///
    /// It takes time for the work that is known, at most for one position more than the limit. Where no round more may be made, it
    /// executes the plans to see whether anything is missing.
    ///
    /// # Errors
    ///
    /// Only when out of memory. The run can still be advanced.
    pub fn excess<S>(
        &self,
        session: &Session<S>,
        limits: Limits,
    ) -> Result<Option<Excess>, AllocError>
        requires { All (λ plan. P.loaders plan
            ≤ length session.now.loaders) (plans_in self.now.parts) }
        ensures { IfOk result (TellsExcess limits (requests P.program P.text_of
            (plans_in self.now.parts)) (state_of session.now) self.now.rounds) }
    {
        if self.is_work_over(session, limits.work)? {
            return Ok(Some(Excess::Work));
        }
        if self.are_rounds_over(session, limits.rounds)? {
            return Ok(Some(Excess::Rounds));
        }
        Ok(None)
    }

    // Makes round after round in turn until nothing is missing, or until the answers are over a limit, which it returns.
    fn run_within<S: LocalSource>(
        &mut self,
        session: &mut Session<S>,
        limits: Limits,
    ) -> Result<Option<Excess>, AllocError>
        requires ready { (self.old.stage ≡ Stage.Ready) × (self.old.rounds ≡ 0) }
        requires holds { Holds P.program P.text_of P.loaders P.fits self.old session.old }
        ensures ended { IfOk result (EndsWithin P.program P.text_of limits
            self.new (state_of session.new)) }
        ensures in_time { OnOk result (AsksInTime P.program P.text_of S.may_tell limits
            (state_of session.old) (state_of session.new) self.old self.new) }
        ensures run { GoesOnFrom P.program P.text_of S.may_tell
            (state_of session.old) (state_of session.new) self.old self.new }
        ensures plans { plans_in self.new.parts ≡ plans_in self.old.parts }
    {
        loop {
            if let Some(excess) = self.excess(session, limits)? {
                return Ok(Some(excess));
            }
            if !self.turn(session)? {
                return Ok(None);
            }
        }
    }
}

impl<S: LocalSource> Session<S> {
    ghost use Rattle.load_rounds.specs.Sessions.{state_of};
    ghost use Rattle.load_rounds.specs.Headline.{StopsAnswering};
    ghost use Rattle.load_rounds.specs.SharedRounds.{request_of, requests, joint};
    ghost use Rattle.load_rounds.specs.Limits.{IsAnswerWithin, AreAnswersWithin};

    /// Does what [`answer`](Session::answer) does, within limits. An answer that is over a limit is refused, and only such a one.
    ///
    /// An answer is refused as soon as it is over a limit by what is known, and nothing is asked then. The rounds that were made stay.
    /// The work is counted before each round, so a call takes time for as much work as the limit allows, for each of its rounds.
    ///
    /// # Headline
    ///
    /// `answer`, within the limits; refused, the rounds that were made are lawful; out of memory, `stopped`
    pub fn answer_within<E: Drop, P: CountWork<E>>(
        &mut self,
        plan: &P,
        limits: Limits,
    ) -> Result<Result<Answer, Overrun>, AllocError>
        requires { P.loaders plan.now
            ≤ length self.old.loaders }
        ensures answer { IfOk result (IsAnswerWithin S.may_tell (state_of self.old)
            (state_of self.new) limits (request_of (P.program plan.now) (P.text_of plan.now))) }
        ensures stopped { OnErr result (StopsAnswering S.may_tell (state_of self.old)
            (state_of self.new) (P.program plan.now)) }
    {
        let mut rounds = self.begin(plan);
        if let Some(excess) = rounds.run_within(self, limits)? {
            return Ok(Err(rounds.overrun(excess)));
        }
        match rounds.into_answer() {
            Some(answer) => Ok(Ok(answer)),
            None => unreachable!(),
        }
    }

    /// Does what [`answer_all`](Session::answer_all) does, within limits. The work is that of all plans in sum, and the rounds are those that
    /// they share; the answers are refused together.
    ///
    /// # Headline
    ///
    /// `answers`, within the limits; refused, the rounds that were made are lawful; out of memory, `stopped`
    pub fn answer_all_within<E: Drop, P: CountWork<E> + Drop>(
        &mut self,
        plans: Vec<P>,
        limits: Limits,
    ) -> Result<Result<Vec<Answer>, Overrun>, AllocError>
        requires { All (λ plan. P.loaders plan
            ≤ length self.old.loaders) plans.items }
        ensures answers { IfOk result (AreAnswersWithin S.may_tell (state_of self.old)
            (state_of self.new) limits (requests P.program P.text_of plans.items)) }
        ensures stopped { OnErr result (StopsAnswering S.may_tell (state_of self.old)
            (state_of self.new) (joint P.program P.text_of plans.items)) }
    {
        let mut rounds = self.begin_all(plans)?;
        if let Some(excess) = rounds.run_within(self, limits)? {
            return Ok(Err(rounds.overrun(excess)));
        }
        Ok(Ok(rounds.into_answers(self.alloc())?))
    }
}
