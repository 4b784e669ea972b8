//! Answers in turn: round after round until nothing is missing, of one plan or of several that share rounds.
ghost use Rattle.std.specs.Prelude.{◌≤◌, All, length, IfOk, OnErr};

use crate::session::Session;
use execution::Execute;
use load_queue::LocalSource;
use std::alloc::AllocError;

/// The text of an answer, how many rounds it took, and how many loads it read.
#[derive(Debug, Drop)]
pub struct Answer {
    /// The response as JSON.
    pub text: String,
    /// The rounds that were made for this answer.
    pub rounds: u32,
    /// How many loads it read, each as often as it was read: as many calls as an executor makes that asks for one key at a time and
    /// remembers nothing. It stays at `u64::MAX`.
    pub loads: u64,
}

impl<S: LocalSource> Session<S> {
    ghost use Rattle.load_rounds.specs.Sessions.{state_of};
    ghost use Rattle.load_rounds.specs.Headline.{HasHeadline, StopsAnswering};
    ghost use Rattle.load_rounds.specs.SharedRounds.{requests, joint, AreAnswers};

    /// Answers a plan on this thread. It forgets failed batches, and then makes rounds until nothing is
    /// missing. Each round asks for all keys that are needed and missing.
    ///
    /// When out of memory, the finished rounds stay, and a round that was out is lost.
    ///
    /// # Headline
    ///
    /// `answer`; out of memory, `stopped`: the finished rounds stay
    pub fn answer<E: Drop, P: Execute<E>>(&mut self, plan: &P) -> Result<Answer, AllocError>
        requires { P.loaders plan.now
            ≤ length self.old.loaders }
        ensures answer { IfOk result (HasHeadline S.may_tell (state_of self.old) (state_of self.new)
            (P.program plan.now) (P.text_of plan.now)) }
        ensures stopped { OnErr result (StopsAnswering S.may_tell (state_of self.old)
            (state_of self.new) (P.program plan.now)) }
    {
        let mut rounds = self.begin(plan);
        while rounds.turn(self)? {}
        match rounds.into_answer() {
            Some(answer) => Ok(answer),
            None => unreachable!(),
        }
    }

    /// Answers several plans on this thread, in rounds that they share: each round asks for all keys that any of them needs and
    /// that are missing. It forgets failed batches first. There is an answer for each plan, in order.
    ///
    /// When out of memory, the finished rounds stay, and a round that was out is lost.
    ///
    /// # Headline
    ///
    /// `answers`: `SharedHeadline`, the headline of several plans; out of memory, `stopped`
    pub fn answer_all<E: Drop, P: Execute<E> + Drop>(
        &mut self,
        plans: Vec<P>,
    ) -> Result<Vec<Answer>, AllocError>
        requires { All (λ plan. P.loaders plan
            ≤ length self.old.loaders) plans.items }
        ensures answers { IfOk result (AreAnswers S.may_tell (state_of self.old)
            (state_of self.new) (requests P.program P.text_of plans.items)) }
        ensures stopped { OnErr result (StopsAnswering S.may_tell (state_of self.old)
            (state_of self.new) (joint P.program P.text_of plans.items)) }
    {
        let mut rounds = self.begin_all(plans)?;
        while rounds.turn(self)? {}
        rounds.into_answers(self.alloc())
    }
}
