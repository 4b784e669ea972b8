//! Rounds: answers on their way, to one plan or to several that share their rounds.
//!
//! A run is advanced until nothing is missing. What is out meanwhile is run by whoever advances it: in turn ([`Session::answer`]),
//! by workers, as a future ([`Answering`](crate::Answering)), or by the caller.
ghost use Rattle.std.specs.Prelude.{◌≡◌, ◌≤◌, ◌∷◌, [], All, map, length, option_map, IfOk, OnOk, OnErr};
ghost use Rattle.load_memory.specs.Replies.{reply_of};
ghost use Rattle.load_memory.specs.Shelves.{shown};
ghost use Rattle.execution.specs.Sessions.{Forgot};

use crate::answer::Answer;
use crate::executions::Executions;
use crate::lent::Lent;
use crate::session::Session;
use execution::Execute;
use load_memory::{Receipt, Reply, Shelf};
use load_queue::{LocalSource, Order};
use std::alloc::{AllocError, Global};
use std::marker::Model;

/// Says what may be done next with a run.
#[derive(Clone, Copy, Debug, PartialEq, Eq)]
pub enum Stage {
    /// [`advance`](Rounds::advance) may be called, and [`step`](Rounds::step) before it.
    Ready,
    /// A round is out. [`take`](Rounds::take) expects its receipts.
    Out,
    /// Nothing is missing any more. [`into_answers`](Rounds::into_answers) returns the answers.
    Finished,
    /// Out of memory. The run can only be dropped.
    Failed,
}

/// Answers on their way over a session, whose rounds the caller runs: to one plan ([`Session::begin`]), or to several in rounds that they share
/// ([`Session::begin_all`]). It owns the plans, or has them lent, and their executions, an `E` for each plan. A contract sees these, how
/// many rounds were asked, with one that is out, and the stage.
///
/// Its calls go on from what the executions found, so they are made on the session that it was begun on, as its last call left it. It holds
/// neither the session nor the orders of a round, so contracts say what a call does to any session, and what follows where that is the
/// run's own. It is [`Failed`](Stage::Failed) from the start of a call until the call succeeds.
///
/// A run that is dropped while a round is out loses that round: its batches stay in the logs as not stored.
#[derive(Drop)]
pub struct Rounds<P, E> {
    pub(crate) executions: Executions<P, E>,
    pub(crate) rounds: u32,
    pub(crate) stage: Stage,
}

impl<P, E> Model for Rounds<P, E> {
    ghost use Rattle.std.specs.Prelude.{◌<◌, ◌^◌};
    ghost use Rattle.load_rounds.specs.Runs.{RunOf};

    ghost Value = { RunOf P E };

    ghost view = { λ r. record { parts = r.executions; rounds = r.rounds; stage = r.stage } };

    ghost invariant = { λ r. r.rounds < 2 ^ 32 };
}

impl<S: LocalSource> Session<S> {
    ghost use Rattle.load_rounds.specs.Sessions.{state_of, after_step};
    ghost use Rattle.load_rounds.specs.Runs.{Begins};

    /// Begins an answer to a plan whose rounds the caller runs. Forgets failed batches. It takes no memory but that of the
    /// plan's execution.
    ///
    /// # Headline
    ///
    /// `begun` says what was done since `begin`, which each call of the run keeps, and in the end that is the headline (`IsRun`)
    pub fn begin<'p, E, P: Execute<E>>(&mut self, plan: &'p P) -> Rounds<Lent<'p, P>, E>
        requires { P.loaders plan.now
            ≤ length self.old.loaders }
        ensures begun { Begins P.program P.text_of P.loaders
            P.fits S.may_tell self.old self.new (plan.now ∷ []) result }
        ensures forgot { state_of self.new
            ≡ after_step (state_of self.old) Forgot }
    {
        self.forget();
        Rounds::over(Executions::of_one(Lent::of(plan)))
    }

    /// Begins answers to several plans, in rounds that they share and that the caller runs. Forgets failed batches.
    ///
    /// # Errors
    ///
    /// When out of memory failed batches are forgotten, and nothing else has changed (`forgot`).
    ///
    /// # Headline
    ///
    /// As `Session::begin` says, with `SharedHeadline`
    pub fn begin_all<E: Drop, P: Execute<E> + Drop>(
        &mut self,
        plans: Vec<P>,
    ) -> Result<Rounds<P, E>, AllocError>
        requires { All (λ plan. P.loaders plan
            ≤ length self.old.loaders) plans.items }
        ensures begun { IfOk result (Begins P.program P.text_of
            P.loaders P.fits S.may_tell self.old self.new plans.items) }
        ensures forgot { state_of self.new
            ≡ after_step (state_of self.old) Forgot }
    {
        self.forget();
        Ok(Rounds::over(Executions::of(self.alloc(), plans)?))
    }
}

impl<P, E> Rounds<P, E> {
    // A run of executions of which nothing is done.
    fn over(executions: Executions<P, E>) -> Rounds<P, E>
        ensures { result ≡ record { parts = executions; rounds = 0; stage = Stage.Ready } }
    {
        Rounds {
            executions,
            rounds: 0,
            stage: Stage::Ready,
        }
    }

    /// Returns how many rounds it has asked, with one that is out.
    pub fn rounds(&self) -> u32
        ensures { result ≡ self.now.rounds }
    {
        self.rounds
    }

    /// Returns what may be done next.
    pub fn stage(&self) -> Stage
        ensures { result ≡ self.now.stage }
    {
        self.stage
    }
}

impl<P: Drop, E: Drop> Rounds<P, E> {
    ghost use Rattle.load_rounds.specs.SharedRounds.{report_of};
    ghost use Rattle.load_rounds.specs.Executions.{reports_in, first_report};

    /// The answers, in order, once nothing is missing any more: one for each plan then.
    pub fn into_answers(self, alloc: Global) -> Result<Vec<Answer>, AllocError>
        ensures { IfOk result (λ answers.
            map report_of answers.items ≡ reports_in self.parts) }
    {
        self.executions.into_answers(alloc)
    }

    /// The answer to the first plan, once nothing is missing any more. It takes no memory.
    pub fn into_answer(self) -> Option<Answer>
        ensures { option_map report_of result ≡ first_report self.parts }
    {
        self.executions.into_first_answer()
    }
}

impl<E: Drop, P: Execute<E>> Rounds<P, E> {
    ghost use Rattle.load_rounds.specs.Sessions.{state_of};
    ghost use Rattle.load_rounds.specs.Runs.{FailsToAsk, GoesOnFrom, Holds, IsNext, IsTurn, KeepsPlans, MayRun, program_of};

    /// Goes on with each plan that isn't finished, in order. Returns the orders of the next round, by number of loader and then by
    /// piece, which is then out, and nothing if nothing is missing any more.
    ///
    /// # Errors
    ///
    /// When out of memory, the run is [`Failed`](Stage::Failed), with as many rounds as before (`failed`), and
    /// what was done since it was begun is as its clause `run` says. The session is as it was, or the round is
    /// lost and the logs have the batches of its first loaders.
    ///
    /// # Headline
    ///
    /// As `Session::begin` says
    pub fn advance<S: LocalSource>(
        &mut self,
        session: &mut Session<S>,
    ) -> Result<Option<Vec<Order>>, AllocError>
        requires ready { self.old.stage ≡ Stage.Ready }
        requires holds { Holds P.program P.text_of P.loaders P.fits self.old session.old }
        ensures next { IfOk result (IsNext P.program P.text_of
            self.old self.new (state_of session.old) (state_of session.new)) }
        ensures may { OnOk result
            (MayRun (program_of P.program P.text_of self.old) (state_of session.old)) }
        ensures failed { OnErr result (FailsToAsk P.program P.text_of
            (state_of session.old) (state_of session.new) self.old self.new) }
        ensures holds { Holds P.program P.text_of P.loaders P.fits self.new session.new }
        ensures run { GoesOnFrom P.program P.text_of S.may_tell
            (state_of session.old) (state_of session.new) self.old self.new }
        ensures kept { KeepsPlans session.old session.new self.old self.new }
    {
        self.stage = Stage::Failed;
        let alloc = session.alloc();
        let mut wants = session.begin_wants()?;
        let memory = session.memory();
        let mut is_missing = false;
        for at in 0..self.executions.len() {
            let execution = self.executions.execution_mut(at);
            let is_next_missing = execution.go_on(alloc, memory, self.rounds, &mut wants)?;
            is_missing = is_missing | is_next_missing;
        }
        if !is_missing {
            session.keep_wants(wants);
            self.stage = Stage::Finished;
            return Ok(None);
        }
        let rounds = self.rounds.checked_add(1).ok_or(AllocError)?;
        let orders = session.cut(wants)?;
        self.rounds = rounds;
        self.stage = Stage::Out;
        Ok(Some(orders))
    }

    /// Advances, and runs a new round in turn on this thread. Returns true if it made one.
    pub(crate) fn turn<S: LocalSource>(
        &mut self,
        session: &mut Session<S>,
    ) -> Result<bool, AllocError>
        requires ready { self.old.stage ≡ Stage.Ready }
        requires holds { Holds P.program P.text_of P.loaders P.fits self.old session.old }
        ensures turned { IfOk result (IsTurn P.program P.text_of S.may_tell
            self.old self.new (state_of session.old) (state_of session.new)) }
        ensures may { OnOk result
            (MayRun (program_of P.program P.text_of self.old) (state_of session.old)) }
        ensures holds { Holds P.program P.text_of P.loaders P.fits self.new session.new }
        ensures run { GoesOnFrom P.program P.text_of S.may_tell
            (state_of session.old) (state_of session.new) self.old self.new }
        ensures kept { KeepsPlans session.old session.new self.old self.new }
    {
        let Some(orders) = self.advance(session)? else {
            return Ok(false);
        };
        self.stage = Stage::Failed;
        session.run(orders)?;
        self.stage = Stage::Ready;
        Ok(true)
    }
}

impl<E, P: Execute<E>> Rounds<P, E> {
    ghost use Rattle.load_rounds.specs.Sessions.{state_of};
    ghost use Rattle.load_rounds.specs.Histories.{any_tell};
    ghost use Rattle.load_rounds.specs.ByHand.{AreReceiptsIn, AreReceivedIn, AwaitsReplies, RunsIfReceived, RunsReceipts};
    ghost use Rattle.load_rounds.specs.Runs.{FailsToTake, GoesOnFrom, GoesOnIfReceived, Holds, KeepsPlans, TakesReplies, program_of};

    /// Stores the replies to the round that is out, given by their receipts in any order. The session is as the round left it: where
    /// another call changed it since, this one can't be made.
    ///
    /// Two runs over one session that ask the same keys at the same time are one to it: each takes replies to
    /// the same orders.
    ///
    /// # Errors
    ///
    /// When out of memory, the run is [`Failed`](Stage::Failed), with as many rounds as before (`failed`), and
    /// what was done since it was begun is as its clause `run` says. The session is as it was, and the round is
    /// lost.
    ///
    /// # Headline
    ///
    /// As `Session::begin` says
    pub fn take<S: LocalSource>(
        &mut self,
        session: &mut Session<S>,
        shelf: &Shelf,
        receipts: &[Receipt],
    ) -> Result<(), AllocError>
        requires out { AwaitsReplies (program_of P.program P.text_of self.old)
            self.old.stage (state_of session.old) }
        requires round { AreReceiptsIn S.may_tell (program_of P.program P.text_of self.old)
            (state_of session.old) shelf.now receipts.now }
        requires holds { Holds P.program P.text_of P.loaders P.fits self.old session.old }
        ensures taken { OnOk result (TakesReplies (state_of session.old) (state_of session.new)
            self.old self.new (map shown receipts.now)) }
        ensures ran { OnOk result (RunsReceipts S.may_tell (program_of P.program P.text_of
            self.old) (state_of session.old) (state_of session.new) receipts.now) }
        ensures failed { OnErr result (FailsToTake
            (state_of session.old) (state_of session.new) self.old self.new) }
        ensures holds { Holds P.program P.text_of P.loaders P.fits self.new session.new }
        ensures run { GoesOnFrom P.program P.text_of S.may_tell
            (state_of session.old) (state_of session.new) self.old self.new }
        ensures kept { KeepsPlans session.old session.new self.old self.new }
    {
        self.stage = Stage::Failed;
        session.receive(shelf, receipts)?;
        self.stage = Stage::Ready;
        Ok(())
    }

    /// Does what [`take`](Rounds::take) does with replies that it is handed: no shelf, so that nothing waits, and no copy of a key or
    /// an outcome. A reply may have any answer; what the sources may answer counts where the contract says what was done since the
    /// run was begun.
    ///
    /// # Errors
    ///
    /// Those of [`take`](Rounds::take). The replies are gone then.
    ///
    /// # Headline
    ///
    /// As `Session::begin` says
    pub fn take_owned<S: LocalSource>(
        &mut self,
        session: &mut Session<S>,
        replies: Vec<Reply>,
    ) -> Result<(), AllocError>
        requires out { AwaitsReplies (program_of P.program P.text_of self.old)
            self.old.stage (state_of session.old) }
        requires round { AreReceivedIn any_tell (program_of P.program P.text_of self.old)
            (state_of session.old) (map reply_of replies.items) }
        requires holds { Holds P.program P.text_of P.loaders P.fits self.old session.old }
        ensures taken { OnOk result (TakesReplies (state_of session.old) (state_of session.new)
            self.old self.new (map reply_of replies.items)) }
        ensures ran { OnOk result (RunsIfReceived S.may_tell (program_of P.program P.text_of
            self.old) (state_of session.old) (state_of session.new) (map reply_of replies.items)) }
        ensures failed { OnErr result (FailsToTake
            (state_of session.old) (state_of session.new) self.old self.new) }
        ensures holds { Holds P.program P.text_of P.loaders P.fits self.new session.new }
        ensures run { GoesOnIfReceived P.program P.text_of S.may_tell (state_of session.old)
            (state_of session.new) self.old self.new (map reply_of replies.items) }
        ensures kept { KeepsPlans session.old session.new self.old self.new }
    {
        self.stage = Stage::Failed;
        session.receive_owned(replies)?;
        self.stage = Stage::Ready;
        Ok(())
    }
}
