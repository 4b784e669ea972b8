//! Executions of plans: each with its answer once nothing that it needs is missing.
ghost use Rattle.std.specs.Prelude.{◌≡◌, ◌≤◌, length, map, is_none, None, option_map, IfOk, OnOk};
ghost use Rattle.execution.specs.Front.{front, wanting};
ghost use Rattle.load_memory.specs.Pairs.{look};
ghost use Rattle.execution.specs.Executes.{CanExecute};
ghost use Rattle.load_rounds.specs.SharedRounds.{report_of};
ghost use Rattle.load_rounds.specs.Executions.{reports_in};

use crate::answer::Answer;
use execution::{CountWork, Counted, Execute};
use futures::task::Poll;
use load_memory::Memory;
use load_queue::Wants;
use std::alloc::{AllocError, Global};
use std::marker::Model;

/// A plan with its execution, and its answer once nothing that it needs is missing.
#[derive(Drop)]
pub(crate) struct PlanExecution<P, E> {
    plan: P,
    progress: E,
    answer: Option<Answer>,
}

impl<P, E> Model for PlanExecution<P, E> {
    ghost use Rattle.std.specs.Prelude.{option_map};
    ghost use Rattle.load_rounds.specs.SharedRounds.{report_of};
    ghost use Rattle.load_rounds.specs.Executions.{PartOf};

    ghost Value = { PartOf P E };

    ghost view = { λ p. record { plan = p.plan; progress = p.progress; report = option_map report_of p.answer } };
}

impl<P, E> PlanExecution<P, E> {
    /// The plan.
    pub(crate) fn plan(&self) -> &P
        ensures { result.now ≡ self.now.plan }
    {
        &self.plan
    }
}

impl<E, P: Execute<E>> PlanExecution<P, E> {
    /// The execution of a plan of which nothing is done.
    pub(crate) fn start(plan: P) -> PlanExecution<P, E>
        ensures plan { result.plan ≡ plan }
        ensures none { result.report ≡ None }
        ensures fits { (m : _) → P.fits plan result.progress m }
    {
        let progress = plan.start();
        PlanExecution {
            plan,
            progress,
            answer: None,
        }
    }
}

impl<E: Drop, P: Execute<E>> PlanExecution<P, E> {
    ghost use Rattle.load_rounds.specs.Executions.{FitsPart, GoesOn};

    /// Goes on with the execution over the memory, unless there is an answer already. If loads are missing, adds them to the wants
    /// and returns true. Where there is one, the progress begins anew: what it has counted may be of this memory alone.
    pub(crate) fn go_on(
        &mut self,
        alloc: Global,
        memory: &Memory,
        rounds: u32,
        wants: &mut Wants,
    ) -> Result<bool, AllocError>
        requires can { CanExecute
            (P.loaders self.old.plan) memory.now wants.old }
        requires fits { FitsPart P.program P.text_of P.loaders P.fits
            self.old.plan self.old.progress self.old.report memory.now }
        ensures went { OnOk result
            (GoesOn P.program P.text_of P.loaders P.fits rounds memory.now self.old self.new) }
        ensures wanted { OnOk result (wants.new ≡ wanting wants.old
            (front memory.now.modes (P.program self.old.plan) (look memory.now.pairs))) }
        ensures missing { IfOk result
            (λ missing. missing ≡ is_none self.new.report) }
        ensures kept { self.new.plan ≡ self.old.plan }
    {
        if self.answer.is_some() {
            self.progress = self.plan.start();
            return Ok(false);
        }
        match self.plan.execute(&mut self.progress, alloc, memory, wants)? {
            Poll::Ready(result) => {
                self.answer = Some(Answer {
                    text: result.text,
                    rounds,
                    loads: result.loads,
                });
                Ok(false)
            }
            Poll::Pending => Ok(true),
        }
    }
}

impl<E, P: Execute<E>> PlanExecution<P, E> {
    ghost use Rattle.load_rounds.specs.Executions.{FitsPart};
    ghost use Rattle.load_rounds.specs.Steps.{PartAhead};

    /// Works ahead on the execution over the memory by so many `steps`, unless there is an answer already. Returns the steps that are left
    /// over once nothing is left to do ahead.
    pub(crate) fn work_ahead(
        &mut self,
        alloc: Global,
        memory: &Memory,
        steps: usize,
    ) -> Result<Option<usize>, AllocError>
        requires fits { FitsPart P.program P.text_of P.loaders P.fits
            self.old.plan self.old.progress self.old.report memory.now }
        ensures ahead { PartAhead P.program P.text_of P.loaders P.fits P.left (λ rest. rest)
            steps memory.now result self.old self.new }
    {
        if self.answer.is_some() {
            return Ok(Some(steps));
        }
        self.plan
            .work_ahead(&mut self.progress, alloc, memory, steps)
    }
}

impl<E, P: CountWork<E>> PlanExecution<P, E> {
    ghost use Rattle.execution.specs.Loads.{read};
    ghost use Rattle.execution.specs.Work.{work};
    ghost use Rattle.load_rounds.specs.Executions.{FitsPart};
    ghost use Rattle.load_rounds.specs.Steps.{PartAhead, TellsCount, over};

    /// Counts the work over the memory by so many `steps`, whether there is an answer or not. Once it is counted, returns what it leaves of
    /// `most` and the steps that are left over.
    pub(crate) fn count_ahead(
        &mut self,
        alloc: Global,
        memory: &Memory,
        most: usize,
        steps: usize,
    ) -> Result<Option<Counted>, AllocError>
        requires can { P.loaders self.old.plan ≤ length memory.now.modes }
        requires fits { FitsPart P.program P.text_of P.loaders P.fits
            self.old.plan self.old.progress self.old.report memory.now }
        ensures counted { IfOk result (TellsCount most (work (P.program self.old.plan)
            (read memory.now.modes (look memory.now.pairs)))) }
        ensures ahead { PartAhead P.program P.text_of P.loaders P.fits P.left over
            steps memory.now result self.old self.new }
    {
        self.plan
            .count_ahead(&mut self.progress, alloc, memory, most, steps)
    }
}

impl<P: Drop, E: Drop> PlanExecution<P, E> {
    /// The answer, if nothing is missing any more.
    pub(crate) fn into_answer(self) -> Option<Answer>
        ensures { option_map report_of result ≡ self.report }
    {
        self.answer
    }
}

/// The answers, in order.
pub(crate) fn answers_in<P: Drop, E: Drop>(
    alloc: Global,
    executions: Vec<PlanExecution<P, E>>,
) -> Result<Vec<Answer>, AllocError>
    ensures { IfOk result (λ answers.
        map report_of answers.items ≡ reports_in executions.items) }
{
    let mut answers = Vec::with_capacity(alloc, executions.len())?;
    for execution in executions {
        if let Some(answer) = execution.into_answer() {
            answers.push(answer)?;
        }
    }
    Ok(answers)
}
