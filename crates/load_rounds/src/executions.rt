//! Executions of the plans of a run, in order.
//!
//! Several plans are one program, the items of a list, each of nullable type. So the log of shared rounds is lawful by the same
//! definition as any other, and a plan's own rounds are those in which its own front isn't empty. The execution of a plan alone takes
//! no list.
ghost use Rattle.std.specs.Prelude.{◌≡◌, ◌<◌, ◌≤◌, ◌∷◌, [], All, length, map, option_map, slice_index_or, IfOk};
ghost use Rattle.std.specs.Borrow.{sem};
ghost use Rattle.load_rounds.specs.SharedRounds.{report_of};
ghost use Rattle.load_rounds.specs.Executions.{AreBegun, plans_in, reports_in, first_report};

use crate::answer::Answer;
use crate::plan_execution::{PlanExecution, answers_in};
use execution::{CountWork, Counted, Execute};
use load_memory::Memory;
use std::alloc::{AllocError, Global};
use std::marker::Model;

// Place of the executions.
#[derive(Drop)]
enum Held<P, E> {
    One(PlanExecution<P, E>),
    Several(Vec<PlanExecution<P, E>>),
}

/// Executions of one plan or of several, in order. A contract sees their list.
#[derive(Drop)]
pub(crate) struct Executions<P, E> {
    held: Held<P, E>,
}

impl<P, E> Model for Executions<P, E> {
    ghost use Rattle.std.specs.Prelude.{List};
    ghost use Rattle.load_rounds.specs.Executions.{PartOf};
    ghost use Rattle.load_rounds.specs.Held.{executions_held};

    ghost Value = { List (PartOf P E) };

    ghost view = { λ e. executions_held e.held };
}

impl<P, E> Held<P, E> {
    ghost use Rattle.load_rounds.specs.Held.{executions_held};
    ghost use Rattle.load_rounds.specs.Lending.{LendsHeld};

    // The execution at a place.
    fn execution_mut(&mut self, at: usize) -> &mut PlanExecution<P, E>
        requires { at < length (executions_held self.old) }
        ensures* lends { sem 𝓛 (LendsHeld P.row E.row self.entry at result) }
        ensures value { result.now ≡ slice_index_or (executions_held self.old) at result.now }
    {
        match self {
            Held::One(execution) => execution,
            Held::Several(executions) => &mut executions[at],
        }
    }
}

impl<P, E> Executions<P, E> {
    ghost use Rattle.load_rounds.specs.Lending.{LendsExecution};

    /// How many they are.
    pub(crate) fn len(&self) -> usize
        ensures { result ≡ length self.now }
    {
        match &self.held {
            Held::One(_) => 1,
            Held::Several(executions) => executions.len(),
        }
    }

    /// The plan at a place, from 0.
    pub(crate) fn plan(&self, at: usize) -> &P
        requires { at < length self.now }
        ensures { result.now ≡ slice_index_or (plans_in self.now) at result.now }
    {
        match &self.held {
            Held::One(execution) => execution.plan(),
            Held::Several(executions) => executions[at].plan(),
        }
    }

    /// The execution at a place, from 0.
    pub(crate) fn execution_mut(&mut self, at: usize) -> &mut PlanExecution<P, E>
        requires { at < length self.old }
        ensures* lends { sem 𝓛 (LendsExecution P.row E.row self.entry at result) }
        ensures value { result.now ≡ slice_index_or self.old at result.now }
    {
        self.held.execution_mut(at)
    }
}

impl<E, P: Execute<E>> Executions<P, E> {
    /// The execution of a plan of which nothing is done.
    pub(crate) fn of_one(plan: P) -> Executions<P, E>
        ensures { AreBegun P.program P.text_of P.loaders P.fits (plan ∷ []) result }
    {
        Executions {
            held: Held::One(PlanExecution::start(plan)),
        }
    }
}

impl<E, P: Execute<E>> Executions<P, E> {
    ghost use Rattle.load_rounds.specs.Executions.{FitParts};
    ghost use Rattle.load_rounds.specs.Steps.{PartsAhead};

    /// Works ahead on each that has no answer yet, in order, by so many `steps` in sum: each has what the one before left over. Returns the
    /// steps that are left over once nothing is left to do ahead.
    pub(crate) fn work_ahead(
        &mut self,
        alloc: Global,
        memory: &Memory,
        steps: usize,
    ) -> Result<Option<usize>, AllocError>
        requires fits { FitParts P.program P.text_of P.loaders P.fits self.old memory.now }
        ensures ahead { PartsAhead P.program P.text_of P.loaders P.fits P.left (λ rest. rest)
            steps memory.now result self.old self.new }
    {
        let mut rest = steps;
        for at in 0..self.len() {
            match self.execution_mut(at).work_ahead(alloc, memory, rest)? {
                Some(over) => rest = over,
                None => return Ok(None),
            }
        }
        Ok(Some(rest))
    }
}

impl<E, P: CountWork<E>> Executions<P, E> {
    ghost use Rattle.load_memory.specs.Pairs.{look};
    ghost use Rattle.execution.specs.Loads.{read};
    ghost use Rattle.load_rounds.specs.SharedRounds.{requests};
    ghost use Rattle.load_rounds.specs.Executions.{FitParts};
    ghost use Rattle.load_rounds.specs.Steps.{PartsAhead, TellsCount, over};
    ghost use Rattle.load_rounds.specs.Limits.{work_of_all};

    /// Counts the work of all plans, in order, by so many `steps` in sum: each has what the one before left over, of the limit too. Once it is
    /// counted, or over the limit, returns what it leaves of `most` and the steps that are left over.
    pub(crate) fn count_ahead(
        &mut self,
        alloc: Global,
        memory: &Memory,
        most: usize,
        steps: usize,
    ) -> Result<Option<Counted>, AllocError>
        requires enough { All (λ plan. P.loaders plan
            ≤ length memory.now.modes) (plans_in self.old) }
        requires fits { FitParts P.program P.text_of P.loaders P.fits self.old memory.now }
        ensures counted { IfOk result (TellsCount most (work_of_all (requests P.program P.text_of
            (plans_in self.old)) (read memory.now.modes (look memory.now.pairs)))) }
        ensures ahead { PartsAhead P.program P.text_of P.loaders P.fits P.left over
            steps memory.now result self.old self.new }
    {
        let mut left = most;
        let mut rest = steps;
        for at in 0..self.len() {
            let execution = self.execution_mut(at);
            let Some(counted) = execution.count_ahead(alloc, memory, left, rest)? else {
                return Ok(None);
            };
            match counted.left {
                Some(more) => left = more,
                None => return Ok(Some(counted)),
            }
            rest = counted.steps;
        }
        Ok(Some(Counted {
            left: Some(left),
            steps: rest,
        }))
    }
}

impl<E: Drop, P: Execute<E> + Drop> Executions<P, E> {
    /// Executions of plans of which nothing is done.
    pub(crate) fn of(alloc: Global, plans: Vec<P>) -> Result<Executions<P, E>, AllocError>
        ensures { IfOk result (AreBegun P.program
            P.text_of P.loaders P.fits plans.items) }
    {
        if plans.len() == 1 {
            let mut plans = plans;
            let Some(plan) = plans.pop() else {
                unreachable!();
            };
            return Ok(Executions::of_one(plan));
        }
        let mut executions = Vec::with_capacity(alloc, plans.len())?;
        for plan in plans {
            executions.push(PlanExecution::start(plan))?;
        }
        Ok(Executions {
            held: Held::Several(executions),
        })
    }
}

impl<P: Drop, E: Drop> Executions<P, E> {
    /// The answers, in order.
    pub(crate) fn into_answers(self, alloc: Global) -> Result<Vec<Answer>, AllocError>
        ensures { IfOk result (λ answers.
            map report_of answers.items ≡ reports_in self) }
    {
        match self.held {
            Held::One(execution) => {
                let mut answers = Vec::new(alloc);
                if let Some(answer) = execution.into_answer() {
                    answers.push(answer)?;
                }
                Ok(answers)
            }
            Held::Several(executions) => answers_in(alloc, executions),
        }
    }

    /// The answer of the first.
    pub(crate) fn into_first_answer(self) -> Option<Answer>
        ensures { option_map report_of result ≡ first_report self }
    {
        match self.held {
            Held::One(execution) => execution.into_answer(),
            Held::Several(executions) => executions.into_iter().next()?.into_answer(),
        }
    }
}
