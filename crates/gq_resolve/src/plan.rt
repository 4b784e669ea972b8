//! Plans, as what is executed.
ghost use Rattle.std.specs.Prelude.{None, length};
ghost use Rattle.gq_check.specs.Plans.{plan_of};
ghost use Rattle.gq_resolve.specs.Answered.{answer_text};
ghost use Rattle.gq_resolve.specs.StepsLeft.{steps_left};
ghost use Rattle.gq_resolve.specs.Suspended.{FitsMemory};
ghost use Rattle.plan_program.specs.PlanPrograms.{plan_program};

use crate::root_state::RootState;
use execution::{Execute, ExecutionResult};
use futures::task::Poll;
use gq_check::Plan;
use load_memory::Memory;
use load_queue::Wants;
use std::alloc::{AllocError, Global};

impl Execute<RootState> for Plan {
    ghost program = { λ plan. plan_program (plan_of plan) };

    ghost text_of = { λ _. answer_text };

    ghost loaders = { λ plan. length (plan_of plan).bindings.loaders };

    ghost fits = { λ plan state m. FitsMemory (plan_of plan) state m };

    ghost left = { λ plan state m. steps_left (plan_of plan) None state m };

    fn start(&self) -> RootState {
        RootState::new(self)
    }

    fn execute(
        &self,
        progress: &mut RootState,
        alloc: Global,
        memory: &Memory,
        wants: &mut Wants,
    ) -> Result<Poll<ExecutionResult>, AllocError> {
        progress.poll_text(alloc, self, memory, wants, None)
    }

    fn work_ahead(
        &self,
        progress: &mut RootState,
        alloc: Global,
        memory: &Memory,
        steps: usize,
    ) -> Result<Option<usize>, AllocError> {
        progress.work_ahead(alloc, self, memory, None, steps)
    }
}
