//! Plans whose answers have a limit in bytes.
ghost use Rattle.std.specs.Prelude.{◌≡◌, length};
ghost use Rattle.std.specs.Arc.{arc_value};
ghost use Rattle.gq_check.specs.Plans.{plan_of};
ghost use Rattle.gq_resolve.specs.PreparedPlans.{within};
ghost use Rattle.gq_resolve.specs.StepsLeft.{steps_left};
ghost use Rattle.gq_resolve.specs.Suspended.{FitsMemory};
ghost use Rattle.gq_resolve.specs.Within.{text_within};
ghost use Rattle.plan_program.specs.PlanPrograms.{plan_program};

use crate::prepared_plan::PreparedPlan;
use crate::root_state::RootState;
use execution::{CountWork, Counted, Execute, ExecutionResult};
use futures::task::Poll;
use gq_check::Plan;
use load_memory::Memory;
use load_queue::Wants;
use std::alloc::{AllocError, Global};
use std::marker::Model;
use std::sync::Arc;

/// A prepared plan with a limit. It is executed as the plan is, and its text is that of the plan's answer if that has at most `most`
/// bytes. A longer one is refused, and the text is that of the refusal: an execution keeps no more of it than the limit needs.
///
/// The limit is on the text of the response with its errors: what errors make null doesn't count. So everything
/// that is said of texts holds of limited ones.
///
/// It shares the prepared plan, so that many may be answered with one preparation, each within a limit of its own. An execution begins with
/// a copy of what was prepared.
///
/// A contract sees the plan and the limit.
pub struct LimitedPlan {
    plan: Arc<PreparedPlan>,
    most: Option<usize>,
}

impl Model for LimitedPlan {
    ghost use Rattle.std.specs.Arc.{arc_value};
    ghost use Rattle.std.specs.Coded.{codes};
    ghost use Rattle.gq_parser.specs.contracts.tree.TypeRef as type_ref;
    ghost use Rattle.gq_parser.specs.contracts.tree.Literal as literal;
    ghost use Rattle.gq_parser.specs.contracts.tree.Argument as argument;
    ghost use Rattle.gq_parser.specs.contracts.tree.SelectionSet as set;
    ghost use Rattle.gq_schema.specs.contracts.input.Input as input;
    ghost use Rattle.gq_resolve.specs.PreparedPlans.{LimitedPlanOf};

    ghost Value = { LimitedPlanOf };

    ghost coded = { Prim.hlevel (codes, type_ref.the_row.coded, literal.the_row.coded, argument.the_row.coded, set.the_row.coded, input.the_row.coded) };

    ghost view = { λ l. record { plan = arc_value l.plan; most = l.most } };
}

impl Drop for LimitedPlan {
    fn drop(self) {
        let LimitedPlan {
            plan: _plan,
            most: _,
        } = self;
    }
}

impl Clone for LimitedPlan {
    ghost is_clone = { λ x y. y ≡ x };

    fn clone(&self) -> Result<LimitedPlan, AllocError> {
        Ok(LimitedPlan {
            plan: Arc::try_clone(&self.plan)?,
            most: self.most,
        })
    }
}

impl LimitedPlan {
    /// A plan of whose answer the text has at most `most` bytes. Without a limit it is executed just as the plan is.
    pub fn new(plan: Arc<PreparedPlan>, most: Option<usize>) -> LimitedPlan
        ensures { result ≡ within (arc_value plan) most }
    {
        LimitedPlan { plan, most }
    }

    /// Returns the plan.
    pub fn plan(&self) -> &Plan
        ensures { result.now ≡ self.now.plan }
    {
        self.plan.plan()
    }
}

impl Execute<RootState> for LimitedPlan {
    ghost program = { λ limited. plan_program (plan_of limited.plan) };

    ghost text_of = { λ limited. text_within limited.most };

    ghost loaders = { λ limited. length (plan_of limited.plan).bindings.loaders };

    ghost fits = { λ limited state m. FitsMemory (plan_of limited.plan) state m };

    ghost left = { λ limited state m. steps_left (plan_of limited.plan) limited.most state m };

    fn start(&self) -> RootState {
        RootState::new(self.plan.plan())
    }

    fn execute(
        &self,
        progress: &mut RootState,
        alloc: Global,
        memory: &Memory,
        wants: &mut Wants,
    ) -> Result<Poll<ExecutionResult>, AllocError> {
        self.plan.begin(progress)?;
        let plan = self.plan.plan();
        progress.poll_text(alloc, plan, memory, wants, self.most)
    }

    fn work_ahead(
        &self,
        progress: &mut RootState,
        alloc: Global,
        memory: &Memory,
        steps: usize,
    ) -> Result<Option<usize>, AllocError> {
        self.plan.begin(progress)?;
        progress.work_ahead(alloc, self.plan.plan(), memory, self.most, steps)
    }
}

impl CountWork<RootState> for LimitedPlan {
    fn work_left(
        &self,
        alloc: Global,
        memory: &Memory,
        most: usize,
    ) -> Result<Option<usize>, AllocError> {
        self.plan.work_left(alloc, memory, most)
    }

    fn count_ahead(
        &self,
        progress: &mut RootState,
        alloc: Global,
        memory: &Memory,
        most: usize,
        steps: usize,
    ) -> Result<Option<Counted>, AllocError> {
        self.plan.count_ahead(progress, alloc, memory, most, steps)
    }
}
