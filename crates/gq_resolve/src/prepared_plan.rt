//! Plans that are prepared ahead, for requests that come again.

ghost use Rattle.std.specs.Prelude.{◌≡◌, ◌≤◌, IfOk, IfSome, OnOk, length};
ghost use Rattle.load_memory.specs.Pairs.{MemoryOf};
ghost use Rattle.execution.specs.Work.{IsLeft};
ghost use Rattle.gq_check.specs.Plans.{IsSameBut, plan_of};
ghost use Rattle.gq_resolve.specs.StepsLeft.{CountsAhead};
ghost use Rattle.gq_resolve.specs.Suspended.{FitsMemory};
ghost use Rattle.gq_resolve.specs.WorkLeft.{plan_work};

use crate::advance::{RootObject, prepare_root};
use crate::most_groups::{most_ahead_of, most_groups_of};
use crate::root_state::RootState;
use crate::work::{root_of, work_left};
use execution::Counted;
use gq_check::Plan;
use load_memory::Memory;
use plan_program::agrees_on_directives;
use plan_walk::loading_fields::prepare_below;
use plan_walk::walk::Walk;
use std::alloc::{AllocError, Global};
use std::marker::Model;

/// A plan, and what each execution of it would prepare anew: the fields of its root, and those of objects below, but where an argument
/// there is given by a variable.
///
/// It is executed within a limit ([`LimitedPlan`](crate::LimitedPlan)), as often as is wanted. Each execution answers as the plan itself
/// does: it begins with a copy, of a block of memory for all groups and one for each group below which objects of several
/// types were prepared.
///
/// It owns all of that: an `Arc` shares it between threads, and a cache or a handle keeps it.
///
/// A contract sees the plan.
pub struct PreparedPlan {
    plan: Plan,
    // Nothing where the plan is executed once, and so prepares as it goes on.
    rooted: Option<RootObject>,
}

impl Model for PreparedPlan {
    ghost use Rattle.std.specs.Coded.{codes};
    ghost use Rattle.std.specs.Prelude.{IfSome};
    ghost use Rattle.gq_parser.specs.contracts.tree.TypeRef as type_ref;
    ghost use Rattle.gq_parser.specs.contracts.tree.Literal as literal;
    ghost use Rattle.gq_parser.specs.contracts.tree.Argument as argument;
    ghost use Rattle.gq_parser.specs.contracts.tree.SelectionSet as set;
    ghost use Rattle.gq_schema.specs.contracts.input.Input as input;
    ghost use Rattle.gq_check.specs.Plans.{plan_of};
    ghost use Rattle.gq_check.specs.Plans.{PlanParts};
    ghost use Rattle.gq_resolve.specs.Suspended.{IsReusable};

    ghost Value = { PlanParts };

    ghost coded = { Prim.hlevel (codes, type_ref.the_row.coded, literal.the_row.coded, argument.the_row.coded, set.the_row.coded, input.the_row.coded) };

    ghost view = { λ p. p.plan };

    ghost invariant = { λ p. IfSome p.rooted (IsReusable (plan_of p.plan)) };
}

impl Drop for PreparedPlan {
    fn drop(self) {
        let PreparedPlan {
            plan: _plan,
            rooted: _rooted,
        } = self;
    }
}

impl PreparedPlan {
    /// Prepares a plan.
    ///
    /// # Errors
    ///
    /// Only when out of memory.
    pub fn new(alloc: Global, plan: Plan) -> Result<PreparedPlan, AllocError>
        ensures { IfOk result (λ prepared. prepared ≡ plan) }
    {
        let memory = Memory::new(alloc, Vec::new(alloc))?;
        let walk = Walk {
            alloc,
            plan: &plan,
            memory: &memory,
            most: most_groups_of(&plan),
        };
        let mut rooted = prepare_root(&walk)?;
        prepare_below(&walk, &mut rooted.groups, most_ahead_of(&plan))?;
        rooted.groups.shrink_to_fit();
        Ok(PreparedPlan {
            plan,
            rooted: Some(rooted),
        })
    }

    /// A plan that is executed once: nothing is prepared ahead, and so nothing is copied.
    pub fn for_one_use(plan: Plan) -> PreparedPlan
        ensures { result ≡ plan }
    {
        PreparedPlan { plan, rooted: None }
    }

    /// A plan of the same operation with other values of its variables, with what was prepared of this one: only what the root asks for by
    /// its arguments is prepared anew. Nothing where a variable is true in one of them alone, since directives may leave out something else
    /// then.
    ///
    /// # Errors
    ///
    /// Only when out of memory.
    pub fn again(&self, alloc: Global, plan: Plan) -> Result<Option<PreparedPlan>, AllocError>
        requires { IsSameBut self.now plan }
        ensures { IfOk result
            (λ prepared. IfSome prepared (λ again. again ≡ plan)) }
    {
        if !agrees_on_directives(&self.plan, &plan) {
            return Ok(None);
        }
        let rooted = match &self.rooted {
            Some(rooted) => Some(rooted.again(alloc, &plan)?),
            None => None,
        };
        Ok(Some(PreparedPlan { plan, rooted }))
    }

    /// Returns the plan.
    pub fn plan(&self) -> &Plan
        ensures { result.now ≡ self.now }
    {
        &self.plan
    }

    /// Returns what the work of the plan leaves of `most`, or `None` where it is more. It begins with a copy of what was prepared.
    pub(crate) fn work_left(
        &self,
        alloc: Global,
        memory: &Memory,
        most: usize,
    ) -> Result<Option<usize>, AllocError>
        requires { length (plan_of self.now).bindings.loaders ≤ length memory.now.modes }
        ensures { IfOk result (IsLeft most (plan_work (plan_of self.now) memory.now)) }
    {
        let walk = Walk {
            alloc,
            plan: &self.plan,
            memory,
            most: most_groups_of(&self.plan),
        };
        let rooted = root_of(&walk, &self.rooted)?;
        work_left(&walk, rooted, most)
    }

    /// Does what [`work_left`](PreparedPlan::work_left) does in steps, with a count that the progress keeps.
    pub(crate) fn count_ahead(
        &self,
        progress: &mut RootState,
        alloc: Global,
        memory: &Memory,
        most: usize,
        steps: usize,
    ) -> Result<Option<Counted>, AllocError>
        requires { length (plan_of self.now).bindings.loaders ≤ length memory.now.modes }
        ensures { IfOk result
            (CountsAhead (plan_of self.now) memory.now most steps progress.old progress.new) }
    {
        let walk = Walk {
            alloc,
            plan: &self.plan,
            memory,
            most: most_groups_of(&self.plan),
        };
        progress.count_ahead(&walk, &self.rooted, most, steps)
    }

    // Begins an execution with a copy of what was prepared, where nothing of it is done yet.
    pub(crate) fn begin(&self, progress: &mut RootState) -> Result<(), AllocError>
        ensures fits { OnOk result ((m : MemoryOf) → FitsMemory (plan_of self.now) progress.old m
            → FitsMemory (plan_of self.now) progress.new m) }
        ensures others { progress.new ≡ record progress.old { stopped = progress.new.stopped } }
    {
        match &self.rooted {
            Some(rooted) => progress.begin_prepared(rooted),
            None => Ok(()),
        }
    }
}
