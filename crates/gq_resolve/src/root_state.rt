//! The execution of a plan that is polled, and goes on where it stopped.

ghost use Rattle.std.specs.Prelude.{◌≡◌, ◌≤◌, length, None, IfOk, IfSome, OnOk, OnErr};
ghost use Rattle.load_memory.specs.Pairs.{MemoryOf};
ghost use Rattle.execution.specs.Executes.{CanExecute, IsExecuted, GrowsTo};
ghost use Rattle.gq_check.specs.Plans.{PlanOf, plan_of};
ghost use Rattle.plan_program.specs.PlanPrograms.{plan_program};
ghost use Rattle.gq_resolve.specs.Evaluated.{missing_over, AddsPart};
ghost use Rattle.gq_resolve.specs.Suspended.{FitsMemory, IsFinished, IsRooted, plan_on};
ghost use Rattle.gq_resolve.specs.StepsLeft.{WorksAhead, CountsAhead};
ghost use Rattle.gq_resolve.specs.Within.{text_within};

use crate::advance::{FinishedWalk, RootObject, Suspension, advance};
use crate::answer_ahead::{AnswerAhead, search};
use crate::limited::whole_text;
use crate::most_groups::most_groups_of;
use crate::output::NO_LIMIT;
use crate::wanting::add_wants;
use crate::work::{WorkCount, root_of};
use execution::{Counted, ExecutionResult};
use futures::task::Poll;
use gq_check::Plan;
use load_memory::Memory;
use load_queue::Wants;
use plan_walk::waiting::Waiting;
use plan_walk::walk::Walk;
use std::alloc::{AllocError, Global};

/// The execution of a plan, which goes on where it stopped. It owns what it keeps, and is given its plan at each poll.
///
/// A poll goes on at the positions that wait, looks below them for loads alone, and reads no cell but those of
/// keys; over a memory without a pair it begins so at the root. When none waits, a walk from the root writes the
/// answer, so polls visit each object twice at most. Work ahead visits those again in which a walk was stopped.
/// Where nothing below the positions can load, what was prepared is kept alone, and the next poll is that walk.
pub struct RootState {
    /// Says how many groups are kept at most.
    most: usize,
    /// Nothing before it is polled, after it has answered, and after it was out of memory: it then begins at its root.
    stopped: Option<Suspension>,
    /// The answer, where it is written ahead.
    ahead: Option<Box<AnswerAhead>>,
    /// The count of the work over the memory, where it is made ahead.
    count: Option<Box<WorkCount>>,
}

impl Drop for RootState {
    fn drop(self) {
        let RootState {
            most: _,
            stopped: _stopped,
            ahead: _ahead,
            count: _count,
        } = self;
    }
}

impl RootState {
    /// The execution of a plan, of which nothing is done. It takes no memory.
    pub fn new(plan: &Plan) -> RootState
        ensures { (m : MemoryOf)
            → FitsMemory (plan_of plan.now) result m }
    {
        RootState {
            most: most_groups_of(plan),
            stopped: None,
            ahead: None,
            count: None,
        }
    }

    /// Begins with a copy of what was prepared of the plan, where nothing is done yet.
    pub(crate) fn begin_prepared(&mut self, prepared: &RootObject) -> Result<(), AllocError>
        ensures fits { (plan : PlanOf) → OnOk result (IsRooted plan prepared.now → (m : MemoryOf)
            → FitsMemory plan self.old m → FitsMemory plan self.new m) }
        ensures others { self.new ≡ record self.old { stopped = self.new.stopped } }
    {
        if self.stopped.is_none() && self.ahead.is_none() {
            let rooted = prepared.copy()?;
            let alloc = *rooted.groups.allocator();
            self.stopped = Some(Suspension {
                rooted,
                waiting: Waiting::new(alloc),
            });
        }
        Ok(())
    }

    /// Goes on with each load that the memory has. It is ready with the text of the answer (section 7.1) and the count of the loads
    /// that it reads where nothing is missing, and else adds what is needed and missing to the wants, depth first. An answer without
    /// errors is written straight from the rows.
    ///
    /// With a limit the text may have `most` bytes and no more: a longer one is refused, and the text is that of its refusal. What it
    /// holds of the answer at any time is in proportion to that limit.
    ///
    /// # Errors
    ///
    /// Only when out of memory. The wants hold what they held, and the first of what was to be added. The
    /// execution fits every memory again, since the next poll begins anew (`err`, `grown`).
    pub fn poll_text(
        &mut self,
        alloc: Global,
        plan: &Plan,
        memory: &Memory,
        wants: &mut Wants,
        most: Option<usize>,
    ) -> Result<Poll<ExecutionResult>, AllocError>
        requires { CanExecute (length (plan_of plan.now).bindings.loaders) memory.now wants.old }
        ensures ok { FitsMemory (plan_of plan.now) self.old memory.now → IfOk result (IsExecuted (text_within most)
            wants.old wants.new (plan_program (plan_of plan.now)) memory.now) }
        ensures err { FitsMemory (plan_of plan.now) self.old memory.now → OnErr result (AddsPart wants.old
            wants.new (missing_over memory.now (plan_program (plan_of plan.now)))) }
        ensures grown { (m : MemoryOf) → FitsMemory (plan_of plan.now) self.old memory.now
            → GrowsTo memory.now m → FitsMemory (plan_of plan.now) self.new m }
    {
        let walk = Walk {
            alloc,
            plan,
            memory,
            most: self.most,
        };
        self.count = None;
        if self.ahead.is_some() {
            if let Some(result) = self.finish_ahead(&walk, most)? {
                return Ok(Poll::Ready(result));
            }
        }
        let mut walked = advance(&walk, most.unwrap_or(NO_LIMIT), self.stopped.take())?;
        if walked.out.blocked.is_empty() {
            let loads = walked.out.loads;
            let text = whole_text(alloc, walked.out.text.finish()?, most)?;
            return Ok(Poll::Ready(ExecutionResult { text, loads }));
        }
        let out = walked.out;
        let rooted = walked.rooted;
        let modes = memory.modes().len();
        let waiting = add_wants(alloc, &rooted.groups, out.blocked, modes, wants)?;
        self.stopped = Some(Suspension { rooted, waiting });
        Ok(Poll::Pending)
    }

    // The answer that was written ahead, with what is left of it. Nothing of it is kept.
    fn finish_ahead(
        &mut self,
        walk: &Walk<'_>,
        most: Option<usize>,
    ) -> Result<Option<ExecutionResult>, AllocError>
        ensures result { FitsMemory (plan_on walk.now) self.old walk.now.memory.now
            → IfOk result (λ done. IfSome done (IsFinished (text_within most) walk.now)) }
        ensures kept { self.new ≡ record self.old { ahead = None } }
    {
        let Some(ahead) = self.ahead.take() else {
            return Ok(None);
        };
        let Some(whole) = Box::into_inner(ahead).finish(walk, most)? else {
            return Ok(None);
        };
        let loads = whole.loads;
        let text = whole_text(walk.alloc, whole.text.finish()?, most)?;
        Ok(Some(ExecutionResult { text, loads }))
    }

    /// Works ahead: looks for what is missing, and where nothing is, writes so many fields and items of the answer at most, or one. Returns
    /// how many of the steps weren't needed once nothing is left of that.
    ///
    /// # Errors
    ///
    /// Only when out of memory. The execution begins anew then.
    pub fn work_ahead(
        &mut self,
        alloc: Global,
        plan: &Plan,
        memory: &Memory,
        most: Option<usize>,
        steps: usize,
    ) -> Result<Option<usize>, AllocError>
        ensures { IfOk result
            (WorksAhead (plan_of plan.now) memory.now most steps self.old self.new) }
    {
        let walk = Walk {
            alloc,
            plan,
            memory,
            most: self.most,
        };
        let ahead = match self.ahead.take() {
            Some(ahead) => Box::into_inner(ahead),
            None => {
                let FinishedWalk { rooted, out } = search(&walk, self.stopped.take())?;
                if !out.blocked.is_empty() {
                    let waiting = out.blocked;
                    self.stopped = Some(Suspension { rooted, waiting });
                    return Ok(Some(steps));
                }
                AnswerAhead::new(alloc, rooted, most)
            }
        };
        let before = ahead.walked.taken;
        let ahead = ahead.go_on(&walk, steps.max(1))?;
        let rest = ahead.walked.steps_over(before, steps);
        let over = if ahead.walked.is_whole() {
            Some(rest)
        } else {
            None
        };
        self.ahead = Some(Box::new(alloc, ahead)?);
        Ok(over)
    }

    /// Goes on with the count of the work over the memory, for so many positions at most, or one. A count begins at a copy of the root that
    /// was prepared. Returns what the work leaves of `most`, and how many of the steps weren't needed, once the count is done.
    ///
    /// # Errors
    ///
    /// Only when out of memory. The count begins anew then.
    pub fn count_ahead(
        &mut self,
        walk: &Walk<'_>,
        prepared: &Option<RootObject>,
        most: usize,
        steps: usize,
    ) -> Result<Option<Counted>, AllocError>
        requires { length (plan_on walk.now).bindings.loaders ≤ length walk.now.memory.now.modes }
        ensures { IfSome prepared.now (IsRooted (plan_on walk.now)) → IfOk result
            (CountsAhead (plan_on walk.now) walk.now.memory.now most steps self.old self.new) }
    {
        let count = match self.count.take() {
            Some(count) => Box::into_inner(count),
            None => WorkCount::new(walk.alloc, root_of(walk, prepared)?),
        };
        let (count, counted) = count.go_on(walk, most, steps)?;
        self.count = Some(Box::new(walk.alloc, count)?);
        Ok(counted)
    }
}
