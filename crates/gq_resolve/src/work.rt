//! The work of an answer, counted until it is more than a limit.

ghost use Rattle.std.specs.Prelude.{◌≡◌, ◌≤◌, ℕ, IfOk, IfSome, length};
ghost use Rattle.load_memory.specs.Pairs.{MemoryOf};
ghost use Rattle.execution.specs.Work.{IsLeft};
ghost use Rattle.gq_check.specs.Plans.{PlanOf};
ghost use Rattle.gq_resolve.specs.Suspended.{plan_on, IsRooted, IsCounting};
ghost use Rattle.gq_resolve.specs.StepsLeft.{CountsOn};
ghost use Rattle.gq_resolve.specs.WorkLeft.{plan_work, IsLeftOf, largest};

use crate::advance::{RootObject, go_over, prepare_root};
use crate::paused_walk::PausedWalk;
use execution::Counted;
use load_memory::KeyRef;
use plan_program::LeafValue;
use plan_walk::positions::{Items, Leaf, MemberPosition, Nullability, Onward, PositionKind};
use plan_walk::sink::Sink;
use plan_walk::walk::Walk;
use std::alloc::{AllocError, Global};

/// What the positions of a walk leave of a limit. It is full once there was one too many.
#[derive(Drop)]
pub struct WorkLeft {
    pub left: Option<usize>,
}

impl WorkLeft {
    // There is one more position.
    fn count(&mut self)
        ensures { IsLeftOf self.old.left 1 self.new.left }
    {
        self.left = match self.left {
            Some(left) => left.checked_sub(1),
            None => None,
        };
    }
}

impl Sink for WorkLeft {
    ghost use Rattle.gq_resolve.specs.WorkLeft.{TakesWork, takes-none, takes-more};

    ghost goes = { λ v ps old new. TakesWork ps old.left new.left };

    ghost below = { λ n s. Unit {0} };

    ghost waits = { λ s. 0 };

    ghost none = { λ v s. takes-none s.left };

    ghost more = { λ v ps qs a b c p q. takes-more ps qs a.left b.left c.left p q };

    ghost rises = { λ n m s le h. h };

    ghost stays = { λ v ps a b h w. w };

    ghost narrow = { λ v w n ps a b le same below held h. h };

    fn begin(&mut self, _kind: PositionKind) -> Result<(), AllocError> {
        self.count();
        Ok(())
    }

    fn end(&mut self, _kind: PositionKind, _nullability: Nullability) -> Result<(), AllocError> {
        Ok(())
    }

    fn field(&mut self, _position: &MemberPosition) -> Result<(), AllocError> {
        Ok(())
    }

    fn item(&mut self, _items: Items, _number: usize) -> Result<(), AllocError> {
        Ok(())
    }

    fn leaf_value(
        &mut self,
        _leaf_value: &LeafValue,
        _nullability: Nullability,
    ) -> Result<(), AllocError> {
        self.count();
        Ok(())
    }

    fn cell(&mut self, _leaf: Leaf<'_>, _nullability: Nullability) -> Result<(), AllocError> {
        self.count();
        Ok(())
    }

    fn loads(&mut self, _count: usize) {}

    fn waiting(&self) -> usize {
        0
    }

    fn wait(
        &mut self,
        _onward: Onward,
        _loader: usize,
        _key: KeyRef<'_>,
    ) -> Result<(), AllocError> {
        self.count();
        Ok(())
    }

    fn stops(&mut self) -> bool {
        self.left.is_none()
    }
}

/// Returns what the work of a plan over a memory leaves of `most`, or `None` where it is more. The work is the number of leaves, nulls,
/// objects and lists that execution completes, also of those that a null below them makes null, and of the positions that wait for a load. So
/// over a memory with more the work is at least this.
///
/// It ends at the first of them that is one too many, however long the answer is.
///
/// # Errors
///
/// Only when out of memory.
pub fn work_left(
    walk: &Walk<'_>,
    rooted: RootObject,
    most: usize,
) -> Result<Option<usize>, AllocError>
    requires { length (plan_on walk.now).bindings.loaders ≤ length walk.now.memory.now.modes }
    ensures { IsRooted (plan_on walk.now) rooted
        → IfOk result (IsLeft most (plan_work (plan_on walk.now) walk.now.memory.now)) }
{
    let walked = go_over(walk, rooted, WorkLeft { left: Some(most) })?;
    Ok(walked.out.left)
}

/// A root to count at: a copy of the one that was prepared, if there is one.
pub fn root_of(walk: &Walk<'_>, prepared: &Option<RootObject>) -> Result<RootObject, AllocError>
    ensures { IfSome prepared.now (IsRooted (plan_on walk.now))
        → IfOk result (IsRooted (plan_on walk.now)) }
{
    match prepared {
        Some(rooted) => rooted.copy(),
        None => prepare_root(walk),
    }
}

/// A count of the work of a plan over one memory, made in steps. It goes on where it stopped, whatever limit is asked for next.
#[derive(Drop)]
pub struct WorkCount {
    /// Counts from the largest limit that there is.
    pub walked: PausedWalk<WorkLeft>,
}

impl WorkCount {
    /// A count of which nothing is done.
    pub fn new(alloc: Global, rooted: RootObject) -> WorkCount
        ensures counting { (plan : PlanOf) (m : MemoryOf)
            → IsRooted plan rooted → IsCounting plan m result }
        ensures taken { result.walked.taken ≡ 0 }
    {
        let out = WorkLeft {
            left: Some(usize::MAX),
        };
        WorkCount {
            walked: PausedWalk::new(alloc, rooted, out),
        }
    }

    // What the positions that were counted leave of a limit, or `None` where they are more.
    fn left_of(&self, most: usize) -> Option<usize>
        ensures { (work : ℕ) → IsLeft largest work self.now.walked.out.out.left
            → IsLeft most work result }
    {
        match self.walked.out.out.left {
            Some(left) => most.checked_sub(usize::MAX - left),
            None => None,
        }
    }

    /// Goes on with it, unless it is done, and stops after so many steps, or one, and where there was a position too many. Returns what it
    /// came to, if it is done.
    pub fn go_on(
        self,
        walk: &Walk<'_>,
        most: usize,
        steps: usize,
    ) -> Result<(WorkCount, Option<Counted>), AllocError>
        requires { length (plan_on walk.now).bindings.loaders ≤ length walk.now.memory.now.modes }
        ensures { IfOk result (λ r.
            CountsOn (plan_on walk.now) walk.now.memory.now most steps self r.0 r.1) }
    {
        let Some(left) = self.left_of(most) else {
            return Ok((self, Some(Counted { left: None, steps })));
        };
        let before = self.walked.taken;
        let allowed = steps.max(1).min(left.saturating_add(1));
        let walked = self.walked.go_on(walk, allowed)?;
        let count = WorkCount { walked };
        let steps = count.walked.steps_over(before, steps);
        match count.left_of(most) {
            None => Ok((count, Some(Counted { left: None, steps }))),
            Some(left) if count.walked.is_whole() => {
                let left = Some(left);
                Ok((count, Some(Counted { left, steps })))
            }
            Some(_) => Ok((count, None)),
        }
    }
}
