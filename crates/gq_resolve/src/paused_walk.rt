//! Walks over a plan that are made in steps.
//!
//! Each call goes on for so many fields and items, and keeps where it was stopped.

ghost use Rattle.std.specs.Prelude.{◌≡◌, ◌≤◌, [], IfOk, IsTrue, ◌↔◌};
ghost use Rattle.load_memory.specs.Pairs.{MemoryOf};
ghost use Rattle.gq_check.specs.Plans.{PlanOf};
ghost use Rattle.gq_resolve.specs.Suspended.{IsRooted, IsPaused, GoesOnBy, plan_puts};
ghost use Rattle.gq_resolve.specs.declared.pausing.Course.TheVariants.{Onward};

use crate::advance::{FinishedWalk, RootObject, go_over};
use crate::pausing::{Course, Pausing};
use plan_walk::sink::Sink;
use plan_walk::walk::Walk;
use std::alloc::{AllocError, Global};

/// A walk over the whole plan, and where it was stopped.
#[derive(Drop)]
pub struct PausedWalk<S> {
    pub rooted: RootObject,
    pub out: Pausing<S>,
    /// Says how many steps it took in all.
    pub taken: usize,
}

impl<S: Sink + Drop> PausedWalk<S> {
    /// A walk that isn't begun.
    pub fn new(alloc: Global, rooted: RootObject, out: S) -> PausedWalk<S>
        ensures paused { (plan : PlanOf) (m : MemoryOf) → IsRooted plan rooted
            → IsPaused plan m [] (plan_puts plan m) result }
        ensures out { result.out.out ≡ out }
        ensures taken { result.taken ≡ 0 }
    {
        PausedWalk {
            rooted,
            out: Pausing::new(alloc, out),
            taken: 0,
        }
    }

    /// Goes on with it, unless it came to its end, and stops after so many steps.
    pub fn go_on(self, walk: &Walk<'_>, steps: usize) -> Result<PausedWalk<S>, AllocError>
        ensures { IfOk result (GoesOnBy S.goes S.below walk.now steps self) }
    {
        if self.is_whole() {
            return Ok(self);
        }
        let PausedWalk {
            rooted,
            mut out,
            taken,
        } = self;
        out.go_on(walk.alloc, steps);
        let FinishedWalk { rooted, out } = go_over(walk, rooted, out)?;
        let used = steps.saturating_sub(out.steps);
        let taken = taken.checked_add(used).ok_or(AllocError)?;
        Ok(PausedWalk { rooted, out, taken })
    }

    /// Tells whether it came to its end.
    pub fn is_whole(&self) -> bool
        ensures { IsTrue result ↔ self.now.out.course ≡ Onward }
    {
        match self.out.course {
            Course::Onward => true,
            Course::Back => false,
            Course::Stopped => false,
        }
    }

    /// Returns how many of so many steps it didn't need since it had taken `before`.
    pub fn steps_over(&self, before: usize, steps: usize) -> usize
        ensures { result ≤ steps }
    {
        steps.saturating_sub(self.taken.saturating_sub(before))
    }
}
