//! Answers that are written ahead, in steps.
//!
//! Where nothing that an answer needs is missing, it may be written in several walks: each is stopped after so many fields and items, and the
//! next goes on there.

ghost use Rattle.std.specs.Prelude.{◌≡◌, IfOk};
ghost use Rattle.load_memory.specs.Pairs.{MemoryOf};
ghost use Rattle.gq_check.specs.Plans.{PlanOf};
ghost use Rattle.gq_resolve.specs.Suspended.{plan_on, IsRooted, FitsTour, Searched, IsAhead, IsSettled, IsFurther, GivesWhole};

use crate::advance::{
    FinishedWalk, RootObject, Suspension, prepare_root, search_root, search_waiting,
};
use crate::output::{NO_LIMIT, Output};
use crate::paused_walk::PausedWalk;
use crate::stepped_output::SteppedOutput;
use plan_walk::walk::Walk;
use std::alloc::{AllocError, Global};

/// An answer that is written ahead.
#[derive(Drop)]
pub struct AnswerAhead {
    pub walked: PausedWalk<SteppedOutput>,
    /// Says how many bytes the answer may have.
    pub most: Option<usize>,
}

/// Looks for the loads of an execution, from where it stopped, and writes nothing.
pub fn search(
    walk: &Walk<'_>,
    stopped: Option<Suspension>,
) -> Result<FinishedWalk<Output>, AllocError>
    ensures { FitsTour walk.now stopped → IfOk result
        (Searched (plan_on walk.now) walk.now.memory.now) }
{
    match stopped {
        None => search_root(walk, prepare_root(walk)?),
        Some(Suspension { rooted, waiting }) if waiting.is_empty() => search_root(walk, rooted),
        Some(Suspension { rooted, waiting }) => search_waiting(walk, rooted, waiting),
    }
}

impl AnswerAhead {
    /// An answer of which nothing is missing, and nothing is written yet.
    pub fn new(alloc: Global, rooted: RootObject, most: Option<usize>) -> AnswerAhead
        ensures ahead { (plan : PlanOf) (m : MemoryOf) → IsRooted plan rooted
            → IsSettled plan m → IsAhead plan m result }
        ensures taken { result.walked.taken ≡ 0 }
    {
        let output = SteppedOutput::new(alloc, most.unwrap_or(NO_LIMIT));
        let walked = PausedWalk::new(alloc, rooted, output);
        AnswerAhead { walked, most }
    }

    /// Goes on with it, unless it is written to its end, and stops after so many steps.
    pub fn go_on(self, walk: &Walk<'_>, steps: usize) -> Result<AnswerAhead, AllocError>
        ensures { IsAhead (plan_on walk.now) walk.now.memory.now self → IfOk result
            (IsFurther (plan_on walk.now) walk.now.memory.now steps self) }
    {
        let walked = self.walked.go_on(walk, steps)?;
        Ok(AnswerAhead {
            walked,
            most: self.most,
        })
    }

    /// The whole answer, if it may have `most` bytes: what is left is written now.
    pub fn finish(
        self,
        walk: &Walk<'_>,
        most: Option<usize>,
    ) -> Result<Option<SteppedOutput>, AllocError>
        ensures { IsAhead (plan_on walk.now) walk.now.memory.now self
            → IfOk result (GivesWhole walk.now most) }
    {
        if self.most != most {
            return Ok(None);
        }
        let whole = self.go_on(walk, usize::MAX)?;
        if !whole.walked.is_whole() {
            return Ok(None);
        }
        let PausedWalk { out, .. } = whole.walked;
        Ok(Some(out.out))
    }
}
