//! Work of an execution over a memory, counted up to a limit.
ghost use Rattle.std.specs.Prelude.{◌≤◌, length, option_map, IfOk, IfSome, OnOk};
ghost use Rattle.load_memory.specs.Pairs.{look};
ghost use Rattle.execution.specs.Loads.{read};
ghost use Rattle.execution.specs.Executes.{ComesNearer};
ghost use Rattle.execution.specs.Work.{work, IsLeft};

use crate::execute::Execute;
use load_memory::Memory;
use std::alloc::{AllocError, Global};

/// What a count came to that was made in steps.
#[derive(Clone, Copy, Debug, PartialEq, Eq)]
pub struct Counted {
    /// What the work leaves of the limit, or `None` where it is more.
    pub left: Option<usize>,
    /// The steps that weren't needed.
    pub steps: usize,
}

/// Something that is executed, and whose work can be counted: the number of its positions, with those that wait for a load.
///
/// Over a memory that has more the work is at least as much ([`law::work_only_grows`](crate::law::work_only_grows)). So where
/// it is over a limit already, the answer is too, whatever the loads that are missing bring.
pub trait CountWork<E>: Execute<E> {
    /// Returns what the work over a memory leaves of `most`, or `None` where it is more. It ends at the first position that is one too
    /// many.
    ///
    /// # Errors
    ///
    /// Only when out of memory.
    fn work_left(
        &self,
        alloc: Global,
        memory: &Memory,
        most: usize,
    ) -> Result<Option<usize>, AllocError>
        requires { Self.loaders self.now ≤ length memory.now.modes }
        ensures { IfOk result (IsLeft most
            (work (Self.program self.now) (read memory.now.modes (look memory.now.pairs)))) };

    /// Does what [`work_left`](CountWork::work_left) does in steps: goes on with a count that the progress keeps, for so many `steps`, or one
    /// where that is 0. A step is a position. Returns `None` while the count isn't done: it has come nearer to its end then (`left`).
    ///
    /// # Errors
    ///
    /// Only when out of memory. The trait says nothing then of the progress, which fails with its answer.
    fn count_ahead(
        &self,
        progress: &mut E,
        alloc: Global,
        memory: &Memory,
        most: usize,
        steps: usize,
    ) -> Result<Option<Counted>, AllocError>
        requires can { Self.loaders self.now ≤ length memory.now.modes }
        requires fits { Self.fits self.now
            progress.old memory.now }
        ensures counted { IfOk result (λ did. IfSome did (λ count. IsLeft most
            (work (Self.program self.now) (read memory.now.modes (look memory.now.pairs))) count.left)) }
        ensures fits { OnOk result (Self.fits self.now progress.new memory.now) }
        ensures nearer { IfOk result (λ did. ComesNearer steps
            (Self.left self.now progress.old memory.now) (Self.left self.now progress.new memory.now)
            (option_map (λ count. count.steps) did)) };
}
