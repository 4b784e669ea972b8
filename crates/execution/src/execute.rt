//! Executions over a memory.
ghost use Rattle.std.specs.Prelude.{ℕ, List, IfOk, OnOk};
ghost use Rattle.load_memory.specs.Pairs.{MemoryOf};
ghost use Rattle.execution.specs.Program.{Program};
ghost use Rattle.execution.specs.Completion.{AnsweredOf};
ghost use Rattle.execution.specs.Rounds.{HasLoaders};
ghost use Rattle.execution.specs.Executes.{CanExecute, IsExecuted, FitsFrom, ComesNearer};

use crate::execution_result::ExecutionResult;
use futures::task::Poll;
use load_memory::Memory;
use load_queue::Wants;
use std::alloc::{AllocError, Global};

/// Something that loads keys and returns a text, as a GraphQL plan does, and tells how many loads that took. It is ready over a memory that has everything
/// it needs, and otherwise says exactly which loads are missing.
///
/// `E` is how far an execution of it is. An execution is kept from one memory to the next, if that one has at least the
/// same pairs.
///
/// `E` is a parameter and no associated type: an `impl` of another crate's trait has to name a type of its own
/// crate, as that of `gq_resolve` for plans names its progress. [`execute`](Execute::execute) itself says which
/// loaders are asked (`within`).
pub trait Execute<E> {
    // the program: the loads that it asks for, one at a time
    ghost program: { Self → Program };

    // the text of a response with its errors
    ghost text_of: { Self → AnsweredOf → List ℕ };

    // it asks loaders below this number
    ghost loaders: { Self → ℕ };

    // the progress is of an execution of it, and holds nothing as done that isn't so over the memory
    ghost fits: { Self → E → MemoryOf → Type 0 };

    // at most so many steps are left to do ahead over the memory
    ghost left: { Self → E → MemoryOf → ℕ };

    /// An execution of which nothing is done.
    fn start(&self) -> E
        ensures { (m : MemoryOf) → fits self.now result m };

    /// Goes on with an execution over the memory. If loads are missing, adds them to the wants.
    ///
    /// # Errors
    ///
    /// When out of memory. The trait says nothing then of the wants, which a session drops, nor of the
    /// progress, which fails with its answer.
    fn execute(
        &self,
        progress: &mut E,
        alloc: Global,
        memory: &Memory,
        wants: &mut Wants,
    ) -> Result<Poll<ExecutionResult>, AllocError>
        requires can { CanExecute
            (loaders self.now) memory.now wants.old }
        requires fits { fits self.now
            progress.old memory.now }
        ensures executed { IfOk result
            (IsExecuted (text_of self.now) wants.old wants.new (program self.now) memory.now) }
        ensures fits { OnOk result (FitsFrom (fits self.now progress.new) memory.now) }
        ensures within { HasLoaders (loaders self.now) (program self.now) };

    /// Works ahead: does so many `steps` of what [`execute`](Execute::execute) has to do over this memory, or one where that is 0, and keeps
    /// what is done. Returns the steps that it didn't need once none is left to do, and `None` while some are: it has come nearer to the
    /// end then (`left`), so that calls in a row reach it. What a step is, is the implementation's affair. `execute` does at once what is left.
    ///
    /// # Errors
    ///
    /// Only when out of memory. The trait says nothing then of the progress, which fails with its answer.
    fn work_ahead(
        &self,
        progress: &mut E,
        alloc: Global,
        memory: &Memory,
        steps: usize,
    ) -> Result<Option<usize>, AllocError>
        requires fits { fits self.now
            progress.old memory.now }
        ensures fits { OnOk result (fits self.now progress.new memory.now) }
        ensures nearer { IfOk result (ComesNearer steps
            (left self.now progress.old memory.now) (left self.now progress.new memory.now)) };
}
