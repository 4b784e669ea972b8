//! Faults: why there is no answer with workers.
use load_rounds::Overrun;
use std::alloc::AllocError;
use thiserror::Error;

/// Reason why there is no answer with workers.
#[derive(Clone, Copy, Debug, PartialEq, Eq, Error)]
pub enum WorkFault {
    /// The number of workers is not 1 to 16.
    #[error("bad number of workers")]
    BadCount,
    /// The answers are over a limit, so they are refused. The rounds that were made stay, and nothing more was asked.
    #[error("over a limit")]
    Over(Overrun),
    /// Out of memory, here or in a source; or the number of the next round would overflow.
    #[error("out of memory")]
    NoMemory,
}

impl From<AllocError> for WorkFault {
    ghost use Rattle.std.specs.Prelude.{◌≡◌};
    ghost use Rattle.batch_workers.specs.declared.fault.WorkFault.TheVariants.{NoMemory};

    ghost from_gives = { λ _ fault. fault ≡ NoMemory };

    fn from(_e: AllocError) -> WorkFault {
        WorkFault::NoMemory
    }
}
