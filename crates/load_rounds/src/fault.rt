//! Faults: why a call of a session was refused.
use std::alloc::{AllocError, AllocFailed};
use thiserror::Error;

/// Says why a call of a session was refused.
#[derive(Clone, Copy, Debug, PartialEq, Eq, Error)]
pub enum SessionFault {
    /// The session has no loader of that number.
    #[error("no such loader")]
    NoSuchLoader,
    /// Out of memory, here or in a source; or the number of the next round would overflow.
    #[error("out of memory")]
    NoMemory,
}

impl From<AllocError> for SessionFault {
    ghost use Rattle.std.specs.Prelude.{◌≡◌};
    ghost use Rattle.load_rounds.specs.declared.fault.SessionFault.TheVariants.{NoMemory};

    ghost from_gives = { λ _ fault. fault ≡ NoMemory };

    fn from(_e: AllocError) -> SessionFault {
        SessionFault::NoMemory
    }
}

impl<T: Drop> From<AllocFailed<T>> for SessionFault {
    ghost use Rattle.std.specs.Prelude.{◌≡◌};
    ghost use Rattle.load_rounds.specs.declared.fault.SessionFault.TheVariants.{NoMemory};

    ghost from_gives = { λ _ fault. fault ≡ NoMemory };

    fn from(_e: AllocFailed<T>) -> SessionFault {
        SessionFault::NoMemory
    }
}
