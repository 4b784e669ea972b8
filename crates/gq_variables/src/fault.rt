//! Faults: why the variables of a request have no values.

ghost use Rattle.std.specs.Prelude.{◌≡◌};
ghost use Rattle.gq_variables.specs.declared.fault.VariableFault.TheVariants.{NoMemory};

use short_text::Text;
use std::alloc::{AllocError, AllocFailed};
use thiserror::Error;

/// Reason why variables have no values. It is displayed as the message that a client reads.
#[derive(Debug, Drop, Error)]
pub enum VariableFault {
    /// The `variables` of the request are neither an object nor null.
    #[error("variables must be an object")]
    NotObject,
    /// The variable of this name has a value that isn't of its type, or has none and may not be null. It is the first
    /// such one, in the order of the definitions.
    #[error("bad value for variable ${0}")]
    Bad(Text),
    /// Out of memory.
    #[error("out of memory")]
    NoMemory,
}

impl From<AllocError> for VariableFault {
    ghost from_gives = { λ _ e. e ≡ NoMemory };

    fn from(_e: AllocError) -> VariableFault {
        VariableFault::NoMemory
    }
}

impl<T: Drop> From<AllocFailed<T>> for VariableFault {
    ghost from_gives = { λ _ e. e ≡ NoMemory };

    fn from(_e: AllocFailed<T>) -> VariableFault {
        VariableFault::NoMemory
    }
}
