//! Faults: why serving stops.

ghost use Rattle.std.specs.Prelude.{◌≡◌};
ghost use Rattle.server_lines.specs.Faults.{code_and_name};

use std::alloc::AllocError;
use std::error::Error as StdError;
use std::fmt;
use thiserror::Error;

/// Reason why a line has no answer.
///
/// That a trace can't be written is a fault of its own, though this crate doesn't know what a trace is: want of
/// memory would say less. A caller that traces nothing has no such stop (`at_memory`).
#[derive(Clone, Copy, Debug, PartialEq, Eq, Error)]
pub enum LineFault {
    /// Out of memory.
    #[error("out of memory")]
    NoMemory,
    /// A trace of the line that can't be written.
    #[error("the trace can't be written")]
    TraceFault,
}

impl From<AllocError> for LineFault {
    ghost use Rattle.server_lines.specs.declared.fault.LineFault.TheVariants.{NoMemory};

    ghost from_gives = { λ _ fault. fault ≡ NoMemory };

    fn from(_error: AllocError) -> LineFault {
        LineFault::NoMemory
    }
}

/// Reason why lines were left unanswered. It is printed as its code and its name.
#[derive(Clone, Copy, Debug, PartialEq, Eq)]
pub enum ServeFault {
    /// A line has more than 4,194,304 bytes before its line feed.
    LineTooLong,
    /// The reader failed or met a bound.
    ReadFault,
    /// The writer failed, took no byte or met a bound.
    WriteFault,
    /// Out of memory.
    NoMemory,
    /// The number of workers is not 1 to 16.
    BadCount,
    /// A trace of a line that can't be written, where lines are traced.
    TraceFault,
}

impl ServeFault {
    /// The code and the name, as a command prints them for its user: `X1 LineTooLong`.
    pub fn code_and_name(&self) -> &'static str
        ensures { result.now ≡ code_and_name self.now }
    {
        match self {
            ServeFault::LineTooLong => "X1 LineTooLong",
            ServeFault::ReadFault => "X2 ReadFault",
            ServeFault::WriteFault => "X3 WriteFault",
            ServeFault::NoMemory => "X4 NoMemory",
            ServeFault::BadCount => "X5 BadCount",
            ServeFault::TraceFault => "X8 TraceFault",
        }
    }
}

impl fmt::Display for ServeFault {
    ghost use Rattle.std.specs.Prelude.{Some};

    ghost output = { λ fault. Some (code_and_name fault) };

    fn fmt<W: fmt::Write>(&self, f: &mut fmt::Formatter<W>) -> fmt::Result {
        let text = self.code_and_name();
        write!(f, "{text}")
    }
}

impl StdError for ServeFault {}
