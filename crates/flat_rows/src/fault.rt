//! Faults: why a reply isn't taken.
use std::alloc::AllocError;
use thiserror::Error;

/// Reason why a reply isn't taken.
#[derive(Clone, Copy, Debug, PartialEq, Eq, Error)]
pub enum FlatFault {
    /// The bytes aren't UTF-8.
    #[error("the bytes aren't UTF-8")]
    NotUtf8,
    /// A text ends before it begins, past the bytes or inside a character, or the last one isn't the end of the bytes.
    #[error("a text has no such end")]
    BadEnds,
    /// There are fewer texts than the columns, the rows and the faults take.
    #[error("texts are missing")]
    TooFewTexts,
    /// There are more texts than the columns, the rows and the faults take.
    #[error("texts are left over")]
    TextsLeft,
    /// There are rows, and no column.
    #[error("rows of no column")]
    NoColumn,
    /// There are more than 4,294,967,295 rows.
    #[error("too many rows")]
    TooManyRows,
    #[error("out of memory")]
    NoMemory,
}

impl From<AllocError> for FlatFault {
    ghost use Rattle.std.specs.Prelude.{◌≡◌};
    ghost use Rattle.flat_rows.specs.declared.fault.FlatFault.TheVariants.{NoMemory};

    ghost from_gives = { λ _ e. e ≡ NoMemory };

    fn from(_e: AllocError) -> FlatFault {
        FlatFault::NoMemory
    }
}
