//! Faults: why a table is refused.
ghost use Rattle.csv_source.specs.Faults.{IsWant};

use std::alloc::AllocError;
use thiserror::Error;

/// Reason why a text isn't a table, or a table has no such source.
#[derive(Clone, Copy, PartialEq, Eq, Debug, Error)]
pub enum TableFault {
    /// The text has no record.
    /// Give it at least its column names.
    #[error("NoHeader")]
    NoHeader,
    /// Two columns of the header have the same name.
    /// Rename one.
    #[error("DuplicateColumn")]
    DuplicateColumn,
    /// A field isn't UTF-8.
    /// Write the table in UTF-8.
    #[error("NotText")]
    NotText,
    /// A record has more or fewer fields than the header.
    /// Correct the record; a field with a comma needs quotes.
    #[error("BadRecord")]
    BadRecord,
    /// More than 1,000,000 records follow the header.
    /// Split the table.
    #[error("TooManyRows")]
    TooManyRows,
    /// The table has no column of that name.
    #[error("NoSuchColumn")]
    NoSuchColumn,
    /// The reader failed.
    /// Check the file.
    #[error("ReadFault")]
    ReadFault,
    /// Out of memory.
    #[error("NoMemory")]
    NoMemory,
}

impl From<AllocError> for TableFault {
    ghost from_gives = { λ _ e. IsWant e };

    fn from(_: AllocError) -> TableFault {
        TableFault::NoMemory
    }
}
