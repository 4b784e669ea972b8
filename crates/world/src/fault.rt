//! Faults: why there is no world.

ghost use Rattle.std.specs.Prelude.{◌≡◌};
ghost use Rattle.world.specs.Faults.{code_and_name, schema_code_and_name, lifted};
ghost use Rattle.world.specs.declared.fault.WorldFault.TheVariants.{NoMemory};

use gq_schema::SchemaFault;
use std::alloc::{AllocError, AllocFailed};
use std::error::Error;
use std::fmt;

/// Reason why texts and tables are no world. It is printed as its code and its name.
#[derive(Debug, Drop)]
pub enum WorldFault {
    /// The limit is 0, or over 65,535.
    /// Give a limit from 1 to 65,535, or none.
    BadLimit,
    /// The schema is refused, or the bindings are, with `BadBinding`. It is never the schema's
    /// `NoMemory`.
    Schema(SchemaFault),
    /// Two tables have the same name.
    /// Give each table once.
    DuplicateTable,
    /// The table of a loader isn't given.
    /// Give the table, or correct the loader's line.
    NoSuchTable,
    /// A loader's table doesn't have the column by which the loader finds rows.
    /// Add the column, or correct the loader's line.
    NoSuchColumn,
    /// Out of memory.
    NoMemory,
}

// The code and the name of a fault of a schema or of bindings.
fn schema_code_and_name(fault: &SchemaFault) -> &'static str
    ensures { result.now ≡ schema_code_and_name fault.now }
{
    match fault {
        SchemaFault::Syntax(_) => "S1 Syntax",
        SchemaFault::Duplicate(_) => "S2 Duplicate",
        SchemaFault::UnknownType(_) => "S3 UnknownType",
        SchemaFault::BadImplements(_) => "S4 BadImplements",
        SchemaFault::NoQueryRoot => "S5 NoQueryRoot",
        SchemaFault::ReservedName(_) => "S6 ReservedName",
        SchemaFault::NotServed(_) => "S7 NotServed",
        SchemaFault::BadBinding(_) => "S8 BadBinding",
        SchemaFault::NoMemory => "X4 NoMemory",
        SchemaFault::BadKind(_) => "S10 BadKind",
        SchemaFault::BadDefault(_) => "S11 BadDefault",
    }
}

impl WorldFault {
    /// The code and the name, as a command prints them for its user: `S8 BadBinding`. Being out of
    /// memory is `X4 NoMemory`, wherever it happens.
    pub fn code_and_name(&self) -> &'static str
        ensures { result.now ≡ code_and_name self.now }
    {
        match self {
            WorldFault::BadLimit => "Q1 BadLimit",
            WorldFault::Schema(fault) => schema_code_and_name(fault),
            WorldFault::DuplicateTable => "X6 DuplicateTable",
            WorldFault::NoSuchTable => "X7 NoSuchTable",
            WorldFault::NoSuchColumn => "C6 NoSuchColumn",
            WorldFault::NoMemory => "X4 NoMemory",
        }
    }
}

impl fmt::Display for WorldFault {
    ghost use Rattle.std.specs.Prelude.{Some};

    ghost output = { λ fault. Some (code_and_name fault) };

    fn fmt<W: fmt::Write>(&self, f: &mut fmt::Formatter<W>) -> fmt::Result {
        let text = self.code_and_name();
        write!(f, "{text}")
    }
}

impl Error for WorldFault {}

impl From<SchemaFault> for WorldFault {
    ghost from_gives = { λ fault e. e ≡ lifted fault };

    fn from(fault: SchemaFault) -> WorldFault {
        match fault {
            SchemaFault::NoMemory => WorldFault::NoMemory,
            fault => WorldFault::Schema(fault),
        }
    }
}

impl From<AllocError> for WorldFault {
    ghost from_gives = { λ _ e. e ≡ NoMemory };

    fn from(_: AllocError) -> WorldFault {
        WorldFault::NoMemory
    }
}

impl<T: Drop> From<AllocFailed<T>> for WorldFault {
    ghost from_gives = { λ _ e. e ≡ NoMemory };

    fn from(_: AllocFailed<T>) -> WorldFault {
        WorldFault::NoMemory
    }
}
