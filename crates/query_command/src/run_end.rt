//! Ends of runs.

ghost use Rattle.std.specs.Prelude.{◌≡◌};
ghost use Rattle.query_command.specs.RunEnds.{status_of, status_of_world, status_of_table, status_of_serve, line_of, line_of_table, stop_of};
ghost use Rattle.query_command.specs.declared.run_end.RunEnd.TheVariants.{Serve};
ghost use Rattle.server_lines.specs.declared.fault.ServeFault.TheVariants.{NoMemory};

use csv_source::TableFault;
use gq_schema::SchemaFault;
use server_lines::ServeFault;
use std::alloc::{AllocError, AllocFailed};
use world::WorldFault;
use world_files::FileFault;

/// End of a run.
#[derive(Debug, Drop)]
pub enum RunEnd {
    /// Every request line was answered.
    Served,
    /// Help was asked for: its text, without its last line end.
    Help(String),
    /// The command line is refused: what is said of it, without its last line end.
    Command(String),
    /// The schema or the bindings are refused, or a table is missing or given twice.
    World(WorldFault),
    /// A table is refused.
    Table(TableFault),
    /// A file can't be opened or read before serving begins, or is no text where it has to be.
    File,
    /// Serving stopped, or before it began memory ran out or the file of the trace couldn't be created.
    Serve(ServeFault),
}

fn status_of_world(fault: &WorldFault) -> u8
    ensures { result ≡ status_of_world fault.now }
{
    match fault {
        WorldFault::BadLimit => 2,
        WorldFault::Schema(SchemaFault::NoMemory) | WorldFault::NoMemory => 5,
        WorldFault::Schema(_)
        | WorldFault::DuplicateTable
        | WorldFault::NoSuchTable
        | WorldFault::NoSuchColumn => 3,
    }
}

fn status_of_table(fault: TableFault) -> u8
    ensures { result ≡ status_of_table fault }
{
    match fault {
        TableFault::NoHeader
        | TableFault::DuplicateColumn
        | TableFault::NotText
        | TableFault::BadRecord
        | TableFault::TooManyRows
        | TableFault::NoSuchColumn => 3,
        TableFault::ReadFault => 4,
        TableFault::NoMemory => 5,
    }
}

fn status_of_serve(fault: ServeFault) -> u8
    ensures { result ≡ status_of_serve fault }
{
    match fault {
        ServeFault::BadCount => 2,
        ServeFault::LineTooLong
        | ServeFault::ReadFault
        | ServeFault::WriteFault
        | ServeFault::TraceFault => 4,
        ServeFault::NoMemory => 5,
    }
}

// A table's file that can't be read is like any other file.
fn line_of_table(fault: TableFault) -> &'static str
    ensures { result.now ≡ line_of_table fault }
{
    match fault {
        TableFault::NoHeader => "C1 NoHeader",
        TableFault::DuplicateColumn => "C2 DuplicateColumn",
        TableFault::NotText => "C3 NotText",
        TableFault::BadRecord => "C4 BadRecord",
        TableFault::TooManyRows => "C5 TooManyRows",
        TableFault::NoSuchColumn => "C6 NoSuchColumn",
        TableFault::ReadFault => "X2 ReadFault",
        TableFault::NoMemory => "X4 NoMemory",
    }
}

impl From<AllocError> for RunEnd {
    ghost from_gives = { λ _ stop. stop ≡ Serve NoMemory };

    fn from(_: AllocError) -> RunEnd {
        RunEnd::Serve(ServeFault::NoMemory)
    }
}

impl<T: Drop> From<AllocFailed<T>> for RunEnd {
    ghost from_gives = { λ _ stop. stop ≡ Serve NoMemory };

    fn from(_: AllocFailed<T>) -> RunEnd {
        RunEnd::Serve(ServeFault::NoMemory)
    }
}

impl From<FileFault> for RunEnd {
    ghost from_gives = { λ fault stop. stop ≡ stop_of fault };

    fn from(fault: FileFault) -> RunEnd {
        match fault {
            FileFault::Unread { .. } => RunEnd::File,
            FileFault::Table { fault, .. } => RunEnd::Table(fault),
            FileFault::World(fault) => RunEnd::World(fault),
            FileFault::Uncreated(_) => RunEnd::Serve(ServeFault::TraceFault),
            FileFault::NoMemory => RunEnd::Serve(ServeFault::NoMemory),
        }
    }
}

impl RunEnd {
    /// The exit status: 0 where all was served or help was asked for, 2 for the command line and its numbers, 3 for the schema,
    /// the bindings or a table, 4 for files and for what serving stops at, 5 when out of memory, wherever that happens.
    pub fn status(&self) -> u8
        ensures { result ≡ status_of self.now }
    {
        match self {
            RunEnd::Served | RunEnd::Help(_) => 0,
            RunEnd::Command(_) => 2,
            RunEnd::World(fault) => status_of_world(fault),
            RunEnd::Table(fault) => status_of_table(*fault),
            RunEnd::File => 4,
            RunEnd::Serve(fault) => status_of_serve(*fault),
        }
    }

    /// Returns what standard error gets, without the last line end: nothing where all was served or help was asked for, what is
    /// said of the command line, or else the code and the name of the fault.
    pub fn line(&self) -> &str
        ensures { result.now ≡ line_of self.now }
    {
        match self {
            RunEnd::Served | RunEnd::Help(_) => "",
            RunEnd::Command(text) => text.as_str(),
            RunEnd::World(fault) => fault.code_and_name(),
            RunEnd::Table(fault) => line_of_table(*fault),
            RunEnd::File => "X2 ReadFault",
            RunEnd::Serve(fault) => fault.code_and_name(),
        }
    }
}
