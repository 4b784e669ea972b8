//! Faults: why files give no world.

ghost use Rattle.std.specs.Prelude.{◌≡◌};
ghost use Rattle.world_files.specs.declared.fault.FileFault.TheVariants.{NoMemory};

use csv_source::TableFault;
use std::alloc::{AllocError, AllocFailed};
use std::io;
use world::WorldFault;

/// One of the files that are opened.
#[derive(Clone, Copy, Debug)]
pub enum InputFile {
    Schema,
    Bindings,
    /// The table of this place, from 0.
    Table(usize),
    /// The request lines.
    Requests,
}

/// Reason why files give no world or no request lines, or a trace can't be created.
#[derive(Debug, Drop)]
pub enum FileFault {
    /// A file can't be opened or read, is too long, or is no text where it has to be.
    Unread {
        file: InputFile,
        reason: io::Error,
    },
    /// The table of this place is refused.
    Table {
        place: usize,
        fault: TableFault,
        /// Holds what the system says, if the file can't be read to its end.
        reason: Option<io::Error>,
    },
    /// There is no world of the texts and the tables that were read.
    World(WorldFault),
    /// The file of the trace can't be created.
    Uncreated(io::Error),
    NoMemory,
}

impl From<AllocError> for FileFault {
    ghost from_gives = { λ _ fault. fault ≡ NoMemory };

    fn from(_: AllocError) -> FileFault {
        FileFault::NoMemory
    }
}

impl<T: Drop> From<AllocFailed<T>> for FileFault {
    ghost from_gives = { λ _ fault. fault ≡ NoMemory };

    fn from(_: AllocFailed<T>) -> FileFault {
        FileFault::NoMemory
    }
}
