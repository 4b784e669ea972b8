//! Worlds out of files, and the sample world.
//!
//! The layer above may rely on this: what [`open_world`] makes is the world of all that the files of a [`Folder`] hold at the
//! paths that are given, each table under its name and in its order, with the limit that is asked for; and a [`FileFault`] says
//! which of the files gives none, and why. What [`open_requests`] opens has all that the file holds left. What [`create_trace`] creates
//! is empty, and once it is closed the folder holds all that was written to it. Of the files of the [`System`] no clause knows what they
//! hold. In which order files are opened no clause says.
#![tactic(auto)]

mod bounded;
mod fault;
mod files;
mod folder;
mod reading;
mod sample;

pub use fault::{FileFault, InputFile};
pub use files::{TableFile, WorldFiles, create_trace, open_requests, open_world};
pub use folder::{CreatedFile, Folder, MemoryFile, MemoryFolder, System, SystemFile};
pub use sample::sample_world;
