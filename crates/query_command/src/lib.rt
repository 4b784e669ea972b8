//! The command line: its words, and how a run ends.
//!
//! The layer above may rely on this: [`CommandWords::read`] takes what `clap` takes of the command that `query_command`
//! (`specs/Command.antt`) describes, part by part, and [`RunEnd::status`] and [`RunEnd::line`] are the exit status and the line
//! on standard error of each way in which a run ends. [`End::of`] adds where the fault is (`specs/Origins.antt`), where the
//! words ask for that.
#![tactic(auto)]

mod command;
mod command_words;
mod origin;
mod run_end;

pub use command_words::CommandWords;
pub use origin::{End, FaultLocation, LocatedRunEnd, Origin, Subject};
pub use run_end::RunEnd;
