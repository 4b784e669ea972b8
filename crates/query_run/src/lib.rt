//! A run of the command: what its words select, what it writes, and how it ends.
//!
//! The layer above may rely on this: what [`run`] wrote is the output of the lines that it read (`specs/Runs.antt`), each answered in the
//! session of one client over a world, which starts again before it. Without words that is the sample world, without a limit; else it is
//! one with the limits that the words give. Of a folder that tells what its files hold it says that the world is of all that the
//! named files hold, and the lines are those of the named file; and of a file that the words name for a trace, that it holds then the trace
//! of each line that was answered (`specs/Tracing.antt`), and that no other is written. How it ends is a [`RunEnd`](query_command::RunEnd).
//! [`program_words`] are the words of a command after its name.
#![tactic(auto)]

mod context;
mod running;
mod tracing;

pub use running::{program_words, run};
