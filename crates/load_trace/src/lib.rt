//! The trace of a line: what its session asked of the loaders, as a line of JSON.
//!
//! The layer above may rely on this: [`write_trace`] gives the text of a session's logs that `specs/Traces.antt` defines, round by round,
//! and in a round loader by loader, each batch with its keys as they were asked. It is one line without its end. The trace of a session that
//! started again and then answered is the log by which the answer is lawful (law [`traces_are_logs`]).
#![tactic(auto)]

mod law;
mod put;
mod rounds;
mod trace;

pub use law::traces_are_logs;
pub use trace::write_trace;
