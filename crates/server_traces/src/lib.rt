//! Serving the lines of a client with a trace: for each line what its answer asked of the loaders, as a line of JSON.
//!
//! The layer above may rely on this: once the client of a [`TracedClient`] has answered a line, [`TracedClient::trace_answer`] writes the line's
//! trace to a device of its own, flushes it, and only then hands out the text. So where each line of an input is answered in this way,
//! whoever runs the batches, whoever has an answer has its trace (`specs/Tracing.antt`): the batches that the line's answer asked, and
//! nothing of an earlier line. A trace that can't be written keeps the line from its answer.
//!
//! A trace tells what the session's logs have and how many loads the answer read, of which each answer's contract speaks, and
//! nothing is noted while a line is answered. So a trace can't say anything but what the headline says, and lines that aren't
//! traced lose no time.
#![tactic(auto)]

mod traced_client;

pub use traced_client::TracedClient;
