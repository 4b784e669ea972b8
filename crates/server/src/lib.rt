//! A GraphQL server over sources of its author's: a response for every request.
//!
//! A [`Server`] has the schema and its bindings, for its whole life. For each client, [`Sessions::session`] makes a
//! [`ClientSession`]: a loader for each `loader` line over the author's source, and one memory. It answers requests, given by
//! their parts ([`ClientSession::answer`]), as JSON text ([`ClientSession::answer_text`]) or as the lines of an input ([`serve`]). This
//! thread runs the batches of a round, or several do ([`Workers`]: [`ClientSession::answer_with`], [`serve_with`]). Or a
//! request is planned first ([`PlannedRequest`]), and then its caller asks the sources ([`ByHand`]), or it is a future ([`ClientAnswering`]).
//!
//! The layer above may rely on this: an answer is always a response, the refusal of the request's first fault or the answer of its plan,
//! or the refusal of a plan that is over a limit on its work or its rounds ([`ClientSession::limit_work`], [`ClientSession::limit_rounds`]).
//! With it a contract says what became of the client's session (`specs/Answers.antt`, `specs/Lines.antt`): its loaders were asked
//! exactly the batches of a lawful log, with the headline of `load_rounds`, and nothing else was asked. That the session has a loader for
//! each `loader` line, and that a plan is one of its server, are invariants of the types.
#![tactic(auto)]

mod arrays;
mod by_hand;
mod client;
mod function_source;
mod future;
mod keys;
mod load_by_hand;
mod opening;
mod overruns;
mod planned;
mod queries;
mod request_cache;
mod serving;
mod threads;
mod workers;

pub use batch_workers::WorkFault;
pub use by_hand::ByHand;
pub use client::{ClientSession, RequestInput};
pub use function_source::{SourceFn, source_fn};
pub use future::ClientAnswering;
pub use gq_bindings::{By, LoaderLine};
pub use gq_schema::SchemaFault;
pub use load_by_hand::{LoadByHand, PlannedLoad};
pub use load_memory::{Item, Key, NoMemory, Outcome, Row, Rows, Text, TextPair};
pub use load_queue::{FetchFault, LocalSource, PerKey, QueueFault, Source};
pub use load_rounds::{Answer, Limits, SessionFault};
pub use opening::Sessions;
pub use plan_requests::{Request, Server};
pub use planned::PlannedRequest;
pub use queries::Queries;
pub use rounds_by_hand::{HandedIn, Pending, Progress, TakeFault};
pub use server_lines::{CountedDevice, ServeFault};
pub use serving::{serve, serve_with};
pub use workers::Workers;
