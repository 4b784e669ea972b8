//! A server, which is a schema with how its fields are answered, and what requests ask of it.
//!
//! The layer above may rely on this: [`Server::read`] makes a server exactly where both texts are accepted, and reports the
//! first fault otherwise (`specs/Servers.antt`). [`Server::plan`] returns the plan of a query, or its first fault
//! (`specs/Requests.antt`). [`DocumentCache`] plans requests in two steps: [`keep`](DocumentCache::keep) keeps the document of a
//! valid query by its text, and leaves the server as it is; [`plan`](DocumentCache::plan) returns what the request asks, its plan
//! or the text that refuses it (`specs/Planning.antt`). What is kept changes no plan and no refusal. [`plan_again`] plans a request
//! by the plan of another one with the same query and operation. Nothing here loads, so a server needs no tables.
#![tactic(auto)]

mod document_cache;
mod fault;
mod planning;
mod refusal;
mod server;

pub use document_cache::DocumentCache;
pub use fault::RequestFault;
pub use planning::plan_again;
pub use refusal::not_a_request;
pub use request_line::Request;
pub use server::Server;
