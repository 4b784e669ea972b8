//! Objects of the C library: servers, what is kept of their queries, and clients whose rounds another language runs.
//!
//! The layer above may rely on this: a [`HostClient`] answers one request at a time, or loads the keys of one loader, by rounds whose
//! orders its host replies to. An answer that it holds is that of what was asked, by the definitions of serving, in a session of a client
//! of the server that planned it, which has the same limits on work and rounds: the loaders were asked exactly the batches of a lawful log
//! (`IsAnswerOf` of `specs/UnderWay.antt`, an invariant of [`AnsweredClient`]). Outcomes that it holds are those of the keys, as a session
//! loads them (`AreOutcomesOf` of `specs/Loads.antt`, an invariant of [`LoadedClient`]). A reply is what the host laid out (`TakesReply`),
//! or is refused with its first fault, and the order waits as before. A refusal loses nothing.
#![tactic(auto)]

mod answered;
mod asked;
mod asked_keys;
mod client;
mod fault;
mod idle;
mod keyed;
mod keys;
mod loaded;
mod loaders;
mod loading;
mod log;
mod note;
mod object;
mod opening;
mod under_way;

pub use answered::AnsweredClient;
pub use asked::{FlatAsked, FlatRequest};
pub use asked_keys::FlatKeys;
pub use client::HostClient;
pub use fault::Fault;
pub use flat_orders::{FlatOrders, KeySizes};
pub use flat_outcomes::{FlatOutcomes, OutcomeSizes};
pub use flat_rows::{FlatReply, KEY_FAULT, KeyedReply};
pub use idle::IdleClient;
pub use keyed::KeyedRefusal;
pub use keys::read_key;
pub use loaded::LoadedClient;
pub use loaders::LoaderTexts;
pub use loading::LoadUnderWay;
pub use log::BatchLog;
pub use object::Object;
pub use opening::{FaultPlace, OpenFault, open_client, open_server};
pub use rounds_by_hand::{HandedIn, Progress};
pub use server::{Queries, Server};
pub use under_way::UnderWay;
