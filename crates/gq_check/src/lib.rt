//! Validation and preparation: from a document and a schema to a plan (GraphQL specification of October 2021, sections 5 and
//! 6.1).
//!
//! The layer above may rely on this: a [`CheckedDocument`] is a document that keeps every rule of validation over its schema
//! ([`valid_documents`]), and [`check`] names the first fault of every other document, which is its one verdict
//! ([`one_verdict`]), rule by rule (`src/rules.rt`). A [`Plan`] is an operation of a checked document with the values of its
//! variables, and [`prepare`] says why there is none. A [`PreparedDocument`] is a checked one of which [`prepare_again`] gives the
//! same plans any number of times; [`Plan::again`] gives the plan of the same operation with other values of its variables, as
//! [`prepare`] gives it. None of them borrows: each shares the schema, and a plan its bindings and its document too. A plan's
//! look-ups take no memory.
#![tactic(auto)]

mod checked;
mod fault;
mod fragments;
mod law;
mod operation;
mod places;
mod plan;
mod preparation;
mod prepared_document;
mod report;
mod rules;
mod validation;
mod variables;

pub use checked::CheckedDocument;
pub use fault::{CheckFault, PrepareFault, Rule};
pub use law::{one_verdict, valid_documents};
pub use plan::Plan;
pub use preparation::{prepare, prepare_again};
pub use prepared_document::PreparedDocument;
pub use validation::check;
