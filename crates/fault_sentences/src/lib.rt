//! What is wrong with a schema or with bindings, in a sentence, with the names that stand at the place of the fault.
//!
//! The layer above may rely on this: a sentence is that of a complaint, with its names in it (`schema_words`, `bindings_words`), and the
//! complaint is true of the texts (`IsTrueOfSchema`, `IsTrueOfBindings`). On a schema it is one of the fault's number, on the token or the
//! character that stands at the fault's place. On a line of bindings its names are words of that line, and no complaint that looks less
//! far into the line is true. Where no line is bad, it is on the version, or on the first field that lacks a line. So none comes where
//! another says more: that the schema is refused, and no more, is said where its number has no complaint on what stands there, where the
//! text is too long to be read, and of bindings over a text that is no schema; and that the bindings are, where no line is bad or missing.
//! That the fault is that of these texts, no contract asks. Stored sentences test both together (`clients/schema_faults.txt`).
#![tactic(auto)]

mod bindings;
mod cut;
mod line;
mod looked_up;
mod missing;
mod schema;
mod token;
mod told;
mod written;

pub use bindings::BindingsComplaint;
pub use schema::SchemaComplaint;
pub use told::{FaultAt, copy_sentence, sentence};
