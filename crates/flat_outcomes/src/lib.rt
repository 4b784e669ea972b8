//! Outcomes of loaded keys as a host of another language reads them: numbers and texts in flat buffers.
//!
//! The layer above may rely on this: what such buffers say is one definition, `outcomes_said` of `specs/Said.antt`, and what
//! [`FlatOutcomes`] copies into them says the outcomes that it was made of. The rows of outcomes may have different columns: the names
//! of a row's columns stand before its fields, unless they are those of the row before.
#![tactic(auto)]

mod outcomes;
mod rows;

pub use outcomes::{BATCH_FAULT, FlatOutcomes, KEY_FAULT, OutcomeSizes};
pub use rows::SAME_COLUMNS;
