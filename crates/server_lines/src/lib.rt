//! Answers the lines of a reader by lines to a writer.
//!
//! The layer above passes a closure that answers a line, whose captures may change, and may rely on this: [`serve`] answers
//! each line by a call of it, in order, and writes what that gives, or after a fault exactly what the contract says. The
//! closure passes through the states that these calls leave, and through no others. A [`CountedDevice`] device has a fault only
//! where a call of it failed or a bound was met. This crate doesn't know what a line means.
//!
//! A caller turns the calls of its closure into a relation of its own by a lemma of `proofs/Widening.antt`: `serves_behind`,
//! where the closure changes what a captured reference points to; else `serves_widened` or, with an invariant, `serves_kept`.
#![tactic(auto)]

mod calls;
mod device;
mod fault;
mod feed;
mod lines;
mod output;
mod serving;

pub use device::{CountedDevice, DeviceFault};
pub use fault::{LineFault, ServeFault};
pub use serving::serve;
