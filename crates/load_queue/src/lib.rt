//! Sources; the loaders that ask them; orders, the batches to ask, which alone call a source; and
//! the keys that are wanted of each loader.
//!
//! The layer above may rely on this:
//!
//! - Only [`Loader::cut`], which [`Loader::cut_owned`] does by value, makes an [`Order`]. It enters
//!   each in the loader's log and counts it, and nothing resets the count.
//! - A source is private to its loader (no clause says it). An order reaches it by [`Order::run`]
//!   alone, which requires that the loader of the order's number is the one that cut it;
//!   [`Order::reply_with`] reaches none. Both spend the order.
//! - Which loader is which stands in contracts alone: each has an identity, which no call changes, and
//!   of which no clause says more. So nobody can run an order of one loader on another.
//! - So a call over which a loader's count grew by as many as its log made no other order of it; where
//!   it was handed none either, it asked the source nothing else.
//! - A reply of `run` has, place by place, an answer that the source may give for the order's keys.
#![tactic(auto)]

mod cut;
mod identity;
pub mod loader;
pub mod order;
mod outcomes;
pub mod per_key;
pub mod source;
pub mod wants;

pub use loader::{Loader, LogEntry, MAX_LIMIT, QueueFault};
pub use order::Order;
pub use per_key::PerKey;
pub use source::{FetchFault, LocalSource, Source};
pub use wants::Wants;
