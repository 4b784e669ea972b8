//! Rows as a host of another language lays them out: numbers and texts in flat buffers.
//!
//! The layer above may rely on this: what a [`FlatReply`] says is one definition, `reply_items`, and is read
//! whole or refused with its first fault (`ReplyFault`). So is what a [`KeyedReply`] says of an order's keys
//! (`replied_items`, `KeyedReplyFault`). All rows of a reply share one sheet.
#![tactic(auto)]

pub mod examples;
mod fault;
mod keyed;
mod reply;
mod texts;

pub use fault::FlatFault;
pub use keyed::{KeyedBy, KeyedFault, KeyedReply};
pub use reply::{FlatReply, KEY_FAULT};
pub use texts::FlatTexts;
