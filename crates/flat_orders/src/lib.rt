//! Keys and orders as a host of another language reads them: numbers and texts in flat buffers.
//!
//! The layer above may rely on this: what such buffers say is one definition, `lists_said` of `specs/Written.antt` and `orders_said` of
//! `specs/Orders.antt`, and what [`KeyLists`] and [`FlatOrders`] copy into them says the lists of keys and the orders that were added. A
//! host's buffers are filled whole, where each has just the size that is wanted, or not at all.
#![tactic(auto)]

mod lists;
mod orders;
mod texts;

pub use lists::{KeyLists, KeySizes};
pub use orders::FlatOrders;
pub use texts::{TextBuffer, WrongSize};
