//! A map from texts to values that is bounded, in the number of its texts and in their bytes.
//!
//! The layers above may rely on this: a contract sees a [`TextCache`] as its texts with their values, and its limits
//! (`specs/TextCaches.antt`). [`insert`](TextCache::insert) lets all texts go where one more doesn't fit, and no other ever; so a
//! text that is found has the value that it was last given.
#![tactic(auto)]

mod cache;
mod examples;

pub use cache::{CacheLimits, TextCache};
pub use examples::{bounded_by_hand, found_by_hand};
