//! Texts that take no memory while they are short, as ids and names mostly are.
//!
//! The layers above may rely on this: a contract sees a [`Text`] as its bytes, which are UTF-8, and two texts are equal,
//! and have equal hashes, where their bytes are equal. Where a text stands is no part of that.
#![tactic(auto)]

mod short;
mod text;

pub use text::Text;
