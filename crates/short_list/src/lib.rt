//! Lists of which most have one item, which is then made without an allocator.
//!
//! The layers above may rely on this: a contract sees a [`ShortList`] as the list of its items, in order. Where they stand is
//! no part of that, but `ShortList::new` and `ShortList::one` are given no allocator, so they take no memory and can't fail.
#![tactic(auto)]

mod list;

pub use list::ShortList;
