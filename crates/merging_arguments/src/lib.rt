//! Arguments as sets of names and values: whether two fields are given the same (GraphQL specification of October 2021, section
//! 5.3.2).
//!
//! The layer above may rely on this: [`are_same_arguments`] compares two lists as sets, with strings by what they stand for,
//! numbers by their text, and lists and objects in order (`specs/Same.antt`); and that is an equivalence.
#![tactic(auto)]

mod arguments;
mod law;
mod values;

pub use arguments::are_same_arguments;
pub use law::same_arguments_are_equivalent;
