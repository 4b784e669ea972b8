//! Places in texts: a line and a column.
//!
//! Tokens, errors and positions of answers all name a place. The layers above may rely on the order of places
//! ([`Place::is_before`]); which place a byte of a text has is `gq_lexer`'s matter.
#![tactic(auto)]

mod place;

pub use place::Place;
