//! Replies: what came of one order.
use crate::keys::Keys;
use crate::outcome::Outcome;

/// The outcomes of keys that were asked together of one loader.
#[derive(Drop)]
pub struct Reply {
    /// The loader's number, from 0.
    pub loader: usize,
    /// The keys that were asked, in order.
    pub keys: Keys,
    /// One outcome for each key, at the key's place.
    pub outcomes: Vec<Outcome>,
}
