//! The keys that are asked together.
ghost use Rattle.std.specs.Prelude.{◌≡◌, ◌==◌, ◌≤◌, [], ◌∷◌, take, drop, length, IfOk, OnOk, OnErr, IsTrue};
ghost use Rattle.load_memory.specs.KeyLists.{keys_held, AreFew, IsAllOf, IsPartOf};

use crate::key::Key;
use std::alloc::{AllocError, Global};
use std::marker::Model;
use std::sync::Arc;
use std::{mem, slice};

/// Greatest number of keys of a list that keeps its room to spare.
const KEPT_ROOM: usize = 64;

// A range of a list that is shared.
#[derive(Debug, Drop)]
struct KeyRange {
    list: Arc<Vec<Key>>,
    from: usize,
    to: usize,
}

// Place of the keys.
#[derive(Debug, Drop)]
enum HeldKeys {
    None,
    // never a pair, whose copy would stand in another box
    One(Key),
    Range(KeyRange),
}

/// Keys that are asked together, in order: one by itself, or a range of a list that its clones and its parts share, so that none
/// of them takes memory for keys. A pair alone stands in such a list too.
///
/// A contract sees the list of the keys.
///
/// The orders of a round, their replies and the logs share the list that the wants had. So keys of a round are
/// copied twice in all: as the memory's cache keys, and as those by which the wants find duplicates. One by itself is copied for
/// the log too.
#[derive(Debug)]
pub struct Keys {
    held: HeldKeys,
}

impl Model for Keys {
    ghost use Rattle.std.specs.Prelude.{List};
    ghost use Rattle.load_memory.specs.KeyLists.{keys_held, AreHeld};
    ghost use Rattle.load_memory.specs.declared.key.Key.{Key};

    ghost Value = { List Key };

    ghost view = { λ k. keys_held k.held };

    ghost invariant = { λ k. AreHeld k.held };
}

impl Drop for Keys {
    fn drop(self) {
        let Keys { held: _held } = self;
    }
}

// All keys of a list. A long one gives back its room to spare.
fn range_of(keys: Vec<Key>) -> Result<KeyRange, AllocError>
    ensures { IfOk result (λ all. IsAllOf keys.items all) }
{
    let mut keys = keys;
    if keys.len() > KEPT_ROOM {
        keys.shrink_to_fit();
    }
    let alloc = *keys.allocator();
    let to = keys.len();
    let list = Arc::new(alloc, keys)?;
    Ok(KeyRange { list, from: 0, to })
}

impl KeyRange {
    // The keys from one place of the list to another, in no memory.
    fn part(&self, from: usize, to: usize) -> Result<KeyRange, AllocError>
        ensures { IfOk result (IsPartOf self.now from to) }
    {
        Ok(KeyRange {
            list: Arc::try_clone(&self.list)?,
            from,
            to,
        })
    }
}

// Tells whether there is no key, or one that is no pair.
fn are_few(keys: &[Key]) -> bool
    ensures { IsTrue result → AreFew keys.now }
{
    match keys {
        [] => true,
        [Key::All] => true,
        [Key::Text(_)] => true,
        _ => false,
    }
}

impl Keys {
    /// No keys, in no memory.
    pub fn new() -> Keys
        ensures { result ≡ [] }
    {
        Keys {
            held: HeldKeys::None,
        }
    }

    /// All keys of a list, which it takes over. A long one gives back its room to spare.
    pub fn from_vec(keys: Vec<Key>) -> Result<Keys, AllocError>
        ensures { IfOk result (λ all. all ≡ keys.items) }
    {
        if !are_few(&keys) {
            let range = range_of(keys)?;
            return Ok(Keys {
                held: HeldKeys::Range(range),
            });
        }
        let mut keys = keys;
        match keys.pop() {
            Some(key) => Ok(Keys {
                held: HeldKeys::One(key),
            }),
            None => Ok(Keys::new()),
        }
    }

    /// The keys, in order.
    pub fn as_slice(&self) -> &[Key]
        ensures { result.now ≡ self.now }
    {
        match &self.held {
            HeldKeys::None => &[],
            HeldKeys::One(key) => slice::from_ref(key),
            HeldKeys::Range(range) => &range.list[range.from..range.to],
        }
    }

    /// Returns how many keys there are.
    pub fn len(&self) -> usize
        ensures { result ≡ length self.now }
    {
        self.as_slice().len()
    }

    /// Tells whether there is no key.
    pub fn is_empty(&self) -> bool
        ensures { result ≡ (length self.now == 0) }
    {
        self.len() == 0
    }

    /// Takes the first `at` keys off, and leaves those that follow. Only a list with 2^63 owners has no room for one
    /// more; then nothing is taken off.
    pub fn split_to(&mut self, at: usize) -> Result<Keys, AllocError>
        requires { at ≤ length self.old }
        ensures first { IfOk result
            (λ first. first ≡ take at self.old) }
        ensures rest { OnOk result
            (self.new ≡ drop at self.old) }
        ensures kept { OnErr result (self.new ≡ self.old) }
    {
        if let HeldKeys::Range(range) = &mut self.held {
            let middle = range.from + at;
            let first = range.part(range.from, middle)?;
            range.from = middle;
            return Ok(Keys {
                held: HeldKeys::Range(first),
            });
        }
        if at == 0 {
            return Ok(Keys::new());
        }
        Ok(mem::replace(self, Keys::new()))
    }
}

// The same key once more, which is no pair.
fn copy_of(key: &Key) -> Result<Key, AllocError>
    requires { AreFew (key.now ∷ []) }
    ensures { IfOk result (λ copy. copy ≡ key.now) }
{
    Ok(key.clone()?)
}

impl Clone for Keys {
    ghost is_clone = { λ x y. y ≡ x };

    fn clone(&self) -> Result<Keys, AllocError> {
        let held = match &self.held {
            HeldKeys::None => HeldKeys::None,
            HeldKeys::One(key) => HeldKeys::One(copy_of(key)?),
            HeldKeys::Range(range) => HeldKeys::Range(range.part(range.from, range.to)?),
        };
        Ok(Keys { held })
    }
}
