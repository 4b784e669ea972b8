//! Lists of keys that are written one after another.
ghost use Rattle.std.specs.Prelude.{◌≡◌, ◌++◌, ◌∷◌, [], IfOk, OnOk, OnErr, length, map, slice_get, option_map};
ghost use Rattle.load_memory.specs.Cells.{cut};
ghost use Rattle.load_memory.specs.Keys.{key_of};
ghost use Rattle.std.specs.List.{flat_map};
ghost use Rattle.flat_orders.specs.Written.{AreOfSize, all_texts, keys_in, lists_said, shape_of, size_of, texts_in};

use crate::texts::{TextBuffer, WrongSize};
use load_memory::Key;
use std::alloc::{AllocError, Global};
use std::marker::Model;

/// Numbers of elements that the buffers have to hold which [`KeyLists::copy_to`] fills.
#[derive(Clone, Copy, Debug, PartialEq, Eq)]
pub struct KeySizes {
    pub lists: usize,
    pub keys: usize,
    pub texts: usize,
    pub bytes: usize,
}

/// Lists of keys in flat buffers.
///
/// A contract sees them as lists of keys.
pub struct KeyLists {
    // for each list how many keys it has
    counts: Vec<u32>,
    // for each key how many texts it has: none asks for everything, two are a pair
    shapes: Vec<u32>,
    texts: TextBuffer,
}

impl Model for KeyLists {
    ghost use Rattle.std.specs.Prelude.{List};
    ghost use Rattle.load_memory.specs.Keys.{KeyOf};
    ghost use Rattle.flat_orders.specs.Written.{AreWritten, lists_said};

    ghost Value = { List (List KeyOf) };

    ghost view = { λ l. lists_said l.counts.items l.shapes.items l.texts };

    ghost invariant = { λ l. AreWritten (lists_said l.counts.items l.shapes.items l.texts) l.counts.items l.shapes.items l.texts };
}

impl Drop for KeyLists {
    fn drop(self) {
        let KeyLists {
            counts: _counts,
            shapes: _shapes,
            texts: _texts,
        } = self;
    }
}

// Writes a key at the end. When out of memory, nothing is known of what was written.
fn write_key(shapes: &mut Vec<u32>, texts: &mut TextBuffer, key: &Key) -> Result<(), AllocError>
    ensures shape { OnOk result
        (shapes.new.items ≡ shapes.old.items ++ shape_of (key_of key.now) ∷ []) }
    ensures texts { OnOk result (texts.new
        ≡ texts.old ++ texts_in (key_of key.now)) }
{
    match key {
        Key::All => shapes.push(0)?,
        Key::Text(text) => {
            shapes.push(1)?;
            texts.push(text.as_str())?;
        }
        Key::Pair(pair) => {
            shapes.push(2)?;
            texts.push(pair.one.as_str())?;
            texts.push(pair.two.as_str())?;
        }
    }
    Ok(())
}

// Writes keys at the end. When out of memory, nothing is known of what was written.
fn write_keys(shapes: &mut Vec<u32>, texts: &mut TextBuffer, keys: &[Key]) -> Result<(), AllocError>
    ensures shapes { OnOk result
        (shapes.new.items ≡ shapes.old.items ++ map shape_of (map key_of keys.now)) }
    ensures texts { OnOk result (texts.new ≡ texts.old
        ++ flat_map texts_in (map key_of keys.now)) }
{
    for key in keys {
        write_key(shapes, texts, key)?;
    }
    Ok(())
}

// Writes a list at the end. When out of memory, nothing is known of what was written.
fn write_list(
    counts: &mut Vec<u32>,
    shapes: &mut Vec<u32>,
    texts: &mut TextBuffer,
    keys: &[Key],
) -> Result<(), AllocError>
    ensures counts { OnOk result (counts.new.items
        ≡ counts.old.items ++ length (map key_of keys.now) ∷ []) }
    ensures shapes { OnOk result
        (shapes.new.items ≡ shapes.old.items ++ map shape_of (map key_of keys.now)) }
    ensures texts { OnOk result (texts.new ≡ texts.old
        ++ flat_map texts_in (map key_of keys.now)) }
{
    let Ok(count) = u32::try_from(keys.len()) else {
        return Err(AllocError);
    };
    counts.push(count)?;
    write_keys(shapes, texts, keys)
}

impl KeyLists {
    /// No list yet.
    pub fn new(alloc: Global) -> KeyLists
        ensures { result ≡ [] }
    {
        KeyLists {
            counts: Vec::new(alloc),
            shapes: Vec::new(alloc),
            texts: TextBuffer::new(alloc),
        }
    }

    /// Lets all lists go. Their room stays for those that come.
    pub fn clear(&mut self)
        ensures { self.new ≡ [] }
    {
        self.counts.clear();
        self.shapes.clear();
        self.texts.clear();
    }

    /// Adds a list at the end.
    ///
    /// # Errors
    ///
    /// When out of memory, or where there would be more keys or bytes than 32 bits count. All lists are let go then, as one may be half
    /// written.
    pub fn push(&mut self, keys: &[Key]) -> Result<(), AllocError>
        ensures pushed { OnOk result
            (self.new ≡ self.old ++ map key_of keys.now ∷ []) }
        ensures cleared { OnErr result (self.new ≡ []) }
    {
        match write_list(&mut self.counts, &mut self.shapes, &mut self.texts, keys) {
            Ok(()) => Ok(()),
            Err(fault) => {
                self.counts.clear();
                self.shapes.clear();
                self.texts.clear();
                Err(fault)
            }
        }
    }

    /// Returns how many elements the buffers have to hold that [`copy_to`](KeyLists::copy_to) fills.
    pub fn sizes(&self) -> KeySizes
        ensures lists { result.lists ≡ length self.now }
        ensures keys { result.keys
            ≡ length (keys_in self.now) }
        ensures texts { result.texts
            ≡ length (all_texts self.now) }
        ensures bytes { result.bytes
            ≡ size_of (all_texts self.now) }
    {
        KeySizes {
            lists: self.counts.len(),
            keys: self.shapes.len(),
            texts: self.texts.len(),
            bytes: self.texts.byte_len(),
        }
    }

    /// Returns how many keys the list of this number has, if there is one.
    pub fn count(&self, number: usize) -> Option<usize>
        ensures { result ≡ option_map (λ keys. length keys)
            (slice_get self.now number) }
    {
        if number < self.counts.len() {
            Some(self.counts[number] as usize)
        } else {
            None
        }
    }

    /// Copies for each list how many keys it has, for each key how many texts it has, where each text ends, and the texts.
    ///
    /// # Errors
    ///
    /// [`WrongSize`] where a buffer hasn't just the size that [`sizes`](KeyLists::sizes) tells.
    pub fn copy_to(
        &self,
        counts: &mut [u32],
        shapes: &mut [u32],
        ends: &mut [u32],
        bytes: &mut [u8],
    ) -> Result<(), WrongSize>
        ensures copied { OnOk result
            (lists_said counts.new shapes.new (cut bytes.new 0 ends.new) ≡ self.now) }
        ensures kept { OnErr result ((counts.new ≡ counts.old) × (shapes.new ≡ shapes.old)
            × (ends.new ≡ ends.old) × (bytes.new ≡ bytes.old)) }
        ensures refused { OnErr result
            (¬ (AreOfSize self.now counts.old shapes.old ends.old bytes.old)) }
    {
        if counts.len() != self.counts.len() || shapes.len() != self.shapes.len() {
            return Err(WrongSize);
        }
        self.texts.copy_to(ends, bytes)?;
        counts.copy_from_slice(&self.counts);
        shapes.copy_from_slice(&self.shapes);
        Ok(())
    }
}
