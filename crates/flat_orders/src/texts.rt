//! Texts that are written one after another.
ghost use Rattle.std.specs.Prelude.{◌≡◌, ◌++◌, ◌∷◌, [], ◌↔◌, OnOk, OnErr, IsOk, length};
ghost use Rattle.load_memory.specs.Cells.{cut};
ghost use Rattle.flat_orders.specs.Written.{size_of};

use std::alloc::{AllocError, Global};
use std::marker::Model;
use thiserror::Error;

/// A buffer hasn't just the size that is wanted. Nothing was written.
#[derive(Clone, Copy, Debug, PartialEq, Eq, Error)]
#[error("a buffer of another size is wanted")]
pub struct WrongSize;

/// Texts in one buffer, each from where the one before it ends.
///
/// A contract sees them as a list.
pub struct TextBuffer {
    text: String,
    ends: Vec<u32>,
}

impl Model for TextBuffer {
    ghost use Rattle.std.specs.Prelude.{List, ℕ, string_bytes};
    ghost use Rattle.load_memory.specs.Cells.{IsCut, cut};

    ghost Value = { List (List ℕ) };

    ghost view = { λ b. cut (string_bytes b.text) 0 b.ends.items };

    ghost invariant = { λ b. IsCut (string_bytes b.text) 0 b.ends.items };
}

impl Drop for TextBuffer {
    fn drop(self) {
        let TextBuffer {
            text: _text,
            ends: _ends,
        } = self;
    }
}

impl TextBuffer {
    /// No text yet.
    pub fn new(alloc: Global) -> TextBuffer
        ensures { result ≡ [] }
    {
        TextBuffer {
            text: String::new(alloc),
            ends: Vec::new(alloc),
        }
    }

    /// Lets all texts go. Their room stays for those that come.
    pub fn clear(&mut self)
        ensures { self.new ≡ [] }
    {
        self.text.clear();
        self.ends.clear();
    }

    /// Returns how many texts there are.
    pub fn len(&self) -> usize
        ensures { result ≡ length self.now }
    {
        self.ends.len()
    }

    /// Returns how many bytes they have together.
    pub fn byte_len(&self) -> usize
        ensures { result ≡ size_of self.now }
    {
        self.text.len()
    }

    /// Adds a text at the end. When out of memory, or where the texts would have 4 GiB together, it is as it was.
    pub fn push(&mut self, text: &str) -> Result<(), AllocError>
        ensures ok { OnOk result
            (self.new ≡ self.old ++ text.now ∷ []) }
        ensures err { OnErr result (self.new ≡ self.old) }
    {
        self.text.reserve(text.len())?;
        let Ok(end) = u32::try_from(self.text.len() + text.len()) else {
            return Err(AllocError);
        };
        self.ends.push(end)?;
        self.text.push_str(text)?;
        Ok(())
    }

    /// Copies where each text ends, counted in bytes from the start of the first, and the texts.
    ///
    /// # Errors
    ///
    /// [`WrongSize`] where `ends` hasn't an element for each text, or `bytes` for each of their bytes.
    pub fn copy_to(&self, ends: &mut [u32], bytes: &mut [u8]) -> Result<(), WrongSize>
        ensures sizes { IsOk result
            ↔ (length ends.old ≡ length self.now) × (length bytes.old ≡ size_of self.now) }
        ensures copied { OnOk result
            (cut bytes.new 0 ends.new ≡ self.now) }
        ensures kept { OnErr result ((ends.new ≡ ends.old)
            × (bytes.new ≡ bytes.old)) }
    {
        if ends.len() != self.ends.len() || bytes.len() != self.text.len() {
            return Err(WrongSize);
        }
        ends.copy_from_slice(&self.ends);
        bytes.copy_from_slice(self.text.as_bytes());
        Ok(())
    }
}
