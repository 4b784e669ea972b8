//! A short text, in the value itself.
ghost use Rattle.std.specs.Prelude.{◌≡◌, ◌≤◌, ◌↔◌, length, map, IsSome, IfSome, []};
ghost use Rattle.std.specs.Char.{to_ascii_lowercase};

use std::marker::Model;
use std::str;

// The most bytes of a short text. With its length and what a `Text` notes beside it, this fills four words, and a
// `String` in its place would take as many.
pub(crate) const MOST: usize = 30;

// A text of at most `MOST` bytes.
#[derive(Drop)]
pub(crate) struct Short {
    len: u8,
    bytes: [u8; 30],
}

impl Model for Short {
    ghost use Rattle.std.specs.Prelude.{◌≤◌, List, ℕ, take, IsUtf8};

    ghost Value = { List ℕ };

    ghost view = { λ s. take s.len s.bytes };

    ghost invariant = { λ s. (s.len ≤ 30) × ∥ IsUtf8 (take s.len s.bytes) ∥₁ };
}

impl Short {
    // A copy of a text, where it is short.
    pub(crate) fn of(text: &str) -> Option<Short>
        ensures some { IsSome result
            ↔ (length text.now ≤ 30) }
        ensures value { IfSome result
            (λ short. short ≡ text.now) }
    {
        if text.len() > MOST {
            return None;
        }
        let mut bytes = [0u8; 30];
        bytes[..text.len()].copy_from_slice(text.as_bytes());
        Some(Short {
            len: text.len() as u8,
            bytes,
        })
    }

    // The empty text.
    pub(crate) fn empty() -> Short
        ensures { result ≡ [] }
    {
        Short {
            len: 0,
            bytes: [0; 30],
        }
    }

    // Returns the same text once more.
    pub(crate) fn copy_of_bytes(&self) -> Short
        ensures { result ≡ self.now }
    {
        Short {
            len: self.len,
            bytes: self.bytes,
        }
    }

    // The bytes are UTF-8 by the invariant, so nothing looks at them here.
    pub(crate) fn as_str(&self) -> &str
        ensures { result.now ≡ self.now }
    {
        unsafe { str::from_utf8_unchecked(&self.bytes[..self.len as usize]) }
    }

    pub(crate) fn make_ascii_lowercase(&mut self)
        ensures { self.new
            ≡ map to_ascii_lowercase self.old }
    {
        let len = self.len as usize;
        self.bytes[..len].make_ascii_lowercase();
    }
}
