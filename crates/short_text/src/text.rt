//! Texts, short or long.
ghost use Rattle.std.specs.Prelude.{◌≡◌, ◌≤◌, ◌==◌, [], length, map, Some, IsOk, IfOk, OnOk, nat_eq, string_bytes};
ghost use Rattle.std.proofs.Common.{rules};
ghost use Rattle.std.specs.Char.{to_ascii_lowercase};
ghost use Rattle.std.specs.Cmp.{on_equiv, on_per, partial_equiv_from_equiv};
ghost use Rattle.std.specs.Cmp.Lexicographic.{pointwise, nat_list_eq_equiv};
ghost use Rattle.std.specs.Cmp.Rules.{hashing};
ghost use Rattle.std.specs.Hash as fed;

use crate::short::{MOST, Short};
use std::alloc::{AllocError, Global};
use std::convert::AsStr;
use std::fmt;
use std::hash::{Hash, Hasher};
use std::marker::Model;
use std::ops::DerefStr;

// Place of a text. A long place may have a short text too: it keeps its memory for the next.
#[derive(Drop)]
enum TextBytes {
    Short(Short),
    Long(String),
}

/// A text of UTF-8. Up to [`SHORT`](Text::SHORT) bytes it stands in the value itself, and a longer one on the heap.
///
/// It is read as a `&str`. A contract sees it as its bytes.
///
/// A short text has as much room as an enum over a `String` takes anyway. The bytes aren't checked when the
/// text is read, since an invariant says that they are UTF-8.
pub struct Text {
    held: TextBytes,
}

impl Model for Text {
    ghost use Rattle.std.specs.Prelude.{List, ℕ};

    ghost Value = { List ℕ };

    ghost use Rattle.short_text.specs.Bytes.{bytes_of};

    ghost view = { λ t. bytes_of t.held };
}

impl Drop for Text {
    fn drop(self) {
        let Text { held: _held } = self;
    }
}

impl Text {
    /// The most bytes that a text has without memory of its own.
    pub const SHORT: usize = 30;

    /// The empty text.
    pub fn new() -> Text
        ensures { result ≡ [] }
    {
        Text {
            held: TextBytes::Short(Short::empty()),
        }
    }

    /// A copy of a text. It takes memory only where the text has more than [`SHORT`](Text::SHORT) bytes.
    pub fn from_str(alloc: Global, text: &str) -> Result<Text, AllocError>
        ensures ok { IfOk result (λ t. t ≡ text.now) }
        ensures short { length text.now ≤ 30 → IsOk result }
    {
        let held = match Short::of(text) {
            Some(short) => TextBytes::Short(short),
            None => TextBytes::Long(String::from_str(alloc, text)?),
        };
        Ok(Text { held })
    }

    /// Becomes a copy of another text. It keeps its memory, and takes more only for a text that has more than
    /// [`SHORT`](Text::SHORT) bytes and is longer than all before.
    ///
    /// # Errors
    ///
    /// When out of memory, it is some text: set it again before you use it.
    pub fn set(&mut self, alloc: Global, text: &str) -> Result<(), AllocError>
        ensures { OnOk result (self.new ≡ text.now) }
    {
        match &mut self.held {
            TextBytes::Short(_) => *self = Text::from_str(alloc, text)?,
            TextBytes::Long(own) => {
                own.clear();
                own.push_str(text)?;
            }
        }
        Ok(())
    }

    /// The text.
    pub fn as_str(&self) -> &str
        ensures { result.now ≡ self.now }
    {
        match &self.held {
            TextBytes::Short(short) => short.as_str(),
            TextBytes::Long(text) => text.as_str(),
        }
    }

    /// Its length in bytes.
    pub fn len(&self) -> usize
        ensures { result ≡ length self.now }
    {
        self.as_str().len()
    }

    /// Tells whether it has no bytes.
    pub fn is_empty(&self) -> bool
        ensures { result ≡ (length self.now == 0) }
    {
        self.as_str().is_empty()
    }

    /// Makes `A` to `Z` small. Every other character stays.
    pub fn make_ascii_lowercase(&mut self)
        ensures { self.new
            ≡ map to_ascii_lowercase self.old }
    {
        match &mut self.held {
            TextBytes::Short(short) => short.make_ascii_lowercase(),
            TextBytes::Long(text) => text.make_ascii_lowercase(),
        }
    }
}

/// It takes no memory. A short text gives its own back.
impl From<String> for Text {
    ghost from_gives = { λ s t. t ≡ string_bytes s };

    fn from(text: String) -> Text {
        let held = match Short::of(text.as_str()) {
            Some(short) => TextBytes::Short(short),
            None => TextBytes::Long(text),
        };
        Text { held }
    }
}

impl Clone for Text {
    ghost is_clone = { λ t copy. copy ≡ t };

    fn clone(&self) -> Result<Text, AllocError> {
        let held = match &self.held {
            TextBytes::Short(short) => TextBytes::Short(short.copy_of_bytes()),
            TextBytes::Long(text) => TextBytes::Long(text.clone()?),
        };
        Ok(Text { held })
    }
}

impl DerefStr for Text {
    ghost deref_gives = { λ t bytes. bytes ≡ t };

    fn deref(&self) -> &str {
        self.as_str()
    }
}

impl AsStr for Text {
    ghost text = { λ t. t };

    fn as_str(&self) -> &str {
        self.as_str()
    }
}

impl PartialEq for Text {
    ghost eq = { λ s t. pointwise nat_eq s t };

    ghost laws = { partial_equiv_from_equiv nat_list_eq_equiv };

    fn eq(&self, other: &Text) -> bool {
        self.as_str() == other.as_str()
    }
}

impl Eq for Text {
    ghost laws = { nat_list_eq_equiv };
}

impl Hash for Text {
    ghost hash_input = { λ t. fed.str t };

    ghost respects_eq = { Prim.search (hashing, rules) };

    fn hash<H: Hasher>(&self, state: &mut H) {
        self.as_str().hash(state);
    }
}

impl fmt::Debug for Text {
    fn fmt<W: fmt::Write>(&self, f: &mut fmt::Formatter<W>) -> fmt::Result {
        fmt::Debug::fmt(&self.as_str(), f)
    }
}

impl fmt::Display for Text {
    ghost output = { λ t. Some t };

    fn fmt<W: fmt::Write>(&self, f: &mut fmt::Formatter<W>) -> fmt::Result {
        f.pad(self.as_str())
    }
}
