//! Values by texts, within limits.

ghost use Rattle.std.specs.Prelude.{◌≡◌, ◌≤◌, ◌<◌, ◌+◌, ◌^◌, ◌↔◌, ℕ, [], Some, IsTrue, OnOk, OnErr, length, string_bytes};
ghost use Rattle.std.specs.List.{Contains};
ghost use Rattle.std.specs.Option.{option_copied};
ghost use Rattle.text_cache.specs.Keeping.{entries_of, Adds, MakesRoom};
ghost use Rattle.text_cache.specs.TextCaches.{find, texts_of, AreBounded, FindsNoOther, FitsAlone, HasRoom, IsAsBeforeOrEmpty, IsBounded, OthersStay};

use std::alloc::{AllocError, Global};
use std::collections::HashMap;
use std::marker::Model;

/// How much is kept at a time, at most.
#[derive(Clone, Copy, Debug, PartialEq, Eq)]
pub struct CacheLimits {
    /// Number of texts.
    pub texts: usize,
    /// Number of bytes that the texts have together.
    pub bytes: usize,
}

/// Values by texts, no more than its limits allow.
///
/// Where one text more doesn't fit, all are let go before it is added. Only the texts' bytes are counted, and not what the values
/// take.
///
/// A contract sees the texts with their values, and the limits.
///
/// To let go of the text that came longest ago, each look-up would have to note when it came.
#[derive(Drop)]
pub struct TextCache<V> {
    values: HashMap<String, V>,
    // Number of bytes of all texts.
    bytes: usize,
    limits: CacheLimits,
}

impl<V> Model for TextCache<V> {
    ghost use Rattle.text_cache.specs.TextCaches.{TextCacheOf};
    ghost use Rattle.text_cache.specs.Keeping.{entries_of, IsKeeping};

    ghost Value = { TextCacheOf V };

    ghost view = { λ c. record { entries = entries_of c.values.entries; limits = c.limits } };

    ghost invariant = { λ c. IsKeeping c.limits (entries_of c.values.entries) c.bytes };
}

impl<V> TextCache<V> {
    /// No texts yet, and at most as many as these limits allow.
    pub fn new(alloc: Global, limits: CacheLimits) -> TextCache<V>
        ensures { result ≡ record { entries = []; limits = limits } }
    {
        TextCache {
            values: HashMap::new(alloc),
            bytes: 0,
            limits,
        }
    }

    /// The limits.
    pub fn limits(&self) -> CacheLimits
        ensures limits { result ≡ self.now.limits }
        ensures bounded { AreBounded self.now.limits (texts_of self.now) }
    {
        self.limits
    }

    /// The value of a text, if it is kept.
    pub fn get(&self, text: &str) -> Option<&V>
        ensures { option_copied result ≡ find self.now text.now }
    {
        self.values.get(text)
    }

    /// Tells whether a text is kept.
    pub fn contains(&self, text: &str) -> bool
        ensures { IsTrue result ↔ Contains (texts_of self.now) text.now }
    {
        self.values.contains_key(text)
    }
}

// Tells whether a text fits where no other is kept.
fn fits_alone(limits: CacheLimits, text: &str) -> bool
    ensures { IsTrue result ↔ FitsAlone limits text.now }
{
    limits.texts > 0 && text.len() <= limits.bytes
}

// Lets all texts go, where one more of `more` bytes doesn't fit.
fn make_room<V: Drop>(
    values: &mut HashMap<String, V>,
    bytes: &mut usize,
    limits: CacheLimits,
    more: usize,
)
    requires { bytes.old ≤ limits.bytes }
    ensures { MakesRoom limits values.old.entries bytes.old more values.new.entries bytes.new }
{
    if values.len() >= limits.texts || more > limits.bytes - *bytes {
        values.clear();
        *bytes = 0;
    }
}

// Gives a text its value, and counts its bytes if it is new.
fn add<V: Drop>(
    values: &mut HashMap<String, V>,
    bytes: &mut usize,
    text: String,
    value: V,
) -> Result<(), AllocError>
    requires { bytes.old + length (string_bytes text) < 2 ^ 64 }
    ensures ok { OnOk result (Adds (entries_of values.old.entries) bytes.old
        (string_bytes text) value (entries_of values.new.entries) bytes.new) }
    ensures err { OnErr result
        ((values.new.entries ≡ values.old.entries) × (bytes.new ≡ bytes.old)) }
{
    let more = text.len();
    if values.insert(text, value)?.is_none() {
        *bytes += more;
    }
    Ok(())
}

impl<V: Drop> TextCache<V> {
    /// Gives a text its value, in place of one that it has. Lets all texts go first, where one more doesn't fit, also where this one
    /// is kept already. A text that doesn't even fit alone isn't kept, and then none is let go.
    ///
    /// # Errors
    ///
    /// Only when out of memory. All texts may have been let go by then.
    pub fn insert(&mut self, alloc: Global, text: &str, value: V) -> Result<(), AllocError>
        ensures added { OnOk result
            (FitsAlone self.old.limits text.now → find self.new text.now ≡ Some value) }
        ensures others { FindsNoOther self.old self.new text.now value }
        // While there is room, no text is let go.
        ensures stay { HasRoom self.old.limits (texts_of self.old) text.now
            → OthersStay self.old self.new text.now }
        ensures skipped { (FitsAlone self.old.limits text.now → ⊥) → self.new ≡ self.old }
        ensures kept { OnErr result (IsAsBeforeOrEmpty self.old self.new) }
        ensures bounded { IsBounded self.old.limits self.new }
    {
        if !fits_alone(self.limits, text) {
            return Ok(());
        }
        let key = String::from_str(alloc, text)?;
        make_room(&mut self.values, &mut self.bytes, self.limits, text.len());
        add(&mut self.values, &mut self.bytes, key, value)
    }
}
