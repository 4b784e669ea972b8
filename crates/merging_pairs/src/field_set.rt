//! Sets of fields, a bit for each number.
ghost use Rattle.std.specs.Prelude.{◌≡◌, ◌<◌, ℕ, ◌||◌, ◌==◌, false, MatchBool};
ghost use Rattle.merging_pairs.specs.Sets.{has, Meets, IsEmpty};

use std::marker::Model;

/// The words of a row.
const WORDS: usize = 16;

/// A set of fields by their numbers, which are below 1,024.
///
/// A contract sees its words, and asks them by `has`.
#[derive(Drop)]
pub struct FieldSet {
    words: [u64; WORDS],
}

impl Model for FieldSet {
    ghost use Rattle.std.specs.Prelude.{ℕ, List};

    ghost Value = { List ℕ };

    ghost view = { λ r. r.words };
}

fn has_bit(words: &[u64; WORDS], i: usize) -> bool
    requires { i < 1024 }
    ensures { result ≡ has words.now i }
{
    (words[i / 64] >> (i % 64)) & 1 == 1
}

impl FieldSet {
    /// A row without any field.
    pub fn new() -> FieldSet
        ensures { (i : ℕ) → has result i ≡ false }
    {
        FieldSet { words: [0; WORDS] }
    }

    /// Tells whether the row has a field.
    pub fn has(&self, field: usize) -> bool
        requires { field < 1024 }
        ensures { result ≡ has self.now field }
    {
        has_bit(&self.words, field)
    }

    /// Adds a field.
    pub fn insert(&mut self, field: usize)
        requires { field < 1024 }
        ensures { (i : ℕ) → has self.new i
            ≡ (has self.old i || (i == field)) }
    {
        self.words[field / 64] |= 1 << (field % 64);
    }

    /// Adds all fields of another row.
    pub fn add_all(&mut self, other: &FieldSet)
        ensures { (i : ℕ) → has self.new i
            ≡ (has self.old i || has other.now i) }
    {
        for k in 0..WORDS {
            self.words[k] |= other.words[k];
        }
    }

    /// Tells whether two rows have a field in common.
    pub fn meets(&self, other: &FieldSet) -> bool
        ensures { Meets self.now other.now result }
    {
        for k in 0..WORDS {
            if self.words[k] & other.words[k] != 0 {
                return true;
            }
        }
        false
    }

    /// Tells whether the row has no field. Only such a row has none in common with itself.
    pub(crate) fn is_empty(&self) -> bool
        ensures { MatchBool result (IsEmpty self.now)
            (IsEmpty self.now → ⊥) }
    {
        !self.meets(self)
    }
}
