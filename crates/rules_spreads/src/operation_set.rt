//! Sets of operations, of 64 in a row at a time.

ghost use Rattle.std.specs.Prelude.{◌≡◌, ◌==◌, ◌||◌, ◌&&◌, ◌<◌, ◌≤◌, ◌+◌, ℕ, true, not};
ghost use Rattle.rules_spreads.specs.OperationSpans.{has, is_within, both, IsOfSpan, no_operations};

/// Greatest number of operations of a span.
const MOST_OPERATIONS: usize = 64;

/// Returns how many operations the span has that begins at a place, where there are `all` in all.
pub fn span_len(first: usize, all: usize) -> usize
    requires { first < all }
    ensures count { (0 < result) × (result ≤ 64) }
    ensures within { first + result ≤ all }
{
    MOST_OPERATIONS.min(all - first)
}

/// Some of the operations of a span, by their numbers in it from 0.
#[derive(Clone, Copy)]
pub struct OperationSet {
    bits: u64,
}

impl OperationSet {
    /// None of them.
    pub fn new() -> OperationSet
        ensures { result ≡ no_operations }
    {
        OperationSet { bits: 0 }
    }

    /// All of them.
    pub fn all() -> OperationSet
        ensures { (i : ℕ) → i < 64 → has result i ≡ true }
    {
        OperationSet { bits: u64::MAX }
    }

    /// One of them alone.
    pub fn alone(number: usize) -> OperationSet
        requires { number < 64 }
        ensures { (i : ℕ) → has result i ≡ (i == number) }
    {
        OperationSet::new().with(number)
    }

    /// These and one more.
    pub fn with(self, number: usize) -> OperationSet
        requires { number < 64 }
        ensures { (i : ℕ) → has result i
            ≡ (i == number || has self i) }
    {
        OperationSet {
            bits: self.bits | 1u64 << number,
        }
    }

    /// These without one.
    pub fn without(self, number: usize) -> OperationSet
        requires { number < 64 }
        ensures { (i : ℕ) → i < 64 → has result i
            ≡ (not (i == number) && has self i) }
    {
        OperationSet {
            bits: self.bits & !(1u64 << number),
        }
    }

    /// Those of both.
    pub fn union(self, other: OperationSet) -> OperationSet
        ensures both { result ≡ both self other }
        ensures span { IsOfSpan other }
    {
        OperationSet {
            bits: self.bits | other.bits,
        }
    }

    /// Tells whether this is one of them.
    pub fn contains(self, number: usize) -> bool
        requires { number < 64 }
        ensures { result ≡ has self number }
    {
        (self.bits >> number) & 1 == 1
    }

    /// Tells whether the other set has all of them.
    pub fn is_within(self, other: OperationSet) -> bool
        ensures { result ≡ is_within self other }
    {
        self.bits | other.bits == other.bits
    }
}
