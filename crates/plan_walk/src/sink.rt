//! Sinks, into which a walk puts an answer.

ghost use Rattle.std.specs.Prelude.{◌≡◌, ◌<◌, ◌≤◌, ◌++◌, ◌∷◌, [], ℕ, List, IsTrue, OnOk};
ghost use Rattle.load_memory.specs.Keys.{borrowed_of};
ghost use Rattle.execution.specs.Loads.{Reader};
ghost use Rattle.execution.specs.Program.{ObjectOf, ListOf, Kind, Programs};
ghost use Rattle.plan_program.specs.Prepared.{leaf_value_seen};
ghost use Rattle.plan_walk.specs.Cells.{leaf_seen};
ghost use Rattle.plan_walk.specs.Puts.{Put, Begins, Ends, Enters, Has, View, Agree, all_puts, entries, reads, a_wait};
ghost use Rattle.plan_walk.specs.Positions.{kind_of, is_non_null, member_position, item_position, onward_of};

use crate::positions::{Items, Leaf, MemberPosition, Nullability, Onward, PositionKind};
use load_memory::KeyRef;
use plan_program::LeafValue;
use std::alloc::AllocError;

/// Says what a walk puts an answer into, depth first. After an error it is only dropped.
///
/// A walk doesn't know what becomes of what it puts: its contract says which puts a program over a memory comes
/// to, and a sink's contract what it holds after each. The trait has no lifetime, since a bound that names one
/// has no proof in a cycle of calls; so a sink that keeps response keys copies them.
pub trait Sink {
    // It goes from the first to the second by these puts, over groups that do so with the rows of their loads.
    ghost goes: { View → List Put → Self → Self → Type 0 };

    // Positions that wait in it go on at groups below this number.
    ghost below: { ℕ → Self → Type 0 };

    // the number of positions that wait in it
    ghost waits: { Self → ℕ };

    /// An object or a list begins.
    fn begin(&mut self, kind: PositionKind) -> Result<(), AllocError>
        ensures { OnOk result
            ((v : View) → goes v (Begins (kind_of kind) ∷ []) self.old self.new) };

    /// It ends. Its position may be null or not.
    fn end(&mut self, kind: PositionKind, nullability: Nullability) -> Result<(), AllocError>
        ensures { OnOk result ((v : View)
            → goes v (Ends (kind_of kind) (is_non_null nullability) ∷ []) self.old self.new) };

    /// A field of the object follows.
    fn field(&mut self, position: &MemberPosition) -> Result<(), AllocError>
        ensures { OnOk result ((v : View)
            → goes v (Enters ObjectOf (member_position position.now) ∷ []) self.old self.new) };

    /// The item of a number follows, from 0.
    fn item(&mut self, items: Items, number: usize) -> Result<(), AllocError>
        ensures { OnOk result ((v : View)
            → goes v (Enters ListOf (item_position items number) ∷ []) self.old self.new) };

    /// A position with nothing below it, which may be null or not.
    fn leaf_value(
        &mut self,
        leaf_value: &LeafValue,
        nullability: Nullability,
    ) -> Result<(), AllocError>
        ensures { OnOk result ((v : View) → goes v (Has (is_non_null nullability)
            (leaf_value_seen leaf_value.now) ∷ []) self.old self.new) };

    /// A position that is bound to a column, which may be null or not.
    fn cell(&mut self, leaf: Leaf<'_>, nullability: Nullability) -> Result<(), AllocError>
        ensures { OnOk result ((v : View) → goes v
            (Has (is_non_null nullability) (leaf_seen leaf.entry) ∷ []) self.old self.new) };

    /// So many loads are read.
    fn loads(&mut self, count: usize)
        ensures { (v : View) → goes v (reads count) self.old self.new };

    /// A position waits for the load that was read last, and then goes on so.
    fn wait(&mut self, onward: Onward, loader: usize, key: KeyRef<'_>) -> Result<(), AllocError>
        ensures { OnOk result ((v : View) → onward.group < v.count → goes v
            (a_wait v (onward_of onward) loader (borrowed_of key.entry)) self.old self.new) };

    /// Returns how many positions wait in it.
    fn waiting(&self) -> usize
        ensures { result ≡ waits self.now };

    /// Tells whether it stops here: nothing that is put changes it any more. A walk asks before each field and each item, and ends early.
    #[inline]
    fn stops(&mut self) -> bool
        ensures same { (v : View) → goes v [] self.old self.new }
        ensures stops { IsTrue result
            → (v : View) (ps : List Put) → goes v ps self.new self.new }
    {
        false
    }

    /// Returns how many of the `count` fields or items of what has just begun it has already. A walk passes over them.
    #[inline]
    fn passes(&mut self, count: usize) -> usize
        ensures few { result ≤ count }
        ensures passed { (v : View) (kind : Kind) (us : Programs) (R : Reader)
            → entries us ≡ result → goes v (all_puts kind us R) self.old self.new }
    {
        0
    }

    ghost none: { (v : View) (s : Self) → goes v [] s s };

    ghost more: { (v : View) (ps qs : List Put) (a b c : Self) → goes v ps a b → goes v qs b c → goes v (ps ++ qs) a c };

    ghost rises: { (n m : ℕ) (s : Self) → n ≤ m → below n s → below m s };

    ghost stays: { (v : View) (ps : List Put) (a b : Self) → goes v ps a b → below v.count a → below v.count b };

    // Groups past those of the positions that wait may do anything, where no position more waits.
    ghost narrow: { (v w : View) (n : ℕ) (ps : List Put) (a b : Self) → n ≤ v.count → Agree n v w
        → below n a → waits a ≡ waits b → goes w ps a b → goes v ps a b };
}
