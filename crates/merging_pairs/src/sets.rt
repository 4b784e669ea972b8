//! A selection set: its fields, and those that conflict with one of them.
ghost use Rattle.std.specs.Prelude.{◌≡◌, ◌<◌, ◌≤◌, ◌++◌, [], ◌∷◌, ℕ, List, length};
ghost use Rattle.merging_pairs.specs.Clashes.{has_clash};
ghost use Rattle.merging_pairs.specs.Entered.{IsReached};
ghost use Rattle.merging_pairs.specs.Table.{fail, IsBelow};

use crate::field_set::FieldSet;
use crate::table::marks_of_field;

/// Holds what a selection set has in all.
#[derive(Drop)]
pub struct ReachedFields {
    /// Its fields, with those of the sets that it enters.
    pub members: FieldSet,
    /// The fields that fail with one of them.
    pub marks: FieldSet,
}

impl ReachedFields {
    /// Nothing in it.
    pub fn new() -> ReachedFields
        ensures { (rows : List (List ℕ))
            → IsReached rows [] result }
    {
        ReachedFields {
            members: FieldSet::new(),
            marks: FieldSet::new(),
        }
    }

    /// Adds a field, with those that fail with it.
    pub fn add_field(&mut self, rows: &[FieldSet], field: usize)
        requires known { field < length rows.now }
        requires most { length rows.now ≤ 1024 }
        requires below { IsBelow rows.now }
        ensures { (ms : List ℕ) → IsReached rows.now ms self.old
            → IsReached rows.now (ms ++ field ∷ []) self.new }
    {
        self.members.insert(field);
        self.marks.add_all(&marks_of_field(rows, field));
    }

    /// Adds what another set has.
    pub fn add_all(&mut self, other: &ReachedFields)
        ensures { (rows : List (List ℕ)) (ms ns : List ℕ) → IsReached rows ms self.old
            → IsReached rows ns other.now → IsReached rows (ms ++ ns) self.new }
    {
        self.members.add_all(&other.members);
        self.marks.add_all(&other.marks);
    }

    /// Tells whether two of its fields fail.
    pub fn has_clash(&self) -> bool
        ensures { (rows : List (List ℕ)) (ms : List ℕ)
            → IsReached rows ms self.now → result ≡ has_clash (fail rows) ms }
    {
        self.members.meets(&self.marks)
    }
}
