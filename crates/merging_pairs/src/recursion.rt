//! The rule's two recursions: what each says of a pair of fields with one response key.
ghost use Rattle.std.specs.Prelude.{◌≡◌, ◌<◌, ◌≤◌, ◌||◌, length};
ghost use Rattle.merging_pairs.specs.Numbered.{fields_of};
ghost use Rattle.merging_pairs.specs.Table.{fail, HasShapes, fails_itself, asks_members};

use crate::field::Field;
use crate::field_set::FieldSet;

/// Recursion for which a table is: one of the rule's two.
#[derive(Clone, Copy)]
pub enum MergeRecursion {
    Shape,
    Merge,
}

/// One of the two recursions over the fields of a document. `shapes` is the table of the other
/// one, if this one needs it.
#[derive(Clone, Copy)]
pub struct Recursion<'a> {
    pub rule: MergeRecursion,
    pub fields: &'a [Field],
    pub shapes: &'a [FieldSet],
    ghost most: { length fields.now ≤ 1024 },
    ghost ready: { HasShapes rule (length fields.now) shapes.now },
}

/// Tells whether two fields conflict.
fn is_failing(rows: &[FieldSet], c: usize, d: usize) -> bool
    requires c { c < length rows.now }
    requires d { d < length rows.now }
    requires most { length rows.now ≤ 1024 }
    ensures { result ≡ fail rows.now c d }
{
    rows[c].has(d) || rows[d].has(c)
}

impl Recursion<'_> {
    /// Tells whether two fields with one response key conflict by themselves, whatever is below
    /// them.
    pub fn fails_itself(&self, a: usize, b: usize) -> bool
        requires a { a < length self.now.fields.now }
        requires b { b < length self.now.fields.now }
        ensures { result
            ≡ fails_itself self.now.rule (fields_of self.now.fields.now) self.now.shapes.now a b }
    {
        let (one, other) = (&self.fields[a], &self.fields[b]);
        match self.rule {
            MergeRecursion::Shape => !one.is_alike(other),
            MergeRecursion::Merge => {
                is_failing(self.shapes, a, b) || (one.may_meet(other) && !one.agrees(other))
            }
        }
    }

    /// Tells whether the members of their joined selection sets count for two fields with one
    /// response key.
    pub fn asks_members(&self, a: usize, b: usize) -> bool
        requires a { a < length self.now.fields.now }
        requires b { b < length self.now.fields.now }
        ensures { result ≡ asks_members self.now.rule
            (fields_of self.now.fields.now) a b }
    {
        match self.rule {
            MergeRecursion::Shape => true,
            MergeRecursion::Merge => self.fields[a].may_meet(&self.fields[b]),
        }
    }
}
