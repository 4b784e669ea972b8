//! Pairs of fields that conflict, by a table.
ghost use Rattle.std.specs.Prelude.{◌≡◌, ◌≢◌, ◌<◌, ◌≤◌, ℕ, [], ◌∷◌, length, IfOk, true, false};
ghost use Rattle.merging_pairs.specs.Sets.{has, Meets};
ghost use Rattle.merging_pairs.specs.Numbered.{fields_of, members_at, is_in, AreInOrder};
ghost use Rattle.merging_pairs.specs.Table.{IsBelow, TellsAll, Holds, IsReady, AreMarks, TestsJoined};
ghost use Rattle.merging_pairs.specs.Recursions.{TestsFields};

use crate::field::Field;
use crate::field_set::FieldSet;
use crate::recursion::{MergeRecursion, Recursion};
use std::alloc::{AllocError, Global};

/// The fields that conflict with one of a set's members.
fn marks_of(rows: &[FieldSet], members: &FieldSet) -> FieldSet
    requires most { length rows.now ≤ 1024 }
    requires below { IsBelow rows.now }
    requires members { (c : ℕ) → has members.now c ≡ true
        → c < length rows.now }
    ensures { AreMarks rows.now (has members.now) result }
{
    let mut marks = FieldSet::new();
    if members.is_empty() {
        return marks;
    }
    for d in 0..rows.len() {
        if members.has(d) {
            marks.add_all(&rows[d]);
        }
        if rows[d].meets(members) {
            marks.insert(d);
        }
    }
    marks
}

/// The fields that conflict with one field.
pub(crate) fn marks_of_field(rows: &[FieldSet], field: usize) -> FieldSet
    requires known { field < length rows.now }
    requires most { length rows.now ≤ 1024 }
    ensures { AreMarks rows.now
        (is_in (field ∷ [])) result }
{
    let mut marks = FieldSet::new();
    marks.add_all(&rows[field]);
    for d in 0..rows.len() {
        if rows[d].has(field) {
            marks.insert(d);
        }
    }
    marks
}

/// Tells whether members of the joined selection sets of two fields conflict. `marks` are the fields
/// that conflict with a member of `b`, and `inner` the fields of which two own members conflict.
fn joined_fails(fields: &[Field], marks: &FieldSet, inner: &FieldSet, a: usize, b: usize) -> bool
    requires a { a < length fields.now }
    requires b { b < length fields.now }
    requires most { length fields.now ≤ 1024 }
    ensures { TestsJoined marks.now inner.now
        (members_at fields.now a) a b result }
{
    inner.has(a) || inner.has(b) || marks.meets(&fields[a].members)
}

/// Tells whether two fields have one response key.
pub(crate) fn is_one_key(fields: &[Field], a: usize, b: usize) -> bool
    requires a { a < length fields.now }
    requires b { b < length fields.now }
    ensures { result ≡ (fields_of fields.now).one_key a b }
{
    fields[a].has_one_key(&fields[b])
}

/// Tells whether field `a` conflicts with a later field `b`, by the `marks` and `inner` of
/// [`joined_fails`].
fn pair_fails(recursion: &Recursion, marks: &FieldSet, inner: &FieldSet, a: usize, b: usize) -> bool
    requires a { a < length recursion.now.fields.now }
    requires b { b < length recursion.now.fields.now }
    ensures { TestsFields recursion.now
        marks.now inner.now a b result }
{
    let fields = recursion.fields;
    if !is_one_key(fields, a, b) {
        return false;
    }
    let joined = joined_fails(fields, marks, inner, a, b);
    recursion.fails_itself(a, b) || (recursion.asks_members(a, b) && joined)
}

/// The earlier fields that conflict with field `b`.
fn next_row(recursion: &Recursion, marks: &FieldSet, inner: &FieldSet, b: usize) -> FieldSet
    requires b { b < length recursion.now.fields.now }
    ensures below { (a : ℕ) → has result a ≡ true → a < b }
    ensures each { (a : ℕ) → a < b
        → TestsFields recursion.now marks.now inner.now a b (has result a) }
{
    let mut row = FieldSet::new();
    for a in 0..b {
        if pair_fails(recursion, marks, inner, a, b) {
            row.insert(a);
        }
    }
    row
}

/// Adds field `b` if two of its own members conflict: if `marks`, the fields that conflict with a
/// member, has one of the members.
fn note_inner(inner: &mut FieldSet, marks: &FieldSet, members: &FieldSet, b: usize)
    requires small { b < 1024 }
    requires absent { has inner.old b ≡ false }
    ensures others { (a : ℕ) → a ≢ b
        → has inner.new a ≡ has inner.old a }
    ensures own { Meets marks.now members.now
        (has inner.new b) }
{
    if marks.meets(members) {
        inner.insert(b);
    }
}

/// The members of a field's selection set.
pub(crate) fn members_of(fields: &[Field], a: usize) -> &FieldSet
    requires { a < length fields.now }
    ensures { result.now ≡ members_at fields.now a }
{
    &fields[a].members
}

/// The table: which pairs conflict by one of the rule's two recursions. `shapes` is the table of
/// the other one, if this one needs it.
pub(crate) fn table(
    alloc: Global,
    fields: &[Field],
    rule: MergeRecursion,
    shapes: &[FieldSet],
) -> Result<Vec<FieldSet>, AllocError>
    requires most { length fields.now ≤ 1024 }
    requires order { AreInOrder fields.now }
    requires ready { IsReady rule (fields_of fields.now)
        (length fields.now) shapes.now }
    ensures len { IfOk result
        (λ rows. length rows.items ≡ length fields.now) }
    ensures below { IfOk result
        (λ rows. IsBelow rows.items) }
    ensures tells { IfOk result (λ rows. TellsAll (Holds rule (fields_of fields.now))
        (fields_of fields.now) (length fields.now) rows.items) }
{
    let recursion = Recursion {
        rule,
        fields,
        shapes,
    };
    let mut rows: Vec<FieldSet> = Vec::with_capacity(alloc, fields.len())?;
    let mut inner = FieldSet::new();
    for b in 0..fields.len() {
        let members = members_of(fields, b);
        let marks = marks_of(&rows, members);
        note_inner(&mut inner, &marks, members, b);
        let row = next_row(&recursion, &marks, &inner, b);
        rows.push(row)?;
    }
    Ok(rows)
}
