//! The fields of a document under their numbers in the table of pairs.

ghost use Rattle.std.specs.Prelude.{◌≡◌, ◌<◌, ◌+◌, ℕ, Some, length, slice_get, IfOk};
ghost use Rattle.merging_members.specs.Members.{members_below};
ghost use Rattle.merging_members.specs.Written.{HasAll};
ghost use Rattle.rules_parts.specs.Parts.{parts_in};
ghost use Rattle.merging_fields.specs.Numbered.{IsNumbered, ForFieldAt, AreNumberedBy};

use crate::attributes::{Attribute, is_object_parent, number_of};
use merging_pairs::{Field, FieldSet};
use rules_parts::Parts;
use std::alloc::{AllocError, Global};

// The members of the own set of the field of a number, where `members` are those of all fields.
fn members_of(parts: &Parts, members: &[FieldSet], number: usize) -> FieldSet
    requires there { number < length members.now }
    ensures { ForFieldAt (parts_in parts.now) members.now number (λ numbers spread f.
        HasAll numbers result (members_below spread (number + 1) f.below)) }
{
    let mut row = FieldSet::new();
    row.add_all(&members[number]);
    row
}

// The field of a number, as the table of pairs sees it.
fn field_with_numbers(parts: &Parts, members: &[FieldSet], number: usize) -> Field
    requires there { number < length
        (parts_in parts.now).fields }
    requires len { length members.now
        ≡ length (parts_in parts.now).fields }
    ensures { ForFieldAt (parts_in parts.now) members.now number (λ numbers spread f.
        IsNumbered (parts_in parts.now) numbers spread number f result) }
{
    let field = &parts.fields[number];
    Field {
        key: number_of(parts, Attribute::Key, field),
        name: number_of(parts, Attribute::Selected, field),
        arguments: 0,
        parent: number_of(parts, Attribute::Parent, field),
        object: is_object_parent(parts.schema, field),
        shape: number_of(parts, Attribute::Shape, field),
        members: members_of(parts, members, number),
    }
}

/// The fields of these numbers, as the table of pairs sees them, where `members` has the members of the own set of each field of
/// the document.
pub fn numbered_fields(
    alloc: Global,
    parts: &Parts,
    members: &[FieldSet],
    order: &[usize],
) -> Result<Vec<Field>, AllocError>
    requires there { (k a : ℕ) → slice_get order.now k ≡ Some a
        → a < length (parts_in parts.now).fields }
    requires len { length members.now
        ≡ length (parts_in parts.now).fields }
    ensures { IfOk result (λ fields.
        AreNumberedBy (parts_in parts.now) members.now order.now fields.items) }
{
    let mut fields = Vec::with_capacity(alloc, order.len())?;
    for number in order {
        fields.push(field_with_numbers(parts, members, *number))?;
    }
    Ok(fields)
}
