//! Leaf Field Selections (section 5.3.3).

ghost use Rattle.std.specs.Prelude.{◌≡◌};
ghost use Rattle.std.specs.Option.{option_map};
ghost use Rattle.gq_schema.specs.Types.{tree_of};
ghost use Rattle.rules_parts.specs.Parents.{inside_field};
ghost use Rattle.rules_parts.specs.Broken.{broken_of, earliest};
ghost use Rattle.rules_parts.specs.Parts.{field_part_of, parts_in};
ghost use Rattle.rules_typed.specs.LeafFieldSelections.{kind_of_field, misfit_field, leaf_field_selections};

use crate::rules::field_selections::is_type_name;
use gq_schema::{Schema, TypeKind};
use rules_parts::{EarliestViolation, FieldPart, Parts, Violation};

// Returns what a field's type is, without lists and `!`.
fn kind_of_field(schema: &Schema, part: &FieldPart) -> Option<TypeKind>
    ensures { result ≡ kind_of_field
        (tree_of schema.now) (field_part_of part.now) }
{
    if is_type_name(part) {
        return Some(TypeKind::Scalar);
    }
    match part.definition {
        Some(definition) => schema.kind_of(definition.of_type.innermost_name()),
        None => None,
    }
}

// What is inside a field is known only where its type is composite: then a set fits, and the type isn't looked up.
fn misfit_field<'d>(schema: &Schema, part: &FieldPart<'d>) -> Option<Violation<'d>>
    requires { (field_part_of part.now).inside
        ≡ inside_field (tree_of schema.now) (field_part_of part.now).definition }
    ensures { option_map broken_of result
        ≡ misfit_field (tree_of schema.now) (field_part_of part.now) }
{
    if part.inside.is_some() && part.field.selection_set.is_some() && !is_type_name(part) {
        return None;
    }
    let kind = kind_of_field(schema, part)?;
    if kind.is_leaf() == part.field.selection_set.is_none() {
        return None;
    }
    Some(Violation::of_name(part.field.name.as_str(), part.field.place))
}

/// The earliest leaf with a selection set, or composite field without, at its own place (section 5.3.3).
///
/// # Examples
///
/// | `{users}` | `5.3.3 Leaf Field Selections: users` | 2, the field | Select fields of a composite type, and none of a scalar or enum. |
#[tactic(auto, using(crate::proofs::Keeping::keep_next))]
pub fn leaf_field_selections<'d>(parts: &Parts<'d>) -> Option<Violation<'d>>
    ensures { option_map broken_of result ≡ earliest
        (leaf_field_selections (parts_in parts.now)) }
{
    let mut earliest = EarliestViolation::new();
    for part in &parts.fields {
        earliest.add_if(misfit_field(parts.schema, part));
    }
    earliest.found
}
