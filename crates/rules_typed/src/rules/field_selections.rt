//! Field Selections (section 5.3.1).

ghost use Rattle.std.specs.Prelude.{◌≡◌};
ghost use Rattle.std.specs.Option.{option_map};
ghost use Rattle.rules_parts.specs.Broken.{broken_of, earliest};
ghost use Rattle.rules_parts.specs.Parts.{field_part_of, parts_in};
ghost use Rattle.rules_typed.specs.DefaultWords.{is_type_name};
ghost use Rattle.rules_typed.specs.FieldSelections.{unknown_field, field_selections};

use rules_parts::{EarliestViolation, FieldPart, Parts, Violation};

/// Tells whether it is `__typename` of a composite type, which each has (section 4.1).
pub fn is_type_name(part: &FieldPart) -> bool
    ensures { result ≡ is_type_name
        (field_part_of part.now) }
{
    part.parent.is_some() && part.field.name.as_str() == "__typename"
}

fn unknown_field<'d>(part: &FieldPart<'d>) -> Option<Violation<'d>>
    ensures { option_map broken_of result
        ≡ unknown_field (field_part_of part.now) }
{
    if part.parent.is_none() || part.definition.is_some() || is_type_name(part) {
        return None;
    }
    Some(Violation::of_name(part.field.name.as_str(), part.field.place))
}

/// The earliest field that its parent type doesn't have, at its own place. `__typename` is in every composite type, and a
/// union has no other (section 5.3.1).
///
/// # Examples
///
/// | `{user(id:1){age}}` | `5.3.1 Field Selections: age` | 13, the field | Select a field of the type. Of a union select `__typename`, and fields
/// inside fragments on its members. |
#[tactic(auto, using(crate::proofs::Keeping::keep_next))]
pub fn field_selections<'d>(parts: &Parts<'d>) -> Option<Violation<'d>>
    ensures { option_map broken_of result
        ≡ earliest (field_selections (parts_in parts.now)) }
{
    let mut earliest = EarliestViolation::new();
    for part in &parts.fields {
        earliest.add_if(unknown_field(part));
    }
    earliest.found
}
