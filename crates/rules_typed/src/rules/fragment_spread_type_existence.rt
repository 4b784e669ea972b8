//! Fragment Spread Type Existence (section 5.5.1.2).

ghost use Rattle.std.specs.Prelude.{◌≡◌};
ghost use Rattle.std.specs.Option.{option_map};
ghost use Rattle.gq_parser.specs.Tree.{condition_of};
ghost use Rattle.gq_schema.specs.Types.{tree_of};
ghost use Rattle.rules_parts.specs.Broken.{broken_of, earliest};
ghost use Rattle.rules_parts.specs.Parts.{parts_in};
ghost use Rattle.rules_typed.specs.FragmentSpreadTypeExistence.{unknown_type, fragment_spread_type_existence};

use gq_parser::TypeCondition;
use gq_schema::Schema;
use rules_parts::{EarliestViolation, Parts, Violation};

fn unknown_type<'d>(schema: &Schema, condition: &'d TypeCondition) -> Option<Violation<'d>>
    ensures { option_map broken_of result
        ≡ unknown_type (tree_of schema.now) (condition_of condition.now) }
{
    if schema.kind_of(condition.name.as_str()).is_some() {
        return None;
    }
    Some(Violation::of_name(condition.name.as_str(), condition.place))
}

/// The earliest type condition, of a fragment or an inline fragment, that names no type, at that name (section 5.5.1.2).
///
/// # Examples
///
/// | `{users{...on Cat{name}}}` | `5.5.1.2 Fragment Spread Type Existence: Cat` | 14, the type's name | Name a type of the schema. |
#[tactic(auto, using(crate::proofs::Keeping::keep_next))]
pub fn fragment_spread_type_existence<'d>(parts: &Parts<'d>) -> Option<Violation<'d>>
    ensures { option_map broken_of result
        ≡ earliest (fragment_spread_type_existence (parts_in parts.now)) }
{
    let mut earliest = EarliestViolation::new();
    for fragment in &parts.document.fragments {
        earliest.add_if(unknown_type(parts.schema, &fragment.condition));
    }
    for part in &parts.inlines {
        if let Some(condition) = &part.inline.condition {
            earliest.add_if(unknown_type(parts.schema, condition));
        }
    }
    earliest.found
}
