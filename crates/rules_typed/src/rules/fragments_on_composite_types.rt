//! Fragments On Composite Types (section 5.5.1.3).

ghost use Rattle.std.specs.Prelude.{◌≡◌};
ghost use Rattle.std.specs.Option.{option_map};
ghost use Rattle.gq_parser.specs.Tree.{condition_of};
ghost use Rattle.gq_schema.specs.Types.{tree_of};
ghost use Rattle.rules_parts.specs.Broken.{broken_of, earliest};
ghost use Rattle.rules_parts.specs.Parts.{parts_in};
ghost use Rattle.rules_typed.specs.FragmentsOnCompositeTypes.{leaf_type, fragments_on_composite_types};

use gq_parser::TypeCondition;
use gq_schema::Schema;
use rules_parts::{EarliestViolation, Parts, Violation};

fn leaf_type<'d>(schema: &Schema, condition: &'d TypeCondition) -> Option<Violation<'d>>
    ensures { option_map broken_of result
        ≡ leaf_type (tree_of schema.now) (condition_of condition.now) }
{
    if !schema.kind_of(condition.name.as_str())?.is_leaf() {
        return None;
    }
    Some(Violation::of_name(condition.name.as_str(), condition.place))
}

/// The earliest type condition, of a fragment or an inline fragment, that names a scalar or an enum, at that name
/// (section 5.5.1.3).
///
/// # Examples
///
/// | `{users{...on Int{name}}}` | `5.5.1.3 Fragments On Composite Types: Int` | 14, the type's name | Name an object type, an interface or a union. |
#[tactic(auto, using(crate::proofs::Keeping::keep_next))]
pub fn fragments_on_composite_types<'d>(parts: &Parts<'d>) -> Option<Violation<'d>>
    ensures { option_map broken_of result
        ≡ earliest (fragments_on_composite_types (parts_in parts.now)) }
{
    let mut earliest = EarliestViolation::new();
    for fragment in &parts.document.fragments {
        earliest.add_if(leaf_type(parts.schema, &fragment.condition));
    }
    for part in &parts.inlines {
        if let Some(condition) = &part.inline.condition {
            earliest.add_if(leaf_type(parts.schema, condition));
        }
    }
    earliest.found
}
