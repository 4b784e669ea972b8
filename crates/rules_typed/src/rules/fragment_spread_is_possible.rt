//! Fragment Spread Is Possible (section 5.5.2.3).

ghost use Rattle.std.specs.Prelude.{◌≡◌, map, string_bytes};
ghost use Rattle.std.specs.List.{list_any};
ghost use Rattle.std.specs.Option.{option_map, option_copied};
ghost use Rattle.gq_schema.specs.Types.{tree_of, can_be};
ghost use Rattle.rules_parts.specs.Broken.{broken_of, earliest};
ghost use Rattle.rules_parts.specs.Parents.{composite_in};
ghost use Rattle.rules_parts.specs.Parts.{spread_part_of, inline_part_of, parts_in};
ghost use Rattle.rules_typed.specs.FragmentSpreadIsPossible.{may_overlap, is_impossible, fragment_type, impossible_spread, impossible_inline, fragment_spread_is_possible};

use gq_schema::Schema;
use rules_parts::{EarliestViolation, InlinePart, Parts, SpreadPart, Violation};

// Tells whether one of these object types is a possible type of a type.
fn can_be_any(schema: &Schema, ty: &str, names: &[String]) -> bool
    ensures { result ≡ list_any (can_be (tree_of schema.now) ty.now) (map string_bytes names.now) }
{
    names.iter().any(|name| schema.can_be(ty, name.as_str()))
}

/// Tells whether an object type is a possible type of both.
pub fn may_overlap(schema: &Schema, one: &str, other: &str) -> bool
    ensures { result ≡ may_overlap
        (tree_of schema.now) one.now other.now }
{
    match schema.possible_types(one) {
        Some(names) => can_be_any(schema, other, names),
        None => false,
    }
}

fn is_impossible(schema: &Schema, parent: Option<&str>, fragment_type: Option<&str>) -> bool
    ensures { result ≡ is_impossible (tree_of schema.now)
        (option_copied parent.entry) (option_copied fragment_type.entry) }
{
    match (parent, fragment_type) {
        (Some(parent), Some(fragment_type)) => !may_overlap(schema, parent, fragment_type),
        _ => false,
    }
}

// The name, where it is that of a composite type.
fn composite<'d>(schema: &Schema, name: &'d str) -> Option<&'d str>
    ensures { option_copied result
        ≡ composite_in (tree_of schema.now) name.now }
{
    let kind = schema.kind_of(name)?;
    if kind.is_leaf() { None } else { Some(name) }
}

// The composite type that the fragment of a number is for.
fn fragment_type<'d>(parts: &Parts<'d>, fragment: usize) -> Option<&'d str>
    ensures { option_copied result
        ≡ fragment_type (parts_in parts.now) fragment }
{
    let fragment = parts.document.fragments.get(fragment)?;
    composite(parts.schema, fragment.condition.name.as_str())
}

fn impossible_spread<'d>(parts: &Parts<'d>, part: &SpreadPart<'d>) -> Option<Violation<'d>>
    ensures { option_map broken_of result
        ≡ impossible_spread (parts_in parts.now) (spread_part_of part.now) }
{
    let fragment_type = fragment_type(parts, part.target?);
    if !is_impossible(parts.schema, part.parent, fragment_type) {
        return None;
    }
    Some(Violation::of_name(part.spread.name.as_str(), part.spread.place))
}

fn impossible_inline<'d>(schema: &Schema, part: &InlinePart<'d>) -> Option<Violation<'d>>
    ensures { option_map broken_of result
        ≡ impossible_inline (tree_of schema.now) (inline_part_of part.now) }
{
    let condition = part.inline.condition.as_ref()?;
    let fragment_type = composite(schema, condition.name.as_str());
    if !is_impossible(schema, part.parent, fragment_type) {
        return None;
    }
    Some(Violation::of_name(condition.name.as_str(), part.inline.place))
}

/// The earliest spread, or inline fragment with a type condition, whose type shares no possible object type with the type
/// that it stands in, at its `...` (section 5.5.2.3). A type without any possible object type shares none with itself.
///
/// So inside an interface that nothing implements, an inline fragment that repeats its name breaks the rule,
/// and one without a type condition doesn't.
///
/// # Examples
///
/// | `{users{...on Bot{model}}}` | `5.5.2.3 Fragment Spread Is Possible: Bot` | 8, the `...` | Spread a fragment whose type has an object type in
/// common with the type that it stands in. |
#[tactic(auto, using(crate::proofs::Keeping::keep_next, crate::proofs::Keeping::keep_before))]
pub fn fragment_spread_is_possible<'d>(parts: &Parts<'d>) -> Option<Violation<'d>>
    ensures { option_map broken_of result
        ≡ earliest (fragment_spread_is_possible (parts_in parts.now)) }
{
    let mut earliest = EarliestViolation::new();
    for part in &parts.spreads {
        earliest.add_if(impossible_spread(parts, part));
    }
    for part in &parts.inlines {
        earliest.add_if(impossible_inline(parts.schema, part));
    }
    earliest.found
}
