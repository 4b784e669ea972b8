//! Types of variables, and the locations that they fit (section 5.8.5).

ghost use Rattle.std.specs.Prelude.{◌≡◌, option_map};
ghost use Rattle.std.specs.Option.{option_copied};
ghost use Rattle.gq_parser.specs.Tree.{type_of, literal_of, variable_of};
ghost use Rattle.rules_parts.specs.Parts.{location_of};
ghost use Rattle.rules_typed.specs.CompatibleTypes.{are_compatible, nullable, is_non_null_default, is_allowed};

use gq_parser::{Literal, TypeRef, Value, VariableDefinition};
use rules_parts::Location;

/// Tells whether a variable's type fits a location's.
pub fn are_compatible(variable: &TypeRef, location: &TypeRef) -> bool
    ensures { result ≡ are_compatible
        (type_of variable.now) (type_of location.now) }
{
    match (variable, location) {
        (
            TypeRef::Named { name, non_null, .. },
            TypeRef::Named {
                name: wanted_name,
                non_null: wanted_non_null,
                ..
            },
        ) => (*non_null || !*wanted_non_null) && name.as_str() == wanted_name.as_str(),
        (
            TypeRef::List { item, non_null, .. },
            TypeRef::List {
                item: wanted_item,
                non_null: wanted_non_null,
                ..
            },
        ) => (*non_null || !*wanted_non_null) && are_compatible(item, wanted_item),
        _ => false,
    }
}

// Tells whether a variable's type fits a location's without the `!` at its end.
fn is_compatible_with_nullable(variable: &TypeRef, location: &TypeRef) -> bool
    ensures { result ≡ are_compatible (type_of variable.now)
        (nullable (type_of location.now)) }
{
    match (variable, location) {
        (
            TypeRef::Named { name, .. },
            TypeRef::Named {
                name: wanted_name,
                ..
            },
        ) => name.as_str() == wanted_name.as_str(),
        (
            TypeRef::List { item, .. },
            TypeRef::List {
                item: wanted_item,
                ..
            },
        ) => are_compatible(item, wanted_item),
        _ => false,
    }
}

// Tells whether there is a default, other than `null`.
fn is_non_null_default(default: Option<&Literal>) -> bool
    ensures { result ≡ is_non_null_default (option_map literal_of (option_copied default.entry)) }
{
    match default {
        Some(literal) => !matches!(literal.value, Value::Null),
        None => false,
    }
}

/// Tells whether a variable may stand at a location.
pub fn is_allowed(variable: &VariableDefinition, location: Location) -> bool
    ensures { result ≡ is_allowed (variable_of variable.now)
        (location_of location.entry) }
{
    let of_type = &variable.of_type;
    if location.of_type.is_non_null() && !of_type.is_non_null() {
        (location.has_default || is_non_null_default(variable.default.as_ref()))
            && is_compatible_with_nullable(of_type, location.of_type)
    } else {
        are_compatible(of_type, location.of_type)
    }
}
