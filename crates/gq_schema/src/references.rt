//! When two references to types say the same.

ghost use Rattle.std.specs.Prelude.{◌≡◌};
ghost use Rattle.gq_parser.specs.Tree.{type_of};
ghost use Rattle.gq_schema.specs.Types.{is_same_type};

use gq_parser::TypeRef;

/// Tells whether both are the same type.
pub fn is_same_type(one: &TypeRef, other: &TypeRef) -> bool
    ensures { result ≡ is_same_type
        (type_of one.now) (type_of other.now) }
{
    match (one, other) {
        (
            TypeRef::Named { name, non_null, .. },
            TypeRef::Named {
                name: other_name,
                non_null: other_non_null,
                ..
            },
        ) => non_null == other_non_null && name.as_str() == other_name.as_str(),
        (
            TypeRef::List { item, non_null, .. },
            TypeRef::List {
                item: other_item,
                non_null: other_non_null,
                ..
            },
        ) => non_null == other_non_null && is_same_type(item, other_item),
        _ => false,
    }
}
