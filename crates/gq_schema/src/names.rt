//! The names that definitions give.

ghost use Rattle.std.specs.Prelude.{◌≡◌, string_bytes};
ghost use Rattle.std.specs.Option.{option_map, option_copied};
ghost use Rattle.schema_syntax.specs.Tree.{name_of, fields_of, definition_of};
ghost use Rattle.gq_schema.specs.Types.{type_name, is_built_in, kind_of, own_fields};

use crate::kind::TypeKind;
use schema_syntax::{Definition, FieldDefinition, Name};

/// Tells whether it is one of the scalars that each schema has (section 3.5).
pub fn is_built_in(name: &str) -> bool
    ensures { result ≡ is_built_in name.now }
{
    matches!(name, "Int" | "String" | "Boolean" | "ID")
}

/// The name of the type that is defined.
pub fn type_name(definition: &Definition) -> Option<&Name>
    ensures { option_map name_of (option_copied result)
        ≡ type_name (definition_of definition.now) }
{
    match definition {
        Definition::Schema(_) => None,
        Definition::Object(object) => Some(&object.name),
        Definition::Interface(interface) => Some(&interface.name),
        Definition::Union(union) => Some(&union.name),
        Definition::Enum(values) => Some(&values.name),
    }
}

/// The kind of the type that is defined.
pub fn kind_of(definition: &Definition) -> Option<TypeKind>
    ensures { result ≡ kind_of
        (definition_of definition.now) }
{
    match definition {
        Definition::Schema(_) => None,
        Definition::Object(_) => Some(TypeKind::Object),
        Definition::Interface(_) => Some(TypeKind::Interface),
        Definition::Union(_) => Some(TypeKind::Union),
        Definition::Enum(_) => Some(TypeKind::Enum),
    }
}

/// The fields of an object type or of an interface.
pub fn own_fields(definition: &Definition) -> &[FieldDefinition]
    ensures { fields_of result.now
        ≡ own_fields (definition_of definition.now) }
{
    match definition {
        Definition::Object(object) => &object.fields,
        Definition::Interface(interface) => &interface.fields,
        Definition::Schema(_) => &[],
        Definition::Union(_) => &[],
        Definition::Enum(_) => &[],
    }
}
