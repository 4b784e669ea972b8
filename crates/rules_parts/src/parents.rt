//! Parent types.
//!
//! Below a leaf, or a fragment on a scalar, no parent type is known until a type condition names one: in
//! `{user(id:1){name{...on User{nope}}}}` the field `nope` breaks *Field Selections*.

ghost use Rattle.std.specs.Prelude.{◌≡◌};
ghost use Rattle.std.specs.Option.{option_map, option_copied};
ghost use Rattle.gq_parser.specs.Tree.{condition_of, condition_if};
ghost use Rattle.schema_syntax.specs.Tree.{field_of};
ghost use Rattle.gq_schema.specs.Types.{tree_of};
ghost use Rattle.rules_parts.specs.Parents.{composite_in, known_field, inside_operation, inside_field, inside_condition, inside_inline};
ghost use Rattle.rules_parts.specs.Found.{IsTypeOf, IsFieldOf, type_named, field_found};

use gq_parser::TypeCondition;
use gq_schema::{FieldDef, FoundField, FoundType, Schema};

// The type, where it is a composite one.
fn composite(ty: FoundType<'_>) -> Option<FoundType<'_>>
    ensures schema { IsTypeOf ty.entry.schema.now result }
    ensures name { type_named result
        ≡ composite_in (tree_of ty.entry.schema.now) ty.entry.name.now }
{
    let kind = ty.kind()?;
    if kind.is_leaf() { None } else { Some(ty) }
}

/// The name of the type, where it is known.
pub fn name_of(ty: Option<FoundType<'_>>) -> Option<&str>
    ensures { option_copied result ≡ type_named ty.entry }
{
    Some(ty?.name)
}

/// The definition of a field of this name, where the parent type is known and has one.
pub fn known_field<'d>(
    schema: &'d Schema,
    parent: Option<FoundType<'d>>,
    name: &str,
) -> Option<FoundField<'d>>
    requires { IsTypeOf schema.now parent }
    ensures schema { IsFieldOf schema.now result }
    ensures definition { field_found result
        ≡ known_field (tree_of schema.now) (type_named parent.entry) name.now }
{
    parent?.field(name)
}

/// The definition, where the field is known.
pub fn definition_of<'d>(field: Option<FoundField<'d>>) -> Option<&'d FieldDef>
    ensures { option_map field_of (option_copied result) ≡ field_found field.entry }
{
    Some(field?.definition)
}

/// The type that is selected inside an operation.
pub fn inside_operation(schema: &Schema) -> Option<FoundType<'_>>
    ensures schema { IsTypeOf schema.now result }
    ensures name { type_named result
        ≡ inside_operation (tree_of schema.now) }
{
    Some(schema.root_type())
}

/// The type that is selected inside a field, where it is known.
pub fn inside_field<'d>(schema: &Schema, field: Option<FoundField<'d>>) -> Option<FoundType<'d>>
    requires { IsFieldOf schema.now field }
    ensures schema { IsTypeOf schema.now result }
    ensures name { type_named result
        ≡ inside_field (tree_of schema.now) (field_found field.entry) }
{
    composite(field?.of_type())
}

/// The type that is selected inside a fragment, where it is known.
pub fn inside_condition<'d>(
    schema: &'d Schema,
    condition: &'d TypeCondition,
) -> Option<FoundType<'d>>
    ensures schema { IsTypeOf schema.now result }
    ensures name { type_named result
        ≡ inside_condition (tree_of schema.now) (condition_of condition.now) }
{
    composite(schema.find_type(condition.name.as_str()))
}

/// The type that is selected inside an inline fragment, where it is known.
pub fn inside_inline<'d>(
    schema: &'d Schema,
    parent: Option<FoundType<'d>>,
    condition: &'d Option<TypeCondition>,
) -> Option<FoundType<'d>>
    requires { IsTypeOf schema.now parent }
    ensures schema { IsTypeOf schema.now result }
    ensures name { type_named result ≡ inside_inline (tree_of schema.now)
        (type_named parent.entry) (condition_if condition.now) }
{
    match condition {
        Some(condition) => inside_condition(schema, condition),
        None => parent,
    }
}
