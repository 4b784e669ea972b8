//! Types of fields and arguments that a binding fits.

ghost use Rattle.std.specs.Prelude.{◌≡◌};
ghost use Rattle.std.specs.Option.{option_map, option_copied};
ghost use Rattle.gq_parser.specs.Tree.{type_of};
ghost use Rattle.schema_syntax.specs.Tree.{argument_of, field_of};
ghost use Rattle.gq_schema.specs.Types.{tree_of};
ghost use Rattle.gq_schema.specs.Implements.{argument_in};
ghost use Rattle.gq_bindings.specs.Types.{is_object_type, is_root_type, is_leaf_type, is_composite_type, is_composite_list, is_key_type, is_key_list, takes};

use gq_parser::TypeRef;
use gq_schema::{Schema, TypeKind};
use schema_syntax::{ArgumentDefinition, FieldDefinition};

/// Tells whether it is an object type.
pub fn is_object_type(schema: &Schema, name: &str) -> bool
    ensures { result ≡ is_object_type
        (tree_of schema.now) name.now }
{
    matches!(schema.kind_of(name), Some(TypeKind::Object))
}

/// Tells whether queries begin at the type.
pub fn is_root_type(schema: &Schema, name: &str) -> bool
    ensures { result ≡ is_root_type
        (tree_of schema.now) name.now }
{
    name == schema.root()
}

/// Tells whether the type is a scalar or an enum, and no list.
pub fn is_leaf_type(schema: &Schema, of_type: &TypeRef) -> bool
    ensures { result ≡ is_leaf_type
        (tree_of schema.now) (type_of of_type.now) }
{
    match of_type {
        TypeRef::Named { name, .. } => match schema.kind_of(name) {
            Some(kind) => kind.is_leaf(),
            None => false,
        },
        TypeRef::List { .. } => false,
    }
}

/// Tells whether the type is an object type, an interface or a union, and no list.
pub fn is_composite_type(schema: &Schema, of_type: &TypeRef) -> bool
    ensures { result ≡ is_composite_type
        (tree_of schema.now) (type_of of_type.now) }
{
    match of_type {
        TypeRef::Named { name, .. } => match schema.kind_of(name) {
            Some(kind) => !kind.is_leaf(),
            None => false,
        },
        TypeRef::List { .. } => false,
    }
}

/// Tells whether the type is a list of composites.
pub fn is_composite_list(schema: &Schema, of_type: &TypeRef) -> bool
    ensures { result ≡ is_composite_list
        (tree_of schema.now) (type_of of_type.now) }
{
    match of_type {
        TypeRef::Named { .. } => false,
        TypeRef::List { item, .. } => is_composite_type(schema, item),
    }
}

/// Tells whether the type is Int, ID or String.
fn is_key_type(of_type: &TypeRef) -> bool
    ensures { result ≡ is_key_type (type_of of_type.now) }
{
    match of_type {
        TypeRef::Named { name, .. } => matches!(name.as_str(), "Int" | "ID" | "String"),
        TypeRef::List { .. } => false,
    }
}

/// Tells whether the type is a list of Int, ID or String.
fn is_key_list(of_type: &TypeRef) -> bool
    ensures { result ≡ is_key_list (type_of of_type.now) }
{
    match of_type {
        TypeRef::Named { .. } => false,
        TypeRef::List { item, .. } => is_key_type(item),
    }
}

/// The argument of a field of this name.
fn argument<'a>(field: &'a FieldDefinition, name: &str) -> Option<&'a ArgumentDefinition>
    ensures { option_map argument_of (option_copied result)
        ≡ argument_in (field_of field.now).arguments name.now }
{
    for argument in &field.arguments {
        if argument.name.text.as_str() == name {
            return Some(argument);
        }
    }
    None
}

/// Tells whether the field has an argument of this name that is an Int, an ID or a String.
pub fn takes_key(field: &FieldDefinition, name: &str) -> bool
    ensures { result ≡ takes is_key_type
        (field_of field.now) name.now }
{
    match argument(field, name) {
        Some(argument) => is_key_type(&argument.of_type),
        None => false,
    }
}

/// Tells whether the field has an argument of this name that is a list of these.
pub fn takes_keys(field: &FieldDefinition, name: &str) -> bool
    ensures { result ≡ takes is_key_list
        (field_of field.now) name.now }
{
    match argument(field, name) {
        Some(argument) => is_key_list(&argument.of_type),
        None => false,
    }
}
