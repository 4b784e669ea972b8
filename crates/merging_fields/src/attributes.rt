//! Attributes that the rule compares of two fields.

ghost use Rattle.std.specs.Prelude.{◌≡◌, true, codes};
ghost use Rattle.text_place.specs.declared.place.Place.{Place};
ghost use Rattle.gq_parser.specs.Tree.{Named, type_of};
ghost use Rattle.gq_schema.specs.Types.{tree_of};
ghost use Rattle.rules_parts.specs.Parts.{field_part_of, parts_in};
ghost use Rattle.merging_fields.specs.Attributes.{are_same, number_of};
ghost use Rattle.merging_fields.specs.Compare.{is_composite, same_shape, return_type, response_key, have_one_key, are_alike, same_parent, is_object_parent, do_agree};

use gq_parser::TypeRef;
use gq_schema::{Schema, TypeKind};
use merging_arguments::are_same_arguments;
use rules_parts::{FieldPart, Parts};

/// Attribute of fields that is compared.
#[derive(Clone, Copy)]
pub enum Attribute {
    /// The response key.
    Key,
    /// The name with the arguments.
    Selected,
    /// The parent type.
    Parent,
    /// The return type, where only the names of composite types are overlooked.
    Shape,
}

/// The alias, or the name where there is none (section 2.7).
pub fn response_key<'d>(field: &FieldPart<'d>) -> &'d str
    ensures { result.now
        ≡ response_key (field_part_of field.now) }
{
    match &field.field.alias {
        Some(alias) => alias.as_str(),
        None => field.field.name.as_str(),
    }
}

/// Tells whether two fields have one response key.
pub fn have_one_key(one: &FieldPart, other: &FieldPart) -> bool
    ensures { result ≡ have_one_key
        (field_part_of one.now) (field_part_of other.now) }
{
    response_key(one) == response_key(other)
}

/// Tells whether two fields have one name with equal arguments.
pub fn do_agree(one: &FieldPart, other: &FieldPart) -> bool
    ensures { result ≡ do_agree (field_part_of one.now)
        (field_part_of other.now) }
{
    one.field.name.as_str() == other.field.name.as_str()
        && are_same_arguments(&one.field.arguments, &other.field.arguments)
}

fn have_same_parent(one: &FieldPart, other: &FieldPart) -> bool
    ensures { result ≡ same_parent (field_part_of one.now).parent (field_part_of other.now).parent }
{
    match one.parent {
        Some(parent) => match other.parent {
            Some(other) => parent == other,
            None => false,
        },
        None => other.parent.is_none(),
    }
}

/// Tells whether the parent type is an object type.
pub fn is_object_parent(schema: &Schema, field: &FieldPart) -> bool
    ensures { result ≡ is_object_parent
        (tree_of schema.now) (field_part_of field.now) }
{
    match field.parent {
        Some(parent) => matches!(schema.kind_of(parent), Some(TypeKind::Object)),
        None => false,
    }
}

fn is_composite(schema: &Schema, name: &str) -> bool
    ensures { result ≡ is_composite
        (tree_of schema.now) name.now }
{
    match schema.kind_of(name) {
        Some(kind) => !kind.is_leaf(),
        None => false,
    }
}

fn is_same_shape(schema: &Schema, one: &TypeRef, other: &TypeRef) -> bool
    ensures { result ≡ same_shape (tree_of schema.now)
        (type_of one.now) (type_of other.now) }
{
    match one {
        TypeRef::Named { name, non_null, .. } => match other {
            TypeRef::Named {
                name: other_name,
                non_null: other_non_null,
                ..
            } => {
                *non_null == *other_non_null
                    && (name.as_str() == other_name.as_str()
                        || (is_composite(schema, name) && is_composite(schema, other_name)))
            }
            TypeRef::List { .. } => false,
        },
        TypeRef::List { item, non_null, .. } => match other {
            TypeRef::List {
                item: other_item,
                non_null: other_non_null,
                ..
            } => *non_null == *other_non_null && is_same_shape(schema, item, other_item),
            TypeRef::Named { .. } => false,
        },
    }
}

// Tells whether a type has the shape of `String!`.
fn is_like_type_name(schema: &Schema, of_type: &TypeRef) -> bool
    ensures { (p : Place) → result
        ≡ same_shape (tree_of schema.now) (type_of of_type.now) (Named p (codes "String") true) }
{
    match of_type {
        TypeRef::Named { name, non_null, .. } => {
            *non_null == true
                && (name.as_str() == "String"
                    || (is_composite(schema, name) && is_composite(schema, "String")))
        }
        TypeRef::List { .. } => false,
    }
}

// Tells whether `String!` has the shape of a type.
fn type_name_is_like(schema: &Schema, of_type: &TypeRef) -> bool
    ensures { (p : Place) → result
        ≡ same_shape (tree_of schema.now) (Named p (codes "String") true) (type_of of_type.now) }
{
    match of_type {
        TypeRef::Named { name, non_null, .. } => {
            *non_null
                && ("String" == name.as_str()
                    || (is_composite(schema, "String") && is_composite(schema, name)))
        }
        TypeRef::List { .. } => false,
    }
}

/// Tells whether the return types are the same, where only the names of composite types are overlooked. `__typename` has no
/// definition and is a `String!` (section 4.4).
pub fn are_alike(schema: &Schema, one: &FieldPart, other: &FieldPart) -> bool
    ensures { result
        ≡ are_alike (tree_of schema.now) (field_part_of one.now) (field_part_of other.now) }
{
    match one.definition {
        Some(one) => match other.definition {
            Some(other) => is_same_shape(schema, &one.of_type, &other.of_type),
            None => is_like_type_name(schema, &one.of_type),
        },
        None => match other.definition {
            Some(other) => type_name_is_like(schema, &other.of_type),
            None => true,
        },
    }
}

// Tells whether two fields have the same attribute.
fn are_same(schema: &Schema, attribute: Attribute, one: &FieldPart, other: &FieldPart) -> bool
    ensures { result ≡ are_same attribute (tree_of schema.now)
        (field_part_of one.now) (field_part_of other.now) }
{
    match attribute {
        Attribute::Key => have_one_key(one, other),
        Attribute::Selected => do_agree(one, other),
        Attribute::Parent => have_same_parent(one, other),
        Attribute::Shape => are_alike(schema, one, other),
    }
}

/// The number of the first field that has the same attribute.
pub fn number_of(parts: &Parts, attribute: Attribute, field: &FieldPart) -> usize
    ensures { result ≡ number_of attribute (parts_in parts.now).definitions
        (parts_in parts.now).fields (field_part_of field.now) }
{
    let is_same = |other| are_same(parts.schema, attribute, field, other);
    parts.fields.iter().position(is_same).unwrap_or(0)
}
