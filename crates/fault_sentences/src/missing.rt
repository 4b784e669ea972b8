//! What bindings lack in which no line is bad.
ghost use Rattle.std.specs.Prelude.{◌≡◌, find, option_map};
ghost use Rattle.std.specs.Option.{option_copied};
ghost use Rattle.bindings_syntax.specs.Seen.{text_seen};
ghost use Rattle.gq_parser.specs.Tree.{type_of};
ghost use Rattle.gq_schema.specs.Types.{tree_of};
ghost use Rattle.schema_syntax.specs.Tree.{field_of, fields_of};
ghost use Rattle.fault_sentences.specs.Complaints.{IsTrueOfNoLine, is_leaf_type, lacks_line, needs_line};

use crate::bindings::BindingsComplaint;
use crate::looked_up::has_field;
use bindings_syntax::BindingsText;
use gq_parser::TypeRef;
use gq_schema::{FieldDef, Schema};
use schema_syntax::Definition;

// Tells whether a type is a scalar or an enum, and no list.
fn is_leaf_type(schema: &Schema, of_type: &TypeRef) -> bool
    ensures { result ≡ is_leaf_type
        (tree_of schema.now) (type_of of_type.now) }
{
    match of_type {
        TypeRef::List { .. } => false,
        TypeRef::Named { name, .. } => match schema.kind_of(name.as_str()) {
            Some(kind) => kind.is_leaf(),
            None => false,
        },
    }
}

// Tells whether a field of a type needs a line: one of the root, a list, or one that is no scalar and no enum.
fn needs_line(schema: &Schema, of_type: &str, field: &FieldDef) -> bool
    ensures { result ≡ needs_line
        (tree_of schema.now) of_type.now (field_of field.now) }
{
    of_type == schema.root() || !is_leaf_type(schema, &field.of_type)
}

// Tells whether a field of a type needs a line and has none.
fn lacks_line(schema: &Schema, text: &BindingsText<'_>, of_type: &str, field: &FieldDef) -> bool
    ensures { result ≡ lacks_line (tree_of schema.now) (text_seen text.now)
        of_type.now (field_of field.now) }
{
    needs_line(schema, of_type, field)
        && !has_field(
            &text.statements,
            u64::MAX,
            of_type,
            field.name.text.as_str(),
        )
}

// The first field of a type that lacks a line.
fn unbound_field<'l>(
    schema: &Schema,
    text: &BindingsText<'_>,
    of_type: &str,
    fields: &'l [FieldDef],
) -> Option<&'l FieldDef>
    ensures { option_map field_of (option_copied result) ≡ find
        (lacks_line (tree_of schema.now) (text_seen text.now) of_type.now) (fields_of fields.now) }
{
    for field in fields {
        if lacks_line(schema, text, of_type, field) {
            return Some(field);
        }
    }
    None
}

/// What bindings lack.
pub(crate) fn missing_line<'l>(schema: &'l Schema, text: &BindingsText<'_>) -> BindingsComplaint<'l>
    ensures { IsTrueOfNoLine (tree_of schema.now) (text_seen text.now) result }
{
    if !text.is_headed {
        return BindingsComplaint::NoVersion;
    }
    for indexed in schema.definitions() {
        if let Definition::Object(object) = &indexed.definition {
            let of_type = object.name.text.as_str();
            if let Some(field) = unbound_field(schema, text, of_type, &object.fields) {
                return BindingsComplaint::Unbound(of_type, field.name.text.as_str());
            }
        }
    }
    BindingsComplaint::Refused
}
