//! Cells of a row, and what they say.

ghost use Rattle.std.specs.Prelude.{◌≡◌, IfOk, option_map};
ghost use Rattle.std.specs.Str.{all_ascii_digits};
ghost use Rattle.gq_schema.specs.Types.{tree_of, has_value};
ghost use Rattle.gq_bindings.specs.Types.{is_object_type};
ghost use Rattle.gq_schema.specs.Coercion.{int_of};
ghost use Rattle.load_memory.specs.Rows.{cell_of};
ghost use Rattle.plan_program.specs.Texts.{is_int_text, is_unsigned_text};
ghost use Rattle.plan_program.specs.PlanPrograms.{boolean_of, int_leaf, text_if, type_of_row};
ghost use Rattle.plan_program.specs.Prepared.{leaf_value_seen};
ghost use Rattle.plan_walk.specs.Cells.{value_seen, type_seen};
ghost use Rattle.plan_walk.specs.LeafTypes.{leaf_at, cell_at};

use crate::leaf_type::LeafType;
use gq_schema::{Schema, TypeKind};
use load_memory::{Cell, Row};
use plan_program::{
    LeafValue, bad_value_message, no_column_message, no_type_message, not_type_message,
};
use std::alloc::{AllocError, Global};

/// Says what a text is at a leaf's type, with no copy of it.
#[derive(Clone, Copy, Drop)]
pub enum CellValue<'t> {
    /// A text, an ID, or the name of an enum's value.
    Text(&'t str),
    Int(i32),
    Bool(bool),
}

fn all_digits(text: &[u8]) -> bool
    ensures { result ≡ all_ascii_digits text.now }
{
    for byte in text {
        if !byte.is_ascii_digit() {
            return false;
        }
    }
    true
}

// `0`, or digits of which the first isn't 0.
fn is_unsigned_text(text: &[u8]) -> bool
    ensures { result ≡ is_unsigned_text text.now }
{
    match text {
        [] => false,
        [first, rest @ ..] => {
            (b'1' <= *first && *first <= b'9' && all_digits(rest)) || text == b"0".as_slice()
        }
    }
}

// The text of an Int (section 2.9.1).
fn is_int_text(text: &[u8]) -> bool
    ensures { result ≡ is_int_text text.now }
{
    match text {
        [b'-', rest @ ..] => is_unsigned_text(rest),
        _ => is_unsigned_text(text),
    }
}

// The number that the text of an Int writes, where it lies within signed 32 bits.
fn int_of(text: &str) -> Option<i32>
    ensures { result ≡ int_of text.now }
{
    text.parse::<i32>().ok()
}

fn int_leaf<'t>(text: &str) -> Option<CellValue<'t>>
    ensures { option_map value_seen result
        ≡ int_leaf text.now }
{
    if !is_int_text(text.as_bytes()) {
        return None;
    }
    Some(CellValue::Int(int_of(text)?))
}

fn boolean_leaf<'t>(text: &str) -> Option<CellValue<'t>>
    ensures { option_map value_seen result
        ≡ boolean_of text.now }
{
    if text == "true" {
        return Some(CellValue::Bool(true));
    }
    if text == "false" {
        return Some(CellValue::Bool(false));
    }
    None
}

// Returns what a text is at the type of this name, if it is one of its values.
fn enum_leaf<'t>(schema: &Schema, name: &str, text: &'t str) -> Option<CellValue<'t>>
    ensures { option_map value_seen result
        ≡ text_if (has_value (tree_of schema.now) name.now text.now) text.now }
{
    if schema.has_value(name, text) {
        return Some(CellValue::Text(text));
    }
    None
}

/// Returns what a text is at a type, if it is right there (section 3.5, Result Coercion).
pub fn leaf_of<'t>(schema: &Schema, ty: &LeafType, text: &'t str) -> Option<CellValue<'t>>
    ensures { option_map value_seen result
        ≡ leaf_at (tree_of schema.now) ty.now text.now }
{
    match ty {
        LeafType::Int => int_leaf(text),
        LeafType::Boolean => boolean_leaf(text),
        LeafType::Text => Some(CellValue::Text(text)),
        LeafType::Named(name) => enum_leaf(schema, name.as_str(), text),
        LeafType::List => None,
    }
}

/// The own value of a field that is bound to a column (section 6.4.3, CompleteValue of a leaf).
pub fn cell_value(
    alloc: Global,
    schema: &Schema,
    column: &str,
    ty: &LeafType,
    row: &Row,
) -> Result<LeafValue, AllocError>
    ensures { IfOk result (λ leaf_value. leaf_value_seen leaf_value ≡ cell_at
        (tree_of schema.now) column.now ty.now (cell_of row.now column.now)) }
{
    match row.get(column) {
        Cell::NoColumn => Ok(LeafValue::Fault(no_column_message(alloc, column)?)),
        Cell::Null => Ok(LeafValue::Null),
        Cell::Text(text) => match leaf_of(schema, ty, text) {
            Some(CellValue::Text(text)) => Ok(LeafValue::Text(String::from_str(alloc, text)?)),
            Some(CellValue::Int(number)) => Ok(LeafValue::Int(number)),
            Some(CellValue::Bool(value)) => Ok(LeafValue::Bool(value)),
            None => Ok(LeafValue::Fault(bad_value_message(alloc, column)?)),
        },
    }
}

/// The object type of a row, or why it has none.
pub enum TypeOf<'a> {
    Object(&'a str),
    Fault(String),
}

/// Tells whether it is an object type.
pub fn is_object_type(schema: &Schema, name: &str) -> bool
    ensures { result ≡ is_object_type
        (tree_of schema.now) name.now }
{
    matches!(schema.kind_of(name), Some(TypeKind::Object))
}

/// The object type of a row that stands for the type of this name (section 6.4.3, ResolveAbstractType).
pub fn type_of_row<'a>(
    alloc: Global,
    schema: &Schema,
    name: &'a str,
    row: &'a Row,
) -> Result<TypeOf<'a>, AllocError>
    ensures { IfOk result (λ ty. type_seen ty ≡ type_of_row
        (tree_of schema.now) name.now row.now) }
{
    if is_object_type(schema, name) {
        return Ok(TypeOf::Object(name));
    }
    match row.get("__typename") {
        Cell::NoColumn => Ok(TypeOf::Fault(no_column_message(alloc, "__typename")?)),
        Cell::Null => Ok(TypeOf::Fault(no_type_message(alloc)?)),
        Cell::Text(text) => {
            if schema.can_be(name, text) {
                Ok(TypeOf::Object(text))
            } else {
                Ok(TypeOf::Fault(not_type_message(alloc, text)?))
            }
        }
    }
}
