//! The coercion of JSON values to types (section 3, Input Coercion).
//!
//! Numbers count by how `serde_json` holds them: what it holds as a float is no integer.

ghost use Rattle.std.specs.Prelude.{pos, string_bytes};
ghost use Rattle.serde_json.specs.View.{view, number_view, items_view};
ghost use Rattle.gq_parser.specs.Tree.{type_of};
ghost use Rattle.gq_parser.specs.Types.{is_non_null};
ghost use Rattle.gq_schema.specs.Types.{tree_of};
ghost use Rattle.gq_schema.specs.Inputs.{Coerces};
ghost use Rattle.gq_schema.specs.Coercion.{list_input, one_item};
ghost use Rattle.gq_variables.specs.JsonCoercion.{from_integer, from_number, from_string, named_data, all_data, data_input};

use gq_parser::TypeRef;
use gq_schema::{Input, Schema, list_of_one};
use serde_json::{Number, Value};
use short_text::Text;
use std::alloc::{AllocError, Global};

fn coerce_unsigned(alloc: Global, name: &str, n: u64) -> Result<Option<Input>, AllocError>
    ensures { Coerces (from_integer name.now (pos n))
        result }
{
    if name == "Int" {
        return Ok(i32::try_from(n).ok().map(Input::Int));
    }
    if name == "ID" {
        return Ok(Some(Input::Text(Text::from(n.to_string(alloc)?))));
    }
    Ok(None)
}

fn coerce_signed(alloc: Global, name: &str, n: i64) -> Result<Option<Input>, AllocError>
    ensures { Coerces (from_integer name.now n) result }
{
    if name == "Int" {
        return Ok(i32::try_from(n).ok().map(Input::Int));
    }
    if name == "ID" {
        return Ok(Some(Input::Text(Text::from(n.to_string(alloc)?))));
    }
    Ok(None)
}

fn coerce_number(alloc: Global, name: &str, number: &Number) -> Result<Option<Input>, AllocError>
    ensures { Coerces (from_number name.now (number_view number.now)) result }
{
    if let Some(n) = number.as_u64() {
        return Ok(coerce_unsigned(alloc, name, n)?);
    }
    match number.as_i64() {
        Some(n) => Ok(coerce_signed(alloc, name, n)?),
        None => Ok(None),
    }
}

fn coerce_string(
    alloc: Global,
    schema: &Schema,
    name: &str,
    text: &String,
) -> Result<Option<Input>, AllocError>
    ensures { Coerces (from_string (tree_of schema.now) name.now (string_bytes text.now)) result }
{
    if name == "ID" || name == "String" || schema.has_value(name, text.as_str()) {
        return Ok(Some(Input::Text(Text::from_str(alloc, text.as_str())?)));
    }
    Ok(None)
}

fn coerce_named(
    alloc: Global,
    schema: &Schema,
    ty: &TypeRef,
    name: &str,
    value: &Value,
) -> Result<Option<Input>, AllocError>
    ensures { Coerces (named_data (tree_of schema.now) name.now
        (is_non_null (type_of ty.now)) (view value.now)) result }
{
    match value {
        Value::Null => Ok((!ty.is_non_null()).then_some(Input::Null)),
        Value::Bool(b) => Ok((name == "Boolean").then_some(Input::Bool(*b))),
        Value::Number(number) => Ok(coerce_number(alloc, name, number)?),
        Value::String(text) => Ok(coerce_string(alloc, schema, name, text)?),
        Value::Array(_) => Ok(None),
        Value::Object(_) => Ok(None),
    }
}

/// Coerces a JSON value to a type. Returns `None` if it isn't of that type.
///
/// An ID and an enum's value become a `Text`, an ID that is a number its decimal, and a value at a list type that is no array
/// a list of one.
#[cycle(coerce)]
pub fn coerce_json(
    alloc: Global,
    schema: &Schema,
    ty: &TypeRef,
    value: &Value,
) -> Result<Option<Input>, AllocError>
    ensures { Coerces (data_input (tree_of schema.now) (type_of ty.now) (view value.now)) result }
{
    match ty {
        TypeRef::Named { name, .. } => {
            Ok(coerce_named(alloc, schema, ty, name.as_str(), value)?)
        }
        TypeRef::List { item, non_null, .. } => match value {
            Value::Null => Ok((!*non_null).then_some(Input::Null)),
            Value::Array(values) => Ok(coerce_all(alloc, schema, item, values)?),
            Value::Bool(_) => coerce_one(alloc, schema, item, value),
            Value::Number(_) => coerce_one(alloc, schema, item, value),
            Value::String(_) => coerce_one(alloc, schema, item, value),
            Value::Object(_) => coerce_one(alloc, schema, item, value),
        },
    }
}

// A value as a list of one.
#[cycle(coerce)]
fn coerce_one(
    alloc: Global,
    schema: &Schema,
    ty: &TypeRef,
    value: &Value,
) -> Result<Option<Input>, AllocError>
    ensures { Coerces
        (one_item (data_input (tree_of schema.now) (type_of ty.now) (view value.now))) result }
{
    let item = coerce_json(alloc, schema, ty, value)?;
    Ok(list_of_one(alloc, item)?)
}

// An array item by item.
#[cycle(coerce)]
fn coerce_all(
    alloc: Global,
    schema: &Schema,
    ty: &TypeRef,
    values: &[Value],
) -> Result<Option<Input>, AllocError>
    ensures { Coerces (list_input (all_data
        (data_input (tree_of schema.now) (type_of ty.now)) (items_view values.now))) result }
{
    let mut inputs = Vec::with_capacity(alloc, values.len())?;
    for value in values {
        match coerce_json(alloc, schema, ty, value)? {
            Some(input) => inputs.push(input)?,
            None => return Ok(None),
        }
    }
    Ok(Some(Input::List(inputs)))
}
