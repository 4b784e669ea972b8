//! The coercion of literals to types (section 3, Input Coercion).

ghost use Rattle.std.specs.Prelude.{◌≡◌, Some, None, is_some};
ghost use Rattle.std.specs.Option.{option_map};
ghost use Rattle.gq_parser.specs.Tree.{type_of, literal_of, map_literals};
ghost use Rattle.gq_parser.specs.Types.{is_non_null};
ghost use Rattle.gq_schema.specs.Types.{tree_of};
ghost use Rattle.gq_schema.specs.Inputs.{Null, input_of, Coerces};
ghost use Rattle.gq_schema.specs.Coercion.{int_of, from_int, from_text, from_enum, named_value, value_with, all_items, list_input, one_item, coerced, accepts, place_of};

use crate::input::Input;
use crate::schema::Schema;
use gq_lexer::Place;
use gq_parser::{Literal, TypeRef, Value};
use short_text::Text;
use std::alloc::{AllocError, Global};

// The number that the text of an Int writes, where it lies within signed 32 bits.
fn int_of(text: &str) -> Option<i32>
    ensures { result ≡ int_of text.now }
{
    text.parse::<i32>().ok()
}

/// The place of a literal's first token.
pub fn place_of(literal: &Literal) -> Place
    ensures { result ≡ place_of (literal_of literal.now) }
{
    literal.place
}

fn accepts_int(name: &str, text: &str) -> bool
    ensures { result ≡ is_some
        (from_int name.now text.now) }
{
    if name == "Int" {
        int_of(text).is_some()
    } else {
        name == "ID"
    }
}

// Tells whether a literal is right at the type of this name. Variables are passed over.
fn accepts_named(schema: &Schema, ty: &TypeRef, name: &str, literal: &Literal) -> bool
    ensures { result ≡ is_some (named_value (Some Null) (tree_of schema.now)
        name.now (is_non_null (type_of ty.now)) (literal_of literal.now)) }
{
    match &literal.value {
        Value::Null => !ty.is_non_null(),
        Value::Variable(_) => true,
        Value::Int(text) => accepts_int(name, text.as_str()),
        Value::Float(_) => false,
        Value::Text(_) => name == "ID" || name == "String",
        Value::Boolean(_) => name == "Boolean",
        Value::Enum(value) => schema.has_value(name, value.as_str()),
        Value::List(_) => false,
        Value::Object(_) => false,
    }
}

/// Tells whether a literal may stand where this type is expected (section 5.6.1). Variables in it are skipped.
///
/// An `Int` takes an Int within signed 32 bits, an `ID` a string or an Int, a `String` a string, a `Boolean` `true` or
/// `false`, an enum a name among its values. A list takes a list item by item, and another value as a list of one. `null` is
/// right where the type may be null.
#[cycle(accepts)]
pub fn accepts(schema: &Schema, ty: &TypeRef, literal: &Literal) -> bool
    ensures { result ≡ accepts (tree_of schema.now)
        (type_of ty.now) (literal_of literal.now) }
{
    match ty {
        TypeRef::Named { name, .. } => accepts_named(schema, ty, name.as_str(), literal),
        TypeRef::List { item, non_null, .. } => match &literal.value {
            Value::Null => !*non_null,
            Value::Variable(_) => true,
            Value::List(items) => accepts_all(schema, item, items),
            Value::Int(_) => accepts(schema, item, literal),
            Value::Float(_) => accepts(schema, item, literal),
            Value::Text(_) => accepts(schema, item, literal),
            Value::Boolean(_) => accepts(schema, item, literal),
            Value::Enum(_) => accepts(schema, item, literal),
            Value::Object(_) => accepts(schema, item, literal),
        },
    }
}

#[cycle(accepts)]
fn accepts_all(schema: &Schema, ty: &TypeRef, literals: &[Literal]) -> bool
    ensures { result ≡ is_some (list_input (all_items (value_with (Some Null)
        (tree_of schema.now) (type_of ty.now)) (map_literals literals.now))) }
{
    for literal in literals {
        if !accepts(schema, ty, literal) {
            return false;
        }
    }
    true
}

fn coerce_int(name: &str, text: &Text) -> Result<Option<Input>, AllocError>
    ensures { Coerces (from_int name.now text.now) result }
{
    if name == "Int" {
        return Ok(int_of(text.as_str()).map(Input::Int));
    }
    if name == "ID" {
        return Ok(Some(Input::Text(text.clone()?)));
    }
    Ok(None)
}

fn coerce_text(name: &str, text: &Text) -> Result<Option<Input>, AllocError>
    ensures { Coerces (from_text name.now text.now) result }
{
    if name == "ID" || name == "String" {
        return Ok(Some(Input::Text(text.clone()?)));
    }
    Ok(None)
}

fn coerce_enum(schema: &Schema, name: &str, value: &Text) -> Result<Option<Input>, AllocError>
    ensures { Coerces (from_enum (tree_of schema.now) name.now value.now) result }
{
    if schema.has_value(name, value.as_str()) {
        return Ok(Some(Input::Text(value.clone()?)));
    }
    Ok(None)
}

fn coerce_named(
    schema: &Schema,
    ty: &TypeRef,
    name: &str,
    literal: &Literal,
) -> Result<Option<Input>, AllocError>
    ensures { Coerces (named_value None (tree_of schema.now) name.now
        (is_non_null (type_of ty.now)) (literal_of literal.now)) result }
{
    match &literal.value {
        Value::Null => Ok((!ty.is_non_null()).then_some(Input::Null)),
        Value::Variable(_) => Ok(None),
        Value::Int(text) => Ok(coerce_int(name, text)?),
        Value::Float(_) => Ok(None),
        Value::Text(text) => Ok(coerce_text(name, text)?),
        Value::Boolean(b) => Ok((name == "Boolean").then_some(Input::Bool(*b))),
        Value::Enum(value) => Ok(coerce_enum(schema, name, value)?),
        Value::List(_) => Ok(None),
        Value::Object(_) => Ok(None),
    }
}

/// A list of one item, where there is one.
pub fn list_of_one(alloc: Global, item: Option<Input>) -> Result<Option<Input>, AllocError>
    ensures { Coerces (one_item (option_map input_of item))
        result }
{
    match item {
        Some(item) => {
            let mut items = Vec::with_capacity(alloc, 1)?;
            items.push(item)?;
            Ok(Some(Input::List(items)))
        }
        None => Ok(None),
    }
}

/// Coerces a literal to a type (section 3, Input Coercion). Returns `None` if it isn't of that type, or holds a variable.
///
/// It is right where `accepts` says so: an ID and an enum's value become a `Text`, an ID the text of an Int as it is written,
/// and a value at a list type that is no list a list of one.
///
/// `plan_program` has a coercion with variables, which calls this one for what is no list and no variable: to
/// share the walk through lists too, each function of the recursion would take a closure and require that it
/// may be called.
#[cycle(coerce)]
pub fn coerce(
    alloc: Global,
    schema: &Schema,
    ty: &TypeRef,
    literal: &Literal,
) -> Result<Option<Input>, AllocError>
    ensures { Coerces
        (coerced (tree_of schema.now) (type_of ty.now) (literal_of literal.now)) result }
{
    match ty {
        TypeRef::Named { name, .. } => Ok(coerce_named(schema, ty, name.as_str(), literal)?),
        TypeRef::List { item, non_null, .. } => match &literal.value {
            Value::Null => Ok((!*non_null).then_some(Input::Null)),
            Value::Variable(_) => Ok(None),
            Value::List(items) => Ok(coerce_all(alloc, schema, item, items)?),
            Value::Int(_) => coerce_one(alloc, schema, item, literal),
            Value::Float(_) => coerce_one(alloc, schema, item, literal),
            Value::Text(_) => coerce_one(alloc, schema, item, literal),
            Value::Boolean(_) => coerce_one(alloc, schema, item, literal),
            Value::Enum(_) => coerce_one(alloc, schema, item, literal),
            Value::Object(_) => coerce_one(alloc, schema, item, literal),
        },
    }
}

// A value as a list of one.
#[cycle(coerce)]
fn coerce_one(
    alloc: Global,
    schema: &Schema,
    ty: &TypeRef,
    literal: &Literal,
) -> Result<Option<Input>, AllocError>
    ensures { Coerces
        (one_item (coerced (tree_of schema.now) (type_of ty.now) (literal_of literal.now))) result }
{
    let item = coerce(alloc, schema, ty, literal)?;
    Ok(list_of_one(alloc, item)?)
}

// A list item by item.
#[cycle(coerce)]
fn coerce_all(
    alloc: Global,
    schema: &Schema,
    ty: &TypeRef,
    literals: &[Literal],
) -> Result<Option<Input>, AllocError>
    ensures { Coerces (list_input (all_items (coerced (tree_of schema.now) (type_of ty.now))
        (map_literals literals.now))) result }
{
    let mut inputs = Vec::with_capacity(alloc, literals.len())?;
    for literal in literals {
        match coerce(alloc, schema, ty, literal)? {
            Some(input) => inputs.push(input)?,
            None => return Ok(None),
        }
    }
    Ok(Some(Input::List(inputs)))
}
