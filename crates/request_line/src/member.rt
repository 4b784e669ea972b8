//! Values of members, read token by token.

ghost use Rattle.std.specs.Prelude.{◌≡◌, ◌<◌, length, IfSome, IfOk, Some, option_map};
ghost use Rattle.serde_json.specs.Find.{as_str};
ghost use Rattle.serde_json.specs.View.{view, items_view, members_view};
ghost use Rattle.request_line.specs.Requests.{name_of};
ghost use Rattle.request_line.specs.Plain.{value_seen, ReadsValue, array_items, object_members};

use crate::number::read_number;
use json::{Reader, Token};
use serde_json::{Map, Number, Value};
use std::alloc::{AllocError, Global};

/// A value like a [`Value`]. If it is a string, that lies in the line or in the reader.
#[derive(Drop)]
pub(crate) enum MemberValue<'l> {
    Null,
    Bool(bool),
    Number(Number),
    String(&'l str),
    Array(Vec<Value>),
    Object(Map<String, Value>),
}

impl<'l> MemberValue<'l> {
    /// The text of a string.
    pub(crate) fn as_str(&self) -> Option<&'l str>
        ensures { option_map (λ s. s.now) result
            ≡ as_str (value_seen self.now) }
    {
        match self {
            MemberValue::String(text) => Some(*text),
            _ => None,
        }
    }

    /// The name of an operation, which is none if it is null. What is neither null nor a string is no name.
    pub(crate) fn as_name(&self) -> Option<Option<&'l str>>
        ensures { option_map (λ name. option_map (λ s. s.now) name) result
            ≡ name_of (Some (value_seen self.now)) }
    {
        match self {
            MemberValue::Null => Some(None),
            MemberValue::String(text) => Some(Some(*text)),
            _ => None,
        }
    }

    /// Does the same as a value of its own.
    pub(crate) fn into_value(self, alloc: Global) -> Result<Value, AllocError>
        ensures { IfOk result
            (λ value. view value ≡ value_seen self.entry) }
    {
        match self {
            MemberValue::Null => Ok(Value::Null),
            MemberValue::Bool(b) => Ok(Value::Bool(b)),
            MemberValue::Number(number) => Ok(Value::Number(number)),
            MemberValue::String(text) => Ok(Value::String(String::from_str(alloc, text)?)),
            MemberValue::Array(values) => Ok(Value::Array(values)),
            MemberValue::Object(members) => Ok(Value::Object(members)),
        }
    }
}

/// The value that comes next, in which arrays and objects nest at most `depth` levels deep. `None` where it isn't read here: it nests
/// deeper, a number is beyond a float's range, or it is no JSON.
///
/// # Errors
///
/// Only when out of memory.
#[cycle(values)]
pub(crate) fn next_value<'l>(
    alloc: Global,
    reader: &mut Reader<'l>,
    depth: usize,
) -> Result<Option<MemberValue<'l>>, AllocError>
    ensures value { IfOk result (λ read.
        IfSome read (λ value. ReadsValue depth reader.old reader.new (value_seen value))) }
    ensures shorter { IfOk result (λ read.
        IfSome read (λ _. length reader.new < length reader.old)) }
{
    let Some(token) = reader.next() else {
        return Ok(None);
    };
    match token {
        Token::Null => Ok(Some(MemberValue::Null)),
        Token::Bool(b) => Ok(Some(MemberValue::Bool(b))),
        Token::Number(text) => match read_number(text) {
            Some(number) => Ok(Some(MemberValue::Number(number))),
            None => Ok(None),
        },
        Token::String(text) => Ok(Some(MemberValue::String(text))),
        Token::BeginArray => {
            if depth == 0 {
                return Ok(None);
            }
            match read_array(alloc, reader, depth - 1)? {
                Some(values) => Ok(Some(MemberValue::Array(values))),
                None => Ok(None),
            }
        }
        Token::BeginObject => {
            if depth == 0 {
                return Ok(None);
            }
            match read_object(alloc, reader, depth - 1)? {
                Some(members) => Ok(Some(MemberValue::Object(members))),
                None => Ok(None),
            }
        }
        _ => Ok(None),
    }
}

// The values of an array, from the token after its bracket on. `None` where one isn't read here.
#[cycle(values)]
fn read_array(
    alloc: Global,
    reader: &mut Reader<'_>,
    depth: usize,
) -> Result<Option<Vec<Value>>, AllocError>
    ensures value { IfOk result (λ read.
        IfSome read (λ vs. array_items depth reader.old ≡ Some (items_view vs.items, reader.new))) }
    ensures shorter { IfOk result (λ read.
        IfSome read (λ _. length reader.new < length reader.old)) }
{
    let mut found = Vec::new(alloc);
    while !reader.take_end_array() {
        let Some(value) = next_value(alloc, reader, depth)? else {
            return Ok(None);
        };
        let value = value.into_value(alloc)?;
        found.push(value)?;
    }
    Ok(Some(found))
}

// The members of an object, from the token after its brace on. `None` where one isn't read here.
#[cycle(values)]
fn read_object(
    alloc: Global,
    reader: &mut Reader<'_>,
    depth: usize,
) -> Result<Option<Map<String, Value>>, AllocError>
    ensures value { IfOk result (λ read. IfSome read (λ m.
        object_members depth reader.old ≡ Some (members_view m.entries, reader.new))) }
    ensures shorter { IfOk result (λ read.
        IfSome read (λ _. length reader.new < length reader.old)) }
{
    let mut found = Map::new(alloc);
    loop {
        let name = match reader.next_key() {
            Ok(Some(name)) => name,
            Ok(None) => return Ok(Some(found)),
            Err(_) => return Ok(None),
        };
        let Some(value) = next_value(alloc, reader, depth)? else {
            return Ok(None);
        };
        let key = String::from_str(alloc, name)?;
        let value = value.into_value(alloc)?;
        drop(found.insert(key, value)?);
    }
}
