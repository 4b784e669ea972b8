//! Values as they are written.

ghost use Rattle.std.specs.Prelude.{◌≡◌};
ghost use Rattle.gq_parser.specs.Tree.{literal_of, map_literals, map_members};
ghost use Rattle.merging_arguments.specs.Same.{same_bool, same_value, same_values, same_members};

use gq_parser::{Argument, Literal, Value};

fn is_same_bool(one: bool, other: bool) -> bool
    ensures { result ≡ same_bool one other }
{
    if one { other } else { !other }
}

/// Tells whether two values are the same, wherever they stand. The recursion is as deep as the first one's
/// nesting.
#[cycle(same)]
pub fn is_same_value(one: &Literal, other: &Literal) -> bool
    ensures { result ≡ same_value
        (literal_of one.now) (literal_of other.now) }
{
    match &one.value {
        Value::Variable(name) => match &other.value {
            Value::Variable(other) => name.as_str() == other.as_str(),
            _ => false,
        },
        Value::Int(number) => match &other.value {
            Value::Int(other) => number.as_str() == other.as_str(),
            _ => false,
        },
        Value::Float(number) => match &other.value {
            Value::Float(other) => number.as_str() == other.as_str(),
            _ => false,
        },
        Value::Text(text) => match &other.value {
            Value::Text(other) => text.as_str() == other.as_str(),
            _ => false,
        },
        Value::Boolean(value) => match &other.value {
            Value::Boolean(other) => is_same_bool(*value, *other),
            _ => false,
        },
        Value::Null => match &other.value {
            Value::Null => true,
            _ => false,
        },
        Value::Enum(name) => match &other.value {
            Value::Enum(other) => name.as_str() == other.as_str(),
            _ => false,
        },
        Value::List(items) => match &other.value {
            Value::List(others) => are_same_items(items, others),
            _ => false,
        },
        Value::Object(members) => match &other.value {
            Value::Object(others) => are_same_members(members, others),
            _ => false,
        },
    }
}

// Tells whether the items of two lists are the same, in order.
#[cycle(same)]
fn are_same_items(items: &[Literal], others: &[Literal]) -> bool
    ensures { result ≡ same_values (map_literals items.now)
        (map_literals others.now) }
{
    let mut rest = others;
    for item in items {
        match rest.split_first() {
            Some((other, behind)) => {
                if !is_same_value(item, other) {
                    return false;
                }
                rest = behind;
            }
            None => return false,
        }
    }
    rest.is_empty()
}

// Tells whether the fields of two objects are the same, in order.
#[cycle(same)]
fn are_same_members(members: &[Argument], others: &[Argument]) -> bool
    ensures { result ≡ same_members
        (map_members members.now) (map_members others.now) }
{
    let mut rest = others;
    for member in members {
        match rest.split_first() {
            Some((other, behind)) => {
                if member.name.as_str() != other.name.as_str() {
                    return false;
                }
                if !is_same_value(&member.value, &other.value) {
                    return false;
                }
                rest = behind;
            }
            None => return false,
        }
    }
    rest.is_empty()
}
