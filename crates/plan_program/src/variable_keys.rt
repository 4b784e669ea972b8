//! Keys of loads that a variable gives.

ghost use Rattle.std.specs.Prelude.{◌≡◌, IfOk};
ghost use Rattle.std.specs.Option.{option_map, option_copied, option_and_then};
ghost use Rattle.gq_parser.specs.Tree.{literal_of, arguments_of as arguments_seen};
ghost use Rattle.schema_syntax.specs.Tree.{arguments_of as arguments_defined};
ghost use Rattle.load_memory.specs.Keys.{key_of};
ghost use Rattle.gq_check.specs.Plans.{plan_of};
ghost use Rattle.gq_variables.specs.Variables.{value_in};
ghost use Rattle.plan_program.specs.FieldValues.{key_of_input};
ghost use Rattle.plan_program.specs.ObjectTypes.{name_in, IsOf};
ghost use Rattle.plan_program.specs.Seen.{group_of};
ghost use Rattle.plan_program.specs.VariableKeys.{variable_in, only_variable, group_variable, key_by_variable};

use crate::chosen::given_to;
use crate::group::Group;
use crate::object_type::{ObjectType, definition_of};
use crate::preparation::key_of_input;
use gq_check::Plan;
use gq_parser::{Argument, Field, Literal, Value};
use gq_schema::ArgDef;
use load_memory::Key;
use std::alloc::{AllocError, Global};

// The name of the variable that a value is.
fn variable_in(literal: &Literal) -> Option<&str>
    ensures { option_copied result
        ≡ variable_in (literal_of literal.now) }
{
    match &literal.value {
        Value::Variable(name) => Some(name.as_str()),
        Value::Int(_) => None,
        Value::Float(_) => None,
        Value::Text(_) => None,
        Value::Boolean(_) => None,
        Value::Null => None,
        Value::Enum(_) => None,
        Value::List(_) => None,
        Value::Object(_) => None,
    }
}

// The variable that is given for the only argument that a field has.
fn only_variable<'p>(given: &'p [Argument], defined: &[ArgDef]) -> Option<&'p str>
    ensures { option_copied result ≡ only_variable
        (arguments_seen given.now) (arguments_defined defined.now) }
{
    match defined {
        [argument] => variable_in(given_to(given, argument.name.text.as_str())?),
        _ => None,
    }
}

// The variable that gives the only argument that the field of a group has.
fn group_variable<'p>(plan: &'p Plan, ty: &ObjectType<'p, '_>, group: &Group<'p>) -> Option<&'p str>
    requires { IsOf (plan_of plan.now) ty.now }
    ensures { option_copied result
        ≡ group_variable (plan_of plan.now) (name_in ty.now) (group_of group.now) }
{
    let first: &'p Field = *group.fields.as_slice().first()?;
    let definition = definition_of(plan, ty, first)?;
    only_variable(&first.arguments, &definition.arguments)
}

// The key that the value of a variable is.
fn key_of_variable(alloc: Global, plan: &Plan, name: &str) -> Result<Option<Key>, AllocError>
    ensures { IfOk result (λ key. option_map key_of key ≡ option_and_then key_of_input
        (value_in (plan_of plan.now).variables name.now)) }
{
    match plan.variable(name) {
        Some(input) => key_of_input(alloc, input),
        None => Ok(None),
    }
}

/// The key that a variable gives for the only argument that the field of a group has. Nothing where the field has other arguments or
/// none, or another value is given, or the variable has no value that is a key.
///
/// Where the group asks by a key of an argument with one value of the variable, with another value it asks for the same by this key.
///
/// # Errors
///
/// Only when out of memory.
pub fn key_by_variable<'p>(
    alloc: Global,
    plan: &'p Plan,
    ty: &ObjectType<'p, '_>,
    group: &Group<'p>,
) -> Result<Option<Key>, AllocError>
    requires { IsOf (plan_of plan.now) ty.now }
    ensures { IfOk result (λ key. option_map key_of key
        ≡ key_by_variable (plan_of plan.now) (name_in ty.now) (group_of group.now)) }
{
    match group_variable(plan, ty, group) {
        Some(name) => key_of_variable(alloc, plan, name),
        None => Ok(None),
    }
}
