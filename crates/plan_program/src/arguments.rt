//! Coerced arguments (section 6.4.1).

ghost use Rattle.std.specs.Prelude.{◌≡◌, List, IfOk, IfErr, Some, map};
ghost use Rattle.std.specs.Option.{option_map};
ghost use Rattle.gq_parser.specs.Tree.{type_of, literal_of, map_literals, arguments_of as arguments_seen};
ghost use Rattle.gq_parser.specs.Types.{is_non_null};
ghost use Rattle.schema_syntax.specs.Tree.{argument_of, arguments_of as arguments_defined};
ghost use Rattle.gq_schema.specs.Inputs.{input_of, Coerces};
ghost use Rattle.gq_schema.specs.Coercion.{list_input, all_items, one_item};
ghost use Rattle.gq_variables.specs.Variables.{value_in};
ghost use Rattle.gq_check.specs.Plans.{plan_of};
ghost use Rattle.plan_program.specs.Chosen.{given_to};
ghost use Rattle.plan_program.specs.Arguments.{null_input, variable_value, IsValueAtName, literal_value, or_refused, default_value, by_variable, argument_value, value_given, coerced_arguments, arguments_of, all_values};
ghost use Rattle.plan_program.specs.Seen.{values_of, group_of};
ghost use Rattle.plan_program.specs.Coercing.{coerced_seen, Refuses};

use crate::chosen::given_to;
use crate::group::Group;
use gq_check::Plan;
use gq_parser::{Argument, Literal, TypeRef, Value};
use gq_schema::{ArgDef, Input, coerce, list_of_one};
use short_list::ShortList;
use std::alloc::{AllocError, AllocFailed, Global};
use thiserror::Error;

/// The arguments of a field that have a value, by name, in the order of their definitions, whose names they borrow.
#[derive(Drop)]
pub struct Args<'p> {
    pub pairs: ShortList<(&'p str, Input)>,
}

/// Reason why a field has no arguments.
#[derive(Debug, Drop, Error)]
pub enum ArgFault {
    /// The first argument, in order of definition, of non-null type that has no value or null.
    #[error("null for the non-null argument {0}")]
    NullArgument(String),
    /// Out of memory.
    #[error("out of memory")]
    NoMemory,
}

impl From<AllocError> for ArgFault {
    ghost use Rattle.std.specs.Prelude.{◌≡◌};
    ghost use Rattle.plan_program.specs.declared.arguments.ArgFault.TheVariants as fault;

    ghost from_gives = { λ _ e. e ≡ fault.NoMemory };

    fn from(_e: AllocError) -> ArgFault {
        ArgFault::NoMemory
    }
}

impl<T: Drop> From<AllocFailed<T>> for ArgFault {
    ghost use Rattle.std.specs.Prelude.{◌≡◌};
    ghost use Rattle.plan_program.specs.declared.arguments.ArgFault.TheVariants as fault;

    ghost from_gives = { λ _ e. e ≡ fault.NoMemory };

    fn from(_e: AllocFailed<T>) -> ArgFault {
        ArgFault::NoMemory
    }
}

/// Result of coercing an argument.
enum CoercedArgument {
    Absent,
    Present(Input),
    Refused,
}

// An input of its own.
#[cycle(copied)]
fn copy_input(input: &Input) -> Result<Input, AllocError>
    ensures { IfOk result
        (λ copy. input_of copy ≡ input_of input.now) }
{
    match input {
        Input::Null => Ok(Input::Null),
        Input::Int(number) => Ok(Input::Int(*number)),
        Input::Text(text) => Ok(Input::Text(text.clone()?)),
        Input::Bool(value) => Ok(Input::Bool(*value)),
        Input::List(items) => Ok(Input::List(copy_all(items)?)),
    }
}

#[cycle(copied)]
fn copy_all(inputs: &Vec<Input>) -> Result<Vec<Input>, AllocError>
    ensures { IfOk result (λ copies. map input_of
        copies.items ≡ map input_of inputs.now.items) }
{
    let mut copies = Vec::with_capacity(*inputs.allocator(), inputs.len())?;
    for input in inputs {
        copies.push(copy_input(input)?)?;
    }
    Ok(copies)
}

fn null_input(ty: &TypeRef) -> Option<Input>
    ensures { option_map input_of result
        ≡ null_input (is_non_null (type_of ty.now)) }
{
    (!ty.is_non_null()).then_some(Input::Null)
}

// The value of a variable that has one.
fn value_of_variable(ty: &TypeRef, value: &Input) -> Result<Option<Input>, AllocError>
    ensures { Coerces
        (variable_value (is_non_null (type_of ty.now)) (Some (input_of value.now))) result }
{
    match value {
        Input::Null => Ok(null_input(ty)),
        Input::Int(number) => Ok(Some(Input::Int(*number))),
        Input::Text(text) => Ok(Some(Input::Text(text.clone()?))),
        Input::Bool(value) => Ok(Some(Input::Bool(*value))),
        Input::List(items) => Ok(Some(Input::List(copy_all(items)?))),
    }
}

// The value of a variable; an absent one is null.
fn variable_value(plan: &Plan, ty: &TypeRef, name: &str) -> Result<Option<Input>, AllocError>
    ensures { Coerces (variable_value (is_non_null (type_of ty.now))
        (value_in (plan_of plan.now).variables name.now)) result }
{
    match plan.variable(name) {
        Some(value) => value_of_variable(ty, value),
        None => Ok(null_input(ty)),
    }
}

// Returns what a literal gives at a type that is no list.
fn name_value(
    alloc: Global,
    plan: &Plan,
    ty: &TypeRef,
    literal: &Literal,
) -> Result<Option<Input>, AllocError>
    ensures { IfOk result (λ i. IsValueAtName (plan_of plan.now)
        (type_of ty.now) (literal_of literal.now) (option_map input_of i)) }
{
    match &literal.value {
        Value::Variable(name) => Ok(variable_value(plan, ty, name.as_str())?),
        Value::Null => Ok(coerce(alloc, plan.schema(), ty, literal)?),
        Value::Int(_) => Ok(coerce(alloc, plan.schema(), ty, literal)?),
        Value::Float(_) => Ok(coerce(alloc, plan.schema(), ty, literal)?),
        Value::Text(_) => Ok(coerce(alloc, plan.schema(), ty, literal)?),
        Value::Boolean(_) => Ok(coerce(alloc, plan.schema(), ty, literal)?),
        Value::Enum(_) => Ok(coerce(alloc, plan.schema(), ty, literal)?),
        Value::List(_) => Ok(coerce(alloc, plan.schema(), ty, literal)?),
        Value::Object(_) => Ok(coerce(alloc, plan.schema(), ty, literal)?),
    }
}

// Returns what a literal with its variables gives at a type.
#[cycle(literal)]
fn literal_value(
    alloc: Global,
    plan: &Plan,
    ty: &TypeRef,
    literal: &Literal,
) -> Result<Option<Input>, AllocError>
    ensures { Coerces
        (literal_value (plan_of plan.now) (type_of ty.now) (literal_of literal.now)) result }
{
    match ty {
        TypeRef::Named { .. } => Ok(name_value(alloc, plan, ty, literal)?),
        TypeRef::List { item, .. } => match &literal.value {
            Value::Null => Ok(null_input(ty)),
            Value::Variable(name) => Ok(variable_value(plan, ty, name.as_str())?),
            Value::List(items) => Ok(list_value(alloc, plan, item, items)?),
            Value::Int(_) => one_value(alloc, plan, item, literal),
            Value::Float(_) => one_value(alloc, plan, item, literal),
            Value::Text(_) => one_value(alloc, plan, item, literal),
            Value::Boolean(_) => one_value(alloc, plan, item, literal),
            Value::Enum(_) => one_value(alloc, plan, item, literal),
            Value::Object(_) => one_value(alloc, plan, item, literal),
        },
    }
}

// A value as a list of one.
#[cycle(literal)]
fn one_value(
    alloc: Global,
    plan: &Plan,
    ty: &TypeRef,
    literal: &Literal,
) -> Result<Option<Input>, AllocError>
    ensures { Coerces (one_item
        (literal_value (plan_of plan.now) (type_of ty.now) (literal_of literal.now))) result }
{
    let item = literal_value(alloc, plan, ty, literal)?;
    Ok(list_of_one(alloc, item)?)
}

// A list item by item.
#[cycle(literal)]
fn list_value(
    alloc: Global,
    plan: &Plan,
    ty: &TypeRef,
    literals: &[Literal],
) -> Result<Option<Input>, AllocError>
    ensures { Coerces (list_input (all_items (literal_value (plan_of plan.now) (type_of ty.now))
        (map_literals literals.now))) result }
{
    let mut inputs = Vec::with_capacity(alloc, literals.len())?;
    for literal in literals {
        match literal_value(alloc, plan, ty, literal)? {
            Some(input) => inputs.push(input)?,
            None => return Ok(None),
        }
    }
    Ok(Some(Input::List(inputs)))
}

fn or_refused(input: Option<Input>) -> CoercedArgument
    ensures { coerced_seen result
        ≡ or_refused (option_map input_of input) }
{
    match input {
        Some(input) => CoercedArgument::Present(input),
        None => CoercedArgument::Refused,
    }
}

// Returns what becomes of an argument for which nothing is given.
fn default_value(
    alloc: Global,
    plan: &Plan,
    argument: &ArgDef,
) -> Result<CoercedArgument, AllocError>
    ensures { IfOk result (λ value. coerced_seen value ≡ default_value (plan_of plan.now)
        (argument_of argument.now).of_type (argument_of argument.now).default) }
{
    match &argument.default {
        Some(literal) => {
            let input = coerce(alloc, plan.schema(), &argument.of_type, literal)?;
            Ok(or_refused(input))
        }
        None => {
            if argument.of_type.is_non_null() {
                Ok(CoercedArgument::Refused)
            } else {
                Ok(CoercedArgument::Absent)
            }
        }
    }
}

// Returns what becomes of an argument that is given by a variable.
fn by_variable(
    alloc: Global,
    plan: &Plan,
    argument: &ArgDef,
    name: &str,
) -> Result<CoercedArgument, AllocError>
    ensures { IfOk result (λ v. coerced_seen v ≡ by_variable (plan_of plan.now)
        (argument_of argument.now) (value_in (plan_of plan.now).variables name.now)) }
{
    match plan.variable(name) {
        Some(value) => Ok(or_refused(value_of_variable(&argument.of_type, value)?)),
        None => default_value(alloc, plan, argument),
    }
}

// Returns what becomes of an argument for which a literal is given.
fn given_value(
    alloc: Global,
    plan: &Plan,
    argument: &ArgDef,
    literal: &Literal,
) -> Result<CoercedArgument, AllocError>
    ensures { IfOk result (λ value. coerced_seen value ≡ argument_value
        (plan_of plan.now) (argument_of argument.now) (Some (literal_of literal.now))) }
{
    let ty = &argument.of_type;
    match &literal.value {
        Value::Variable(name) => by_variable(alloc, plan, argument, name.as_str()),
        Value::Null => Ok(or_refused(literal_value(alloc, plan, ty, literal)?)),
        Value::Int(_) => Ok(or_refused(literal_value(alloc, plan, ty, literal)?)),
        Value::Float(_) => Ok(or_refused(literal_value(alloc, plan, ty, literal)?)),
        Value::Text(_) => Ok(or_refused(literal_value(alloc, plan, ty, literal)?)),
        Value::Boolean(_) => Ok(or_refused(literal_value(alloc, plan, ty, literal)?)),
        Value::Enum(_) => Ok(or_refused(literal_value(alloc, plan, ty, literal)?)),
        Value::List(_) => Ok(or_refused(literal_value(alloc, plan, ty, literal)?)),
        Value::Object(_) => Ok(or_refused(literal_value(alloc, plan, ty, literal)?)),
    }
}

fn argument_value(
    alloc: Global,
    plan: &Plan,
    argument: &ArgDef,
    given: &[Argument],
) -> Result<CoercedArgument, AllocError>
    ensures { IfOk result (λ v. coerced_seen v
        ≡ value_given (plan_of plan.now) (arguments_seen given.now) (argument_of argument.now)) }
{
    match given_to(given, argument.name.text.as_str()) {
        Some(literal) => given_value(alloc, plan, argument, literal),
        None => default_value(alloc, plan, argument),
    }
}

/// The coerced arguments of a field, by what is given to it and by the arguments of its definition.
pub(crate) fn coerced_arguments<'p>(
    alloc: Global,
    plan: &Plan,
    given: &[Argument],
    arguments: &'p [ArgDef],
) -> Result<Args<'p>, ArgFault>
    ensures ok { IfOk result (λ a. coerced_arguments (plan_of plan.now)
        (arguments_seen given.now) (arguments_defined arguments.now) ≡ all_values (values_of a)) }
    ensures fault { IfErr result (λ fault. Refuses fault (coerced_arguments
        (plan_of plan.now) (arguments_seen given.now) (arguments_defined arguments.now))) }
{
    let mut args = Args {
        pairs: ShortList::new(),
    };
    for argument in arguments {
        match argument_value(alloc, plan, argument, given)? {
            CoercedArgument::Absent => {}
            CoercedArgument::Present(input) => {
                args.pairs
                    .push(alloc, (argument.name.text.as_str(), input))?;
            }
            CoercedArgument::Refused => {
                return Err(ArgFault::NullArgument(argument.name.text.clone()?));
            }
        }
    }
    Ok(args)
}

/// The coerced arguments of a group, by the definition of its field in an object type (section 6.4.1). The group is one that
/// `collect` gave for this plan and this type.
///
/// # Errors
///
/// `NullArgument` with the first argument, in order of definition, that has no value, or null, at a non-null type.
/// `NoMemory` only when out of memory.
pub fn arguments_of<'p>(
    alloc: Global,
    plan: &'p Plan,
    ty: &str,
    group: &Group<'_>,
) -> Result<Args<'p>, ArgFault>
    ensures ok { IfOk result (λ args.
        arguments_of (plan_of plan.now) ty.now (group_of group.now) ≡ all_values (values_of args)) }
    ensures fault { IfErr result (λ fault.
        Refuses fault (arguments_of (plan_of plan.now) ty.now (group_of group.now))) }
{
    let none = Args {
        pairs: ShortList::new(),
    };
    let Some(field) = group.fields.as_slice().first() else {
        return Ok(none);
    };
    let Some(definition) = plan.schema().field(ty, field.name.as_str()) else {
        return Ok(none);
    };
    coerced_arguments(alloc, plan, &field.arguments, &definition.arguments)
}
