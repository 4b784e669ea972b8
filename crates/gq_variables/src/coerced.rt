//! The values of the variables of an operation (section 6.1.2, CoerceVariableValues).

ghost use Rattle.std.specs.Prelude.{◌≡◌, Ok, IfOk, IfErr};
ghost use Rattle.std.specs.Option.{option_map};
ghost use Rattle.serde_json.specs.View.{view};
ghost use Rattle.gq_parser.specs.Tree.{variable_of as definition_of};
ghost use Rattle.gq_schema.specs.Types.{tree_of};
ghost use Rattle.gq_schema.specs.Inputs.{input_of};
ghost use Rattle.gq_variables.specs.Variables.{variables_of};
ghost use Rattle.gq_variables.specs.Values.{right_value, default_value, given_value, read_variables, IsVariableFault};
ghost use Rattle.gq_variables.specs.Seen.{value_seen};

use crate::fault::VariableFault;
use crate::json::coerce_json;
use crate::variable::Variable;
use gq_parser::VariableDefinition;
use gq_schema::{Input, Schema, coerce};
use serde_json::Value;
use std::alloc::{AllocError, Global};

/// Value of a variable, if it has one.
#[derive(Drop)]
enum CoercedVariable {
    Value(Input),
    /// It has none, and may be null.
    Absent,
    Bad,
}

impl CoercedVariable {
    ghost use Rattle.gq_variables.specs.Seen.{value_seen};

    // A value, where it is right.
    fn of(input: Option<Input>) -> CoercedVariable
        ensures { value_seen result
            ≡ right_value (option_map input_of input) }
    {
        match input {
            Some(input) => CoercedVariable::Value(input),
            None => CoercedVariable::Bad,
        }
    }
}

// Returns what a variable has that is not given.
fn default_value(
    alloc: Global,
    schema: &Schema,
    definition: &VariableDefinition,
) -> Result<CoercedVariable, AllocError>
    ensures { IfOk result (λ c. value_seen c ≡ default_value (tree_of schema.now)
        (definition_of definition.now) (definition_of definition.now).default) }
{
    match &definition.default {
        Some(literal) => {
            let input = coerce(alloc, schema, &definition.of_type, literal)?;
            Ok(CoercedVariable::of(input))
        }
        None => {
            if definition.of_type.is_non_null() {
                Ok(CoercedVariable::Bad)
            } else {
                Ok(CoercedVariable::Absent)
            }
        }
    }
}

// Returns what a variable has, where this is given for it, if anything is.
fn given_value(
    alloc: Global,
    schema: &Schema,
    definition: &VariableDefinition,
    given: Option<&Value>,
) -> Result<CoercedVariable, AllocError>
    ensures { IfOk result (λ c. value_seen c ≡ given_value (tree_of schema.now)
        (definition_of definition.now) (option_map (λ d. view d.now) given.entry)) }
{
    match given {
        Some(value) => {
            let input = coerce_json(alloc, schema, &definition.of_type, value)?;
            Ok(CoercedVariable::of(input))
        }
        None => Ok(default_value(alloc, schema, definition)?),
    }
}

/// The variables that have a value, in the order of their definitions.
///
/// A variable that the request doesn't give has its default; one that it gives has that value, even null. Members of the
/// object that aren't variables are ignored.
///
/// A default that isn't of its variable's type makes that variable bad. Checked documents have none.
///
/// # Errors
///
/// [`NotObject`](VariableFault::NotObject) where what is given is neither an object nor null, and else
/// [`Bad`](VariableFault::Bad) for the first variable whose value is not of its type, or that has none and may not be null.
pub fn coerce_variables(
    alloc: Global,
    schema: &Schema,
    definitions: &[VariableDefinition],
    given: &Value,
) -> Result<Vec<Variable>, VariableFault>
    ensures ok { IfOk result (λ variables.
        read_variables schema.now definitions.now given.now ≡ Ok (variables_of variables.items)) }
    ensures err { IfErr result
        (IsVariableFault (read_variables schema.now definitions.now given.now)) }
{
    if !given.is_null() && !given.is_object() {
        return Err(VariableFault::NotObject);
    }
    let mut variables = Vec::new(alloc);
    for definition in definitions {
        let value = given.get(definition.name.as_str());
        match given_value(alloc, schema, definition, value)? {
            CoercedVariable::Value(value) => {
                let name = definition.name.clone()?;
                variables.push(Variable { name, value })?;
            }
            CoercedVariable::Absent => {}
            CoercedVariable::Bad => return Err(VariableFault::Bad(definition.name.clone()?)),
        }
    }
    Ok(variables)
}
