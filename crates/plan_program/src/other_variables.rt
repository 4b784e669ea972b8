//! Plans with other values of their variables.

ghost use Rattle.std.specs.Prelude.{◌≡◌, Some, false, IsTrue};
ghost use Rattle.std.specs.List.{All};
ghost use Rattle.gq_parser.specs.Tree.{literal_of, arguments_of};
ghost use Rattle.gq_check.specs.Plans.{plan_of};
ghost use Rattle.gq_schema.specs.Inputs.{input_of};
ghost use Rattle.gq_variables.specs.declared.variable.Variable.{Variable};
ghost use Rattle.plan_program.specs.Chosen.{is_true_input};
ghost use Rattle.plan_program.specs.OtherVariables.{AgreesAt, AgreesOnDirectives, is_plain, are_plain, is_fixed};
ghost use Rattle.plan_program.specs.Seen.{group_of};

use crate::chosen::{is_true_input, is_true_variable};
use crate::group::Group;
use gq_check::Plan;
use gq_parser::{Argument, Literal, Value};
use gq_variables::Variable;

// Tells whether a value is neither a variable nor a list or an object, which may hold one.
fn is_plain(literal: &Literal) -> bool
    ensures { result ≡ is_plain (literal_of literal.now) }
{
    match &literal.value {
        Value::Variable(_) => false,
        Value::List(_) => false,
        Value::Object(_) => false,
        Value::Int(_) => true,
        Value::Float(_) => true,
        Value::Text(_) => true,
        Value::Boolean(_) => true,
        Value::Null => true,
        Value::Enum(_) => true,
    }
}

fn are_plain(given: &[Argument]) -> bool
    ensures { result ≡ are_plain (arguments_of given.now) }
{
    given.iter().all(|argument| is_plain(&argument.value))
}

/// Tells whether no argument of a group is given by a variable, or by a list or an object, which may hold one. Then the group
/// asks for the same with all values of the variables.
pub fn is_fixed(group: &Group<'_>) -> bool
    ensures { result ≡ is_fixed (group_of group.now) }
{
    match group.fields.as_slice().first() {
        Some(first) => are_plain(&first.arguments),
        None => true,
    }
}

// Tells whether the variable of this name is true in both plans or in neither.
fn agrees_at(plan: &Plan, other: &Plan, name: &str) -> bool
    ensures { IsTrue result → AgreesAt (plan_of plan.now)
        (plan_of other.now).variables name.now }
{
    is_true_variable(plan, name) == is_true_variable(other, name)
}

fn agrees_at_each(plan: &Plan, other: &Plan, variables: &[Variable]) -> bool
    ensures { IsTrue result → All (λ (v : Variable). AgreesAt
        (plan_of plan.now) (plan_of other.now).variables v.name) variables.now }
{
    variables
        .iter()
        .all(|variable| agrees_at(plan, other, variable.name.as_str()))
}

// Tells whether none of these variables is true.
fn is_none_true(variables: &[Variable]) -> bool
    ensures { IsTrue result → All (λ (v : Variable).
        is_true_input (Some (input_of v.value)) ≡ false) variables.now }
{
    variables
        .iter()
        .all(|variable| !is_true_input(&variable.value))
}

/// Tells whether each variable is true in both plans or in neither. Where the plans are of one operation, directives then
/// leave the same out.
pub fn agrees_on_directives(plan: &Plan, other: &Plan) -> bool
    ensures { IsTrue result → AgreesOnDirectives
        (plan_of plan.now) (plan_of other.now).variables }
{
    let own = plan.variables();
    let others = other.variables();
    if is_none_true(own) && is_none_true(others) {
        return true;
    }
    agrees_at_each(plan, other, own) && agrees_at_each(plan, other, others)
}
