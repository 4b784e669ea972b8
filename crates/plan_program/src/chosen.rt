//! Selections that count.

ghost use Rattle.std.specs.Prelude.{◌≡◌, Some};
ghost use Rattle.std.specs.Option.{option_map, option_copied};
ghost use Rattle.gq_parser.specs.Tree.{literal_of, arguments_of as arguments_seen, directive_of, directives_of, condition_of, condition_if};
ghost use Rattle.gq_schema.specs.Inputs.{input_of};
ghost use Rattle.gq_variables.specs.Variables.{value_in};
ghost use Rattle.gq_check.specs.Plans.{plan_of};
ghost use Rattle.plan_program.specs.Chosen.{is_true_input, is_true, given_to, holds, leaves_out, is_left_out, applies};

use gq_check::Plan;
use gq_parser::{Argument, Directive, Literal, TypeCondition, Value};
use gq_schema::Input;

/// Tells whether a value is true, and no other value.
pub fn is_true_input(input: &Input) -> bool
    ensures { result ≡ is_true_input
        (Some (input_of input.now)) }
{
    match input {
        Input::Bool(value) => *value,
        Input::Null => false,
        Input::Int(_) => false,
        Input::Text(_) => false,
        Input::List(_) => false,
    }
}

/// Tells whether the variable of this name is true.
pub fn is_true_variable(plan: &Plan, name: &str) -> bool
    ensures { result ≡ is_true_input
        (value_in (plan_of plan.now).variables name.now) }
{
    match plan.variable(name) {
        Some(input) => is_true_input(input),
        None => false,
    }
}

fn is_true(plan: &Plan, literal: &Literal) -> bool
    ensures { result ≡ is_true (plan_of plan.now)
        (literal_of literal.now) }
{
    match &literal.value {
        Value::Boolean(value) => *value,
        Value::Variable(name) => is_true_variable(plan, name.as_str()),
        Value::Int(_) => false,
        Value::Float(_) => false,
        Value::Text(_) => false,
        Value::Null => false,
        Value::Enum(_) => false,
        Value::List(_) => false,
        Value::Object(_) => false,
    }
}

/// The value that is given to the argument of this name.
pub fn given_to<'p>(given: &'p [Argument], name: &str) -> Option<&'p Literal>
    ensures { option_map literal_of (option_copied result)
        ≡ given_to (arguments_seen given.now) name.now }
{
    for argument in given {
        if argument.name.as_str() == name {
            return Some(&argument.value);
        }
    }
    None
}

// Tells whether the argument `if` is true.
fn holds(plan: &Plan, directive: &Directive) -> bool
    ensures { result ≡ holds (plan_of plan.now)
        (directive_of directive.now) }
{
    match given_to(&directive.arguments, "if") {
        Some(literal) => is_true(plan, literal),
        None => false,
    }
}

fn leaves_out(plan: &Plan, directive: &Directive) -> bool
    ensures { result ≡ leaves_out (plan_of plan.now)
        (directive_of directive.now) }
{
    if directive.name.as_str() == "skip" {
        return holds(plan, directive);
    }
    if directive.name.as_str() == "include" {
        return !holds(plan, directive);
    }
    false
}

/// Tells whether `@skip` is true or `@include` isn't (sections 3.13.1 and 3.13.2).
pub fn is_left_out(plan: &Plan, directives: &[Directive]) -> bool
    ensures { result ≡ is_left_out (plan_of plan.now)
        (directives_of directives.now) }
{
    for directive in directives {
        if leaves_out(plan, directive) {
            return true;
        }
    }
    false
}

/// Tells whether fragments on a type apply to an object type (section 6.3.2,
/// DoesFragmentTypeApply).
pub fn applies(plan: &Plan, condition: &TypeCondition, ty: &str) -> bool
    ensures { result ≡ applies (plan_of plan.now)
        (Some (condition_of condition.now)) ty.now }
{
    plan.schema().can_be(condition.name.as_str(), ty)
}

/// Does the same of an inline fragment, which may have no type.
pub fn applies_inline(plan: &Plan, condition: &Option<TypeCondition>, ty: &str) -> bool
    ensures { result ≡ applies (plan_of plan.now)
        (condition_if condition.now) ty.now }
{
    match condition {
        Some(condition) => applies(plan, condition, ty),
        None => true,
    }
}
