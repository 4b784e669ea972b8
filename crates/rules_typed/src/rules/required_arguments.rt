//! Required Arguments (section 5.4.2.1).

ghost use Rattle.std.specs.Prelude.{◌≡◌, not};
ghost use Rattle.std.specs.Option.{option_map, option_copied};
ghost use Rattle.gq_parser.specs.Tree.{literal_of, argument_of, arguments_of};
ghost use Rattle.schema_syntax.specs.Tree as schema;
ghost use Rattle.gq_schema.specs.Implements.{is_required};
ghost use Rattle.rules_parts.specs.Broken.{broken_of, earliest};
ghost use Rattle.rules_parts.specs.Parts.{argument_list_of, parts_in};
ghost use Rattle.rules_typed.specs.RequiredArguments.{is_null, is_called, is_given, is_missing, first_missing, missing_argument, required_arguments};

use gq_parser::{Argument, Literal, Value};
use gq_schema::ArgDef;
use rules_parts::{ArgumentList, EarliestViolation, Parts, Violation, field_arguments};

fn is_null(literal: &Literal) -> bool
    ensures { result ≡ is_null (literal_of literal.now) }
{
    matches!(literal.value, Value::Null)
}

fn is_required(argument: &ArgDef) -> bool
    ensures { result ≡ is_required
        (schema.argument_of argument.now) }
{
    argument.of_type.is_non_null() && argument.default.is_none()
}

fn is_called(argument: &Argument, name: &str) -> bool
    ensures { result ≡ is_called name.now
        (argument_of argument.now) }
{
    name == argument.name.as_str()
}

fn has_value(argument: &Argument) -> bool
    ensures { result ≡ not
        (is_null (argument_of argument.now).value) }
{
    !is_null(&argument.value)
}

// Tells whether an argument of a name is given, and the first of the name isn't the literal `null`.
fn is_given(arguments: &[Argument], name: &str) -> bool
    ensures { result ≡ is_given
        (arguments_of arguments.now) name.now }
{
    arguments
        .iter()
        .find(|argument| is_called(argument, name))
        .is_some_and(has_value)
}

fn is_missing(arguments: &[Argument], argument: &ArgDef) -> bool
    ensures { result ≡ is_missing (arguments_of arguments.now) (schema.argument_of argument.now) }
{
    is_required(argument) && !is_given(arguments, argument.name.text.as_str())
}

// The name of the first argument of these that is missing.
fn first_missing<'d>(defined: &'d [ArgDef], arguments: &[Argument]) -> Option<&'d str>
    ensures { option_copied result
        ≡ first_missing (schema.arguments_of defined.now) (arguments_of arguments.now) }
{
    defined
        .iter()
        .find(|argument| is_missing(arguments, argument))
        .map(|argument| argument.name.text.as_str())
}

fn missing_argument<'d>(list: &ArgumentList<'d>) -> Option<Violation<'d>>
    ensures { option_map broken_of result
        ≡ missing_argument (argument_list_of list.now) }
{
    let name = first_missing(list.definitions?, list.arguments)?;
    Some(Violation::of_name(name, list.place))
}

/// The earliest field or directive where a non-null argument without a default is missing, or is the literal `null`: the
/// first such argument by definition, at the place of the field or directive (section 5.4.2.1).
///
/// # Examples
///
/// | `{user{name}}` | `5.4.2.1 Required Arguments: id` | 2, the field or directive | Give a value, other than `null`, to each non-null argument
/// without a default. The first missing one is reported. |
#[tactic(auto, using(crate::proofs::Keeping::keep_next, crate::proofs::Keeping::keep_before))]
pub fn required_arguments<'d>(parts: &Parts<'d>) -> Option<Violation<'d>>
    ensures { option_map broken_of result ≡ earliest
        (required_arguments (parts_in parts.now)) }
{
    let mut earliest = EarliestViolation::new();
    for part in &parts.fields {
        earliest.add_if(missing_argument(&field_arguments(part)));
    }
    for list in &parts.directive_arguments {
        earliest.add_if(missing_argument(list));
    }
    earliest.found
}
