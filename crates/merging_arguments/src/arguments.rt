//! Arguments as sets.

ghost use Rattle.std.specs.Prelude.{◌≡◌};
ghost use Rattle.gq_parser.specs.Tree.{argument_of, arguments_of};
ghost use Rattle.merging_arguments.specs.Same.{same_argument, is_given, are_given, same_arguments};

use crate::values::is_same_value;
use gq_parser::Argument;

// Tells whether names and values are the same.
fn is_same_argument(one: &Argument, other: &Argument) -> bool
    ensures { result ≡ same_argument
        (argument_of one.now) (argument_of other.now) }
{
    one.name.as_str() == other.name.as_str() && is_same_value(&one.value, &other.value)
}

// Tells whether an argument is given among these.
fn is_given(arguments: &[Argument], argument: &Argument) -> bool
    ensures { result ≡ is_given (arguments_of arguments.now)
        (argument_of argument.now) }
{
    for other in arguments {
        if is_same_argument(argument, other) {
            return true;
        }
    }
    false
}

// Tells whether the first are all given among the second.
fn are_given(arguments: &[Argument], others: &[Argument]) -> bool
    ensures { result ≡ are_given (arguments_of arguments.now) (arguments_of others.now) }
{
    for argument in arguments {
        if !is_given(others, argument) {
            return false;
        }
    }
    true
}

/// Tells whether two lists have the same arguments, in whatever order. The time is that of each with
/// each.
pub fn are_same_arguments(arguments: &[Argument], others: &[Argument]) -> bool
    ensures { result ≡ same_arguments (arguments_of arguments.now) (arguments_of others.now) }
{
    are_given(arguments, others) && are_given(others, arguments)
}
