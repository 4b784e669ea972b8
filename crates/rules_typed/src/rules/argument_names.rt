//! Argument Names (section 5.4.1).

ghost use Rattle.std.specs.Prelude.{◌≡◌, map};
ghost use Rattle.std.specs.Option.{option_map};
ghost use Rattle.gq_parser.specs.Tree.{arguments_of};
ghost use Rattle.rules_parts.specs.Broken.{broken_of, AddsBroken, earliest};
ghost use Rattle.rules_parts.specs.Parts.{field_part_of, argument_part_of, parts_in};
ghost use Rattle.rules_typed.specs.ArgumentNames.{unknown_argument, broken_argument, type_name_arguments, argument_names};

use crate::rules::field_selections::is_type_name;
use gq_parser::Argument;
use rules_parts::{ArgumentPart, EarliestViolation, FieldPart, Parts, Violation};

// The fault of an argument that isn't defined.
fn unknown_argument<'d>(part: &ArgumentPart<'d>) -> Option<Violation<'d>>
    ensures { option_map broken_of result
        ≡ unknown_argument (argument_part_of part.now) }
{
    if !part.is_known || part.definition.is_some() {
        return None;
    }
    Some(Violation::of_name(part.argument.name.as_str(), part.argument.place))
}

// Adds all of these arguments as faults.
fn add_all<'d>(earliest: &mut EarliestViolation<'d>, arguments: &'d [Argument])
    ensures { AddsBroken earliest.old earliest.new
        (map broken_argument (arguments_of arguments.now)) }
{
    for argument in arguments {
        earliest.add(Violation::of_name(argument.name.as_str(), argument.place));
    }
}

// The arguments of `__typename`, which has none.
fn add_type_name_arguments<'d>(earliest: &mut EarliestViolation<'d>, part: &FieldPart<'d>)
    ensures { AddsBroken earliest.old earliest.new
        (type_name_arguments (field_part_of part.now)) }
{
    if is_type_name(part) {
        add_all(earliest, &part.field.arguments);
    }
}

/// The earliest argument that its field or directive doesn't define, at its own place (section 5.4.1).
///
/// `__typename` defines no argument.
///
/// # Examples
///
/// | `{user(id:1,age:2){name}}` | `5.4.1 Argument Names: age` | 12, the argument | Give only arguments that the field or directive defines. |
#[tactic(auto, using(crate::proofs::Keeping::keep_next, crate::proofs::Keeping::keep_before))]
pub fn argument_names<'d>(parts: &Parts<'d>) -> Option<Violation<'d>>
    ensures { option_map broken_of result
        ≡ earliest (argument_names (parts_in parts.now)) }
{
    let mut earliest = EarliestViolation::new();
    for part in &parts.arguments {
        earliest.add_if(unknown_argument(part));
    }
    for part in &parts.fields {
        add_type_name_arguments(&mut earliest, part);
    }
    earliest.found
}
