//! Values of Correct Type (section 5.6.1).

ghost use Rattle.std.specs.Prelude.{◌≡◌};
ghost use Rattle.std.specs.Option.{option_map};
ghost use Rattle.gq_parser.specs.Tree.{type_of, literal_of, variable_of};
ghost use Rattle.gq_schema.specs.Types.{tree_of};
ghost use Rattle.rules_parts.specs.Broken.{broken_of, earliest};
ghost use Rattle.rules_parts.specs.Parts.{argument_part_of, parts_in};
ghost use Rattle.rules_typed.specs.ValuesOfCorrectType.{is_wrong, wrong_argument, wrong_default, values_of_correct_type};

use crate::rules::variables_are_input_types::is_of_leaf;
use gq_parser::{Literal, TypeRef, VariableDefinition};
use gq_schema::{Schema, accepts};
use rules_parts::{ArgumentPart, BrokenName, EarliestViolation, Parts, Violation};

fn wrong_argument<'d>(schema: &Schema, part: &ArgumentPart<'d>) -> Option<Violation<'d>>
    ensures { option_map broken_of result
        ≡ wrong_argument (tree_of schema.now) (argument_part_of part.now) }
{
    let value = &part.argument.value;
    if accepts(schema, &part.definition?.of_type, value) {
        return None;
    }
    Some(Violation::of_name(part.argument.name.as_str(), value.place))
}

// Tells whether a default isn't of a variable's type.
fn is_wrong(schema: &Schema, of_type: &TypeRef, default: &Literal) -> bool
    ensures { result
        ≡ is_wrong (tree_of schema.now) (type_of of_type.now) (literal_of default.now) }
{
    is_of_leaf(schema, of_type) && !accepts(schema, of_type, default)
}

fn wrong_default<'d>(schema: &Schema, variable: &'d VariableDefinition) -> Option<Violation<'d>>
    ensures { option_map broken_of result
        ≡ wrong_default (tree_of schema.now) (variable_of variable.now) }
{
    let default = variable.default.as_ref()?;
    if !is_wrong(schema, &variable.of_type, default) {
        return None;
    }
    Some(Violation {
        name: BrokenName::Variable(variable.name.as_str()),
        place: default.place,
    })
}

/// The earliest literal of an argument that isn't of the argument's type, under the argument's name, or default of a variable
/// that isn't of the variable's type, under the variable's name with its `$`; at the place of the whole value
/// (section 5.6.1).
///
/// # Examples
///
/// | `{user(id:true){name}}` | `5.6.1 Values of Correct Type: id` | 10, the value | Give a value of the argument's type. |
/// | `query($i:ID=true){user(id:$i){name}}` | `5.6.1 Values of Correct Type: $i` | 13, the value | Give a default of the variable's type. |
#[tactic(auto, using(crate::proofs::Keeping::keep_next, crate::proofs::Keeping::keep_before))]
pub fn values_of_correct_type<'d>(parts: &Parts<'d>) -> Option<Violation<'d>>
    ensures { option_map broken_of result ≡ earliest
        (values_of_correct_type (parts_in parts.now)) }
{
    let mut earliest = EarliestViolation::new();
    for part in &parts.arguments {
        earliest.add_if(wrong_argument(parts.schema, part));
    }
    for part in &parts.variables {
        earliest.add_if(wrong_default(parts.schema, part.definition));
    }
    earliest.found
}
