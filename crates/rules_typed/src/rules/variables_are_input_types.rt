//! Variables Are Input Types (section 5.8.2).

ghost use Rattle.std.specs.Prelude.{◌≡◌};
ghost use Rattle.std.specs.Option.{option_map};
ghost use Rattle.gq_parser.specs.Tree.{type_of};
ghost use Rattle.gq_schema.specs.Types.{tree_of};
ghost use Rattle.rules_parts.specs.Broken.{broken_of, earliest};
ghost use Rattle.rules_parts.specs.Parts.{variable_part_of, parts_in};
ghost use Rattle.rules_typed.specs.VariablesAreInputTypes.{is_list_of_lists, is_of_leaf, is_input_type, non_input_variable, variables_are_input_types};

use gq_parser::TypeRef;
use gq_schema::Schema;
use rules_parts::{EarliestViolation, Parts, VariablePart, Violation};

fn is_list_of_lists(of_type: &TypeRef) -> bool
    ensures { result ≡ is_list_of_lists
        (type_of of_type.now) }
{
    match of_type {
        TypeRef::Named { .. } => false,
        TypeRef::List { item, .. } => item.is_list(),
    }
}

/// Tells whether the name at a type's core is that of a scalar or an enum.
pub fn is_of_leaf(schema: &Schema, of_type: &TypeRef) -> bool
    ensures { result ≡ is_of_leaf
        (tree_of schema.now) (type_of of_type.now) }
{
    match schema.kind_of(of_type.innermost_name()) {
        Some(kind) => kind.is_leaf(),
        None => false,
    }
}

fn is_input_type(schema: &Schema, of_type: &TypeRef) -> bool
    ensures { result ≡ is_input_type
        (tree_of schema.now) (type_of of_type.now) }
{
    is_of_leaf(schema, of_type) && !is_list_of_lists(of_type)
}

fn non_input_variable<'d>(schema: &Schema, part: &VariablePart<'d>) -> Option<Violation<'d>>
    ensures { option_map broken_of result
        ≡ non_input_variable (tree_of schema.now) (variable_part_of part.now) }
{
    let variable = part.definition;
    if is_input_type(schema, &variable.of_type) {
        return None;
    }
    Some(Violation::of_name(variable.name.as_str(), variable.place))
}

/// The earliest variable whose type isn't a scalar, an enum or a list of one of these, at its definition (section 5.8.2).
///
/// # Examples
///
/// | `query($u:User){users{id}}` | `5.8.2 Variables Are Input Types: u` | 7, its definition | Use a scalar, an enum, or a list of one. |
#[tactic(auto, using(crate::proofs::Keeping::keep_next))]
pub fn variables_are_input_types<'d>(parts: &Parts<'d>) -> Option<Violation<'d>>
    ensures { option_map broken_of result
        ≡ earliest (variables_are_input_types (parts_in parts.now)) }
{
    let mut earliest = EarliestViolation::new();
    for part in &parts.variables {
        earliest.add_if(non_input_variable(parts.schema, part));
    }
    earliest.found
}
