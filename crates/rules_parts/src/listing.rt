//! The variables of a document, and the directives of its definitions.

ghost use Rattle.std.specs.Prelude.{◌≡◌, IfOk, OnOk, map};
ghost use Rattle.gq_parser.specs.Tree.{variables_of, document_of};
ghost use Rattle.rules_parts.specs.Parts.{variable_part_of, directive_list_of};
ghost use Rattle.rules_parts.specs.Listing.{AddsVariables, variables_from, variables_in, definition_directives};

use crate::part::{DirectiveList, DirectiveLocation, Owner, VariablePart};
use crate::selections::add_directives;
use gq_parser::{Document, VariableDefinition};
use std::alloc::{AllocError, Global};

// Adds the variables of an operation.
fn add_variables<'d>(
    operation: usize,
    definitions: &'d [VariableDefinition],
    variables: &mut Vec<VariablePart<'d>>,
) -> Result<(), AllocError>
    ensures { OnOk result (AddsVariables variables.old variables.new
        (variables_from operation (variables_of definitions.now))) }
{
    for definition in definitions {
        variables.push(VariablePart {
            operation,
            definition,
        })?;
    }
    Ok(())
}

/// The variables of a document's operations.
pub fn variables<'d>(
    alloc: Global,
    document: &'d Document,
) -> Result<Vec<VariablePart<'d>>, AllocError>
    ensures { IfOk result (λ variables.
        map variable_part_of variables.items ≡ variables_in (document_of document.now)) }
{
    let mut variables = Vec::new(alloc);
    for (i, operation) in document.operations.iter().enumerate() {
        add_variables(i, &operation.variables, &mut variables)?;
    }
    Ok(variables)
}

/// The directives of a document but those of its selections, location by location.
pub fn definition_directives<'d>(
    alloc: Global,
    document: &'d Document,
    variables: &[VariablePart<'d>],
) -> Result<Vec<DirectiveList<'d>>, AllocError>
    requires { map variable_part_of variables.now
        ≡ variables_in (document_of document.now) }
    ensures { IfOk result (λ lists.
        map directive_list_of lists.items ≡ definition_directives (document_of document.now)) }
{
    let mut lists = Vec::new(alloc);
    for variable in variables {
        let owner = Owner::Operation(variable.operation);
        let location = DirectiveLocation::VariableDefinition;
        add_directives(owner, location, &variable.definition.directives, &mut lists)?;
    }
    for (i, operation) in document.operations.iter().enumerate() {
        let location = DirectiveLocation::Operation;
        add_directives(
            Owner::Operation(i),
            location,
            &operation.directives,
            &mut lists,
        )?;
    }
    for (i, fragment) in document.fragments.iter().enumerate() {
        let location = DirectiveLocation::FragmentDefinition;
        add_directives(
            Owner::Fragment(i),
            location,
            &fragment.directives,
            &mut lists,
        )?;
    }
    Ok(lists)
}
