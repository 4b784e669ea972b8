//! The arguments of a document, and the variables in them.

ghost use Rattle.std.specs.Prelude.{◌≡◌, ◌++◌, OnOk, IfOk, map, flat_map};
ghost use Rattle.std.specs.Option.{option_map, option_copied};
ghost use Rattle.gq_parser.specs.Tree.{type_of, literal_of, values_of, members_of, argument_of, arguments_of, directive_of, directives_of};
ghost use Rattle.schema_syntax.specs.Tree as schema;
ghost use Rattle.gq_schema.specs.Implements.{argument_in};
ghost use Rattle.rules_parts.specs.Parts.{field_part_of, directive_list_of, argument_list_of, argument_part_of, location_of, use_of};
ghost use Rattle.rules_parts.specs.Uses.{argument_location, item_location, uses_in, uses_among, uses_within, argument_uses, AddsUses};
ghost use Rattle.rules_parts.specs.Listing.{directive_definitions, field_arguments, arguments_with, directive_arguments, argument_with, listed_arguments, arguments_in, uses_from};

use crate::part::{
    ArgumentList, ArgumentPart, DirectiveList, FieldPart, Location, Owner, VariableUse,
};
use gq_parser::{Argument, Directive, Literal, TypeRef, Value};
use gq_schema::{ArgDef, Schema};
use std::alloc::{AllocError, Global};

/// The arguments of a field.
pub fn field_arguments<'d>(part: &FieldPart<'d>) -> ArgumentList<'d>
    ensures { argument_list_of result
        ≡ field_arguments (field_part_of part.now) }
{
    let definitions: Option<&'d [ArgDef]> = match part.definition {
        Some(definition) => Some(&definition.arguments),
        None => None,
    };
    ArgumentList {
        owner: part.owner,
        place: part.field.place,
        definitions,
        arguments: &part.field.arguments,
    }
}

// The arguments of a directive.
fn arguments_with<'d>(
    schema: &'d Schema,
    owner: Owner,
    directive: &'d Directive,
) -> ArgumentList<'d>
    ensures { argument_list_of result ≡ arguments_with owner
        (directive_of directive.now) }
{
    let is_known = matches!(directive.name.as_str(), "skip" | "include");
    ArgumentList {
        owner,
        place: directive.place,
        definitions: if is_known {
            Some(schema.condition_arguments())
        } else {
            None
        },
        arguments: &directive.arguments,
    }
}

// Adds the arguments of each directive of a list.
fn add_directive_arguments<'d>(
    schema: &'d Schema,
    list: &DirectiveList<'d>,
    lists: &mut Vec<ArgumentList<'d>>,
) -> Result<(), AllocError>
    ensures { OnOk result (map argument_list_of lists.new.items ≡ map argument_list_of
        lists.old.items ++ directive_arguments (directive_list_of list.now)) }
{
    for directive in list.directives {
        lists.push(arguments_with(schema, list.owner, directive))?;
    }
    Ok(())
}

/// The arguments of directives, list by list.
pub fn directive_arguments<'d>(
    alloc: Global,
    schema: &'d Schema,
    directives: &[DirectiveList<'d>],
) -> Result<Vec<ArgumentList<'d>>, AllocError>
    ensures { IfOk result (λ lists. map argument_list_of lists.items
        ≡ flat_map directive_arguments (map directive_list_of directives.now)) }
{
    let mut lists = Vec::new(alloc);
    for list in directives {
        add_directive_arguments(schema, list, &mut lists)?;
    }
    Ok(lists)
}

// The definition of this name.
fn definition<'d>(definitions: &'d [ArgDef], name: &str) -> Option<&'d ArgDef>
    ensures { option_map schema.argument_of (option_copied result)
        ≡ argument_in (schema.arguments_of definitions.now) name.now }
{
    definitions
        .iter()
        .find(|definition| definition.name.text.as_str() == name)
}

fn argument_with<'d>(
    owner: Owner,
    definitions: Option<&'d [ArgDef]>,
    argument: &'d Argument,
) -> ArgumentPart<'d>
    ensures { argument_part_of result ≡ argument_with owner (option_map
        schema.arguments_of (option_copied definitions.entry)) (argument_of argument.now) }
{
    match definitions {
        Some(definitions) => ArgumentPart {
            owner,
            is_known: true,
            definition: definition(definitions, argument.name.as_str()),
            argument,
        },
        None => ArgumentPart {
            owner,
            is_known: false,
            definition: None,
            argument,
        },
    }
}

// Adds the arguments of a list.
fn add_arguments<'d>(
    list: &ArgumentList<'d>,
    arguments: &mut Vec<ArgumentPart<'d>>,
) -> Result<(), AllocError>
    ensures { OnOk result (map argument_part_of arguments.new.items ≡ map argument_part_of
        arguments.old.items ++ listed_arguments (argument_list_of list.now)) }
{
    for argument in list.arguments {
        arguments.push(argument_with(list.owner, list.definitions, argument))?;
    }
    Ok(())
}

/// The arguments of fields, and those in these lists.
pub fn arguments<'d>(
    alloc: Global,
    fields: &[FieldPart<'d>],
    lists: &[ArgumentList<'d>],
) -> Result<Vec<ArgumentPart<'d>>, AllocError>
    ensures { IfOk result (λ arguments. map argument_part_of arguments.items ≡ arguments_in
        (map field_arguments (map field_part_of fields.now) ++ map argument_list_of lists.now)) }
{
    let mut arguments = Vec::new(alloc);
    for field in fields {
        add_arguments(&field_arguments(field), &mut arguments)?;
    }
    for list in lists {
        add_arguments(list, &mut arguments)?;
    }
    Ok(arguments)
}

// The location of a list literal's items.
fn item_location<'d>(location: Option<Location<'d>>) -> Option<Location<'d>>
    ensures { option_map location_of result
        ≡ item_location (option_map location_of location.entry) }
{
    match location?.of_type {
        TypeRef::Named { .. } => None,
        TypeRef::List { item, .. } => Some(Location {
            of_type: item,
            has_default: false,
        }),
    }
}

// Adds the variables in a value.
#[cycle(uses)]
fn add_uses<'d>(
    owner: Owner,
    location: Option<Location<'d>>,
    literal: &'d Literal,
    uses: &mut Vec<VariableUse<'d>>,
) -> Result<(), AllocError>
    ensures { OnOk result (AddsUses uses.old uses.new
        (uses_in owner (option_map location_of location.entry) (literal_of literal.now))) }
{
    match &literal.value {
        Value::Variable(name) => {
            uses.push(VariableUse {
                owner,
                place: literal.place,
                name: name.as_str(),
                location,
            })?;
            Ok(())
        }
        Value::List(items) => add_item_uses(owner, item_location(location), items, uses),
        Value::Object(members) => add_member_uses(owner, members, uses),
        Value::Int(_) => Ok(()),
        Value::Float(_) => Ok(()),
        Value::Text(_) => Ok(()),
        Value::Boolean(_) => Ok(()),
        Value::Null => Ok(()),
        Value::Enum(_) => Ok(()),
    }
}

// Adds the variables in the items of a list.
#[cycle(uses)]
fn add_item_uses<'d>(
    owner: Owner,
    location: Option<Location<'d>>,
    items: &'d [Literal],
    uses: &mut Vec<VariableUse<'d>>,
) -> Result<(), AllocError>
    ensures { OnOk result (AddsUses uses.old uses.new (uses_among owner
        (option_map location_of location.entry) (values_of (map literal_of items.now)))) }
{
    for item in items {
        add_uses(owner, location, item, uses)?;
    }
    Ok(())
}

// Adds the variables in the fields of an object.
#[cycle(uses)]
fn add_member_uses<'d>(
    owner: Owner,
    members: &'d [Argument],
    uses: &mut Vec<VariableUse<'d>>,
) -> Result<(), AllocError>
    ensures { OnOk result (AddsUses uses.old uses.new
        (uses_within owner (members_of (map argument_of members.now)))) }
{
    for member in members {
        add_uses(owner, None, &member.value, uses)?;
    }
    Ok(())
}

// Adds the variables in an argument.
fn add_argument_uses<'d>(
    argument: &ArgumentPart<'d>,
    uses: &mut Vec<VariableUse<'d>>,
) -> Result<(), AllocError>
    ensures { OnOk result
        (AddsUses uses.old uses.new (argument_uses (argument_part_of argument.now))) }
{
    let location = match argument.definition {
        Some(definition) => Some(Location {
            of_type: &definition.of_type,
            has_default: definition.default.is_some(),
        }),
        None => None,
    };
    add_uses(argument.owner, location, &argument.argument.value, uses)
}

/// The variables in these arguments.
pub fn uses<'d>(
    alloc: Global,
    arguments: &[ArgumentPart<'d>],
) -> Result<Vec<VariableUse<'d>>, AllocError>
    ensures { IfOk result (λ uses.
        map use_of uses.items ≡ uses_from (map argument_part_of arguments.now)) }
{
    let mut uses = Vec::new(alloc);
    for argument in arguments {
        add_argument_uses(argument, &mut uses)?;
    }
    Ok(uses)
}
