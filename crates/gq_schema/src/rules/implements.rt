//! Interfaces that a type says it implements and doesn't.

ghost use Rattle.std.specs.Prelude.{◌≡◌, IfOk};
ghost use Rattle.std.specs.List.{list_all};
ghost use Rattle.std.specs.Option.{option_map, option_copied};
ghost use Rattle.schema_syntax.specs.Tree.{names_of, argument_of, arguments_of, field_of, fields_of, definition_of};
ghost use Rattle.gq_schema.specs.Scan.{first_in};
ghost use Rattle.gq_schema.specs.Types.{tree_of, is_argument};
ghost use Rattle.gq_schema.specs.Places.{ArePlaces};
ghost use Rattle.gq_schema.specs.Implements.{argument_in, has_argument, is_required, may_stand, serves, has_field, implements, bad_interface, bad_interface_in, first_bad_interface};

use crate::index::{NameIndices, note};
use crate::references::is_same_type;
use crate::schema::Schema;
use gq_lexer::Place;
use schema_syntax::{ArgumentDefinition, Definition, FieldDefinition, Name};
use std::alloc::{AllocError, Global};
use std::collections::HashMap;

/// The arguments of a field, found by their names.
#[derive(Drop)]
struct Arguments<'a> {
    arguments: &'a [ArgumentDefinition],
    places: NameIndices,
    ghost placed: { ArePlaces is_argument (arguments_of arguments.now) places },
}

impl<'a> Arguments<'a> {
    fn of(alloc: Global, arguments: &'a [ArgumentDefinition]) -> Result<Arguments<'a>, AllocError>
        ensures { IfOk result
            (λ all. all.arguments.now ≡ arguments.now) }
    {
        let mut places: NameIndices = HashMap::new(alloc);
        for (i, argument) in arguments.iter().enumerate() {
            note(&mut places, &argument.name, i)?;
        }
        Ok(Arguments { arguments, places })
    }

    fn get(&self, name: &str) -> Option<&ArgumentDefinition>
        ensures { option_map argument_of (option_copied result)
            ≡ argument_in (arguments_of self.now.arguments.now) name.now }
    {
        let place = *self.places.get(name)?;
        Some(&self.arguments[place])
    }
}

// Tells whether there is the wanted argument, of the same type.
fn has_argument(own: &Arguments, wanted: &ArgumentDefinition) -> bool
    ensures { result ≡ has_argument (arguments_of own.now.arguments.now) (argument_of wanted.now) }
{
    match own.get(wanted.name.text.as_str()) {
        Some(argument) => is_same_type(&argument.of_type, &wanted.of_type),
        None => false,
    }
}

fn has_arguments(own: &Arguments, wanted: &[ArgumentDefinition]) -> bool
    ensures { result
        ≡ list_all (has_argument (arguments_of own.now.arguments.now)) (arguments_of wanted.now) }
{
    for argument in wanted {
        if !has_argument(own, argument) {
            return false;
        }
    }
    true
}

fn is_required(argument: &ArgumentDefinition) -> bool
    ensures { result ≡ is_required
        (argument_of argument.now) }
{
    argument.of_type.is_non_null() && argument.default.is_none()
}

// Tells whether the interface's field has this argument too, or it may be left out.
fn may_stand(wanted: &Arguments, argument: &ArgumentDefinition) -> bool
    ensures { result
        ≡ may_stand (arguments_of wanted.now.arguments.now) (argument_of argument.now) }
{
    wanted.get(argument.name.text.as_str()).is_some() || !is_required(argument)
}

fn may_all_stand(wanted: &Arguments, arguments: &[ArgumentDefinition]) -> bool
    ensures { result ≡ list_all (may_stand (arguments_of wanted.now.arguments.now))
        (arguments_of arguments.now) }
{
    for argument in arguments {
        if !may_stand(wanted, argument) {
            return false;
        }
    }
    true
}

// Tells whether a field implements the interface's field.
fn serves(
    alloc: Global,
    schema: &Schema,
    wanted: &FieldDefinition,
    own: &FieldDefinition,
) -> Result<bool, AllocError>
    ensures { IfOk result (λ good.
        good ≡ serves (tree_of schema.now) (field_of wanted.now) (field_of own.now)) }
{
    if !schema.is_covariant(&own.of_type, &wanted.of_type) {
        return Ok(false);
    }
    let own_arguments = Arguments::of(alloc, &own.arguments)?;
    if !has_arguments(&own_arguments, &wanted.arguments) {
        return Ok(false);
    }
    let wanted_arguments = Arguments::of(alloc, &wanted.arguments)?;
    Ok(may_all_stand(&wanted_arguments, &own.arguments))
}

// Tells whether a type has a field that implements the interface's field.
fn has_field(
    alloc: Global,
    schema: &Schema,
    ty: &str,
    wanted: &FieldDefinition,
) -> Result<bool, AllocError>
    ensures { IfOk result (λ good.
        good ≡ has_field (tree_of schema.now) ty.now (field_of wanted.now)) }
{
    match schema.field(ty, wanted.name.text.as_str()) {
        Some(own) => Ok(serves(alloc, schema, wanted, own)?),
        None => Ok(false),
    }
}

fn implements(alloc: Global, schema: &Schema, ty: &str, interface: &str) -> Result<bool, AllocError>
    ensures { IfOk result (λ good. good ≡ implements
        (tree_of schema.now) ty.now interface.now) }
{
    for wanted in schema.fields(interface) {
        if !has_field(alloc, schema, ty, wanted)? {
            return Ok(false);
        }
    }
    Ok(true)
}

fn bad_interface(
    alloc: Global,
    schema: &Schema,
    ty: &str,
    interfaces: &[Name],
) -> Result<Option<Place>, AllocError>
    ensures { IfOk result (λ place.
        place ≡ first_in (bad_interface (tree_of schema.now) ty.now) (names_of interfaces.now)) }
{
    for interface in interfaces {
        if !implements(alloc, schema, ty, interface.text.as_str())? {
            return Ok(Some(interface.place));
        }
    }
    Ok(None)
}

fn bad_interface_in(
    alloc: Global,
    schema: &Schema,
    definition: &Definition,
) -> Result<Option<Place>, AllocError>
    ensures { IfOk result (λ place.
        place ≡ bad_interface_in (tree_of schema.now) (definition_of definition.now)) }
{
    match definition {
        Definition::Object(object) => Ok(bad_interface(
            alloc,
            schema,
            object.name.text.as_str(),
            &object.interfaces,
        )?),
        Definition::Schema(_) => Ok(None),
        Definition::Interface(_) => Ok(None),
        Definition::Union(_) => Ok(None),
        Definition::Enum(_) => Ok(None),
    }
}

/// The first name of the text, after `implements`, of an interface that is not implemented (section 3.6).
///
/// Of arguments types alone are compared: an object's argument may lack the default of the interface's, or have
/// another.
pub fn first_bad_interface(alloc: Global, schema: &Schema) -> Result<Option<Place>, AllocError>
    ensures { IfOk result (λ place.
        place ≡ first_bad_interface (tree_of schema.now)) }
{
    for indexed in schema.definitions() {
        let place = bad_interface_in(alloc, schema, &indexed.definition)?;
        if place.is_some() {
            return Ok(place);
        }
    }
    Ok(None)
}
