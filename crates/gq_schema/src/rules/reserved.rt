//! Names that belong to introspection.

ghost use Rattle.std.specs.Prelude.{◌≡◌};
ghost use Rattle.schema_syntax.specs.Tree.{name_of, names_of, arguments_of, fields_of, definition_of};
ghost use Rattle.gq_schema.specs.Types.{tree_of};
ghost use Rattle.gq_schema.specs.Scan.{first_in};
ghost use Rattle.gq_schema.specs.Reserved.{reserved_name, reserved_argument, reserved_field, reserved_definition, first_reserved};

use gq_lexer::Place;
use schema_syntax::{ArgumentDefinition, Definition, FieldDefinition, Name};

fn reserved_name(name: &Name) -> Option<Place>
    ensures { result ≡ reserved_name (name_of name.now) }
{
    if name.text.as_str().starts_with("__") {
        Some(name.place)
    } else {
        None
    }
}

fn reserved_in(names: &[Name]) -> Option<Place>
    ensures { result ≡ first_in reserved_name
        (names_of names.now) }
{
    for name in names {
        if let Some(place) = reserved_name(name) {
            return Some(place);
        }
    }
    None
}

fn reserved_argument(arguments: &[ArgumentDefinition]) -> Option<Place>
    ensures { result ≡ first_in reserved_argument
        (arguments_of arguments.now) }
{
    for argument in arguments {
        if let Some(place) = reserved_name(&argument.name) {
            return Some(place);
        }
    }
    None
}

fn reserved_field(fields: &[FieldDefinition]) -> Option<Place>
    ensures { result ≡ first_in reserved_field
        (fields_of fields.now) }
{
    for field in fields {
        let place = reserved_name(&field.name).or_else(|| reserved_argument(&field.arguments));
        if let Some(place) = place {
            return Some(place);
        }
    }
    None
}

fn reserved_definition(definition: &Definition) -> Option<Place>
    ensures { result ≡ reserved_definition
        (definition_of definition.now) }
{
    match definition {
        Definition::Schema(_) => None,
        Definition::Object(object) => {
            reserved_name(&object.name).or_else(|| reserved_field(&object.fields))
        }
        Definition::Interface(interface) => {
            reserved_name(&interface.name).or_else(|| reserved_field(&interface.fields))
        }
        Definition::Union(union) => reserved_name(&union.name),
        Definition::Enum(values) => {
            reserved_name(&values.name).or_else(|| reserved_in(&values.values))
        }
    }
}

/// The first name of the text that is defined and begins with two underscores (section 3).
pub fn first_reserved(definitions: &[Definition]) -> Option<Place>
    ensures { result ≡ first_reserved
        (tree_of definitions.now) }
{
    for definition in definitions {
        if let Some(place) = reserved_definition(definition) {
            return Some(place);
        }
    }
    None
}
