//! Defaults that are not of their argument's type.

ghost use Rattle.std.specs.Prelude.{◌≡◌};
ghost use Rattle.schema_syntax.specs.Tree.{arguments_of, argument_of, fields_of, definition_of};
ghost use Rattle.gq_schema.specs.Scan.{first_in};
ghost use Rattle.gq_schema.specs.Types.{tree_of};
ghost use Rattle.gq_schema.specs.Defaults.{bad_default, bad_default_of, bad_default_in, first_bad_default};

use crate::coercion::{accepts, place_of};
use crate::names::own_fields;
use crate::schema::Schema;
use gq_lexer::Place;
use schema_syntax::{ArgumentDefinition, FieldDefinition};

fn bad_default(schema: &Schema, argument: &ArgumentDefinition) -> Option<Place>
    ensures { result ≡ bad_default (tree_of schema.now)
        (argument_of argument.now) }
{
    let default = argument.default.as_ref()?;
    if accepts(schema, &argument.of_type, default) {
        None
    } else {
        Some(place_of(default))
    }
}

fn bad_default_among(schema: &Schema, arguments: &[ArgumentDefinition]) -> Option<Place>
    ensures { result ≡ first_in (bad_default (tree_of schema.now)) (arguments_of arguments.now) }
{
    for argument in arguments {
        if let Some(place) = bad_default(schema, argument) {
            return Some(place);
        }
    }
    None
}

fn bad_default_in(schema: &Schema, fields: &[FieldDefinition]) -> Option<Place>
    ensures { result ≡ first_in (bad_default_of (tree_of schema.now)) (fields_of fields.now) }
{
    for field in fields {
        if let Some(place) = bad_default_among(schema, &field.arguments) {
            return Some(place);
        }
    }
    None
}

/// The first default of the text that is not of its argument's type (section 3.6.1).
pub fn first_bad_default(schema: &Schema) -> Option<Place>
    ensures { result ≡ first_bad_default
        (tree_of schema.now) }
{
    for indexed in schema.definitions() {
        if let Some(place) = bad_default_in(schema, own_fields(&indexed.definition)) {
            return Some(place);
        }
    }
    None
}
