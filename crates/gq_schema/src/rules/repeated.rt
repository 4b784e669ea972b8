//! Names that are defined a second time.

ghost use Rattle.std.specs.Prelude.{◌≡◌, ◌||◌, ℕ, List, [], IfOk, OnOk, Some, None, not, bytes_eq, string_bytes};
ghost use Rattle.schema_syntax.specs.Tree.{name_of, names_of, arguments_of, fields_of, definition_of};
ghost use Rattle.gq_schema.specs.Types.{tree_of, is_built_in};
ghost use Rattle.gq_schema.specs.Seen.{has_text, place_if_seen};
ghost use Rattle.gq_schema.specs.Repeated.{repeated_name, repeated_argument, repeated_field, repeated_self, repeated_within, first_repeated};
ghost use Rattle.gq_schema.specs.Earlier.{Agrees, Passes};

use crate::names::is_built_in;
use gq_lexer::Place;
use schema_syntax::{ArgumentDefinition, Definition, FieldDefinition, Name};
use std::alloc::{AllocError, Global};
use std::collections::HashSet;

/// The texts of the names that stood earlier.
type EarlierNames<'a> = HashSet<&'a str>;

// Notes a name; true if it wasn't noted before.
fn note<'a>(seen: &mut EarlierNames<'a>, name: &'a Name) -> Result<bool, AllocError>
    ensures first { IfOk result (λ first.
        first ≡ not (has_text seen.old (string_bytes name.now.text))) }
    ensures noted { (q : List ℕ) → OnOk result
        (has_text seen.new q ≡ (bytes_eq q (string_bytes name.now.text) || has_text seen.old q)) }
{
    let first = seen.insert(name.text.as_str())?;
    Ok(first)
}

fn repeated_name(alloc: Global, names: &[Name]) -> Result<Option<Place>, AllocError>
    ensures { IfOk result (λ place.
        place ≡ repeated_name [] (names_of names.now)) }
{
    let mut seen: EarlierNames = HashSet::new(alloc);
    for name in names {
        if !note(&mut seen, name)? {
            return Ok(Some(name.place));
        }
    }
    Ok(None)
}

fn repeated_argument(
    alloc: Global,
    arguments: &[ArgumentDefinition],
) -> Result<Option<Place>, AllocError>
    ensures { IfOk result (λ place. place ≡ repeated_argument [] (arguments_of arguments.now)) }
{
    let mut seen: EarlierNames = HashSet::new(alloc);
    for argument in arguments {
        if !note(&mut seen, &argument.name)? {
            return Ok(Some(argument.name.place));
        }
    }
    Ok(None)
}

fn repeated_field(alloc: Global, fields: &[FieldDefinition]) -> Result<Option<Place>, AllocError>
    ensures { IfOk result (λ place.
        place ≡ repeated_field [] (fields_of fields.now)) }
{
    let mut seen: EarlierNames = HashSet::new(alloc);
    for field in fields {
        if !note(&mut seen, &field.name)? {
            return Ok(Some(field.name.place));
        }
        let place = repeated_argument(alloc, &field.arguments)?;
        if place.is_some() {
            return Ok(place);
        }
    }
    Ok(None)
}

/// Holds what stood earlier: the names of types, and whether `schema` did.
#[derive(Drop)]
struct EarlierDefinitions<'a> {
    types: EarlierNames<'a>,
    rooted: bool,
}

// The name of a definition that stood earlier, or the place of a second `schema`. Notes the definition.
fn repeated_self<'a>(
    earlier: &mut EarlierDefinitions<'a>,
    definition: &'a Definition,
) -> Result<Option<Place>, AllocError>
    ensures { (ds : _) → Agrees earlier.old ds
        → IfOk result (Passes earlier.new ds (definition_of definition.now)) }
{
    match definition {
        Definition::Schema(schema) => {
            let repeated = earlier.rooted;
            earlier.rooted = true;
            Ok(repeated.then_some(schema.place))
        }
        Definition::Object(object) => Ok(repeated_type(&mut earlier.types, &object.name)?),
        Definition::Interface(interface) => Ok(repeated_type(&mut earlier.types, &interface.name)?),
        Definition::Union(union) => Ok(repeated_type(&mut earlier.types, &union.name)?),
        Definition::Enum(values) => Ok(repeated_type(&mut earlier.types, &values.name)?),
    }
}

// The name of a type, where one of the same name stood earlier.
fn repeated_type<'a>(
    seen: &mut EarlierNames<'a>,
    name: &'a Name,
) -> Result<Option<Place>, AllocError>
    ensures place { IfOk result
        (λ place. place ≡ place_if_seen seen.old name.now) }
    ensures noted { (q : List ℕ) → OnOk result
        (has_text seen.new q ≡ (bytes_eq q (string_bytes name.now.text) || has_text seen.old q)) }
{
    let first = note(seen, name)?;
    let repeated = !first || is_built_in(name.text.as_str());
    Ok(repeated.then_some(name.place))
}

// The first name within a definition that is defined a second time.
fn repeated_within(alloc: Global, definition: &Definition) -> Result<Option<Place>, AllocError>
    ensures { IfOk result (λ place. place
        ≡ repeated_within (definition_of definition.now)) }
{
    match definition {
        Definition::Schema(_) => Ok(None),
        Definition::Object(object) => {
            let place = repeated_name(alloc, &object.interfaces)?;
            if place.is_some() {
                return Ok(place);
            }
            repeated_field(alloc, &object.fields)
        }
        Definition::Interface(interface) => repeated_field(alloc, &interface.fields),
        Definition::Union(union) => repeated_name(alloc, &union.members),
        Definition::Enum(values) => repeated_name(alloc, &values.values),
    }
}

/// The first name of the text that is defined a second time, of those that the rule speaks of (section 3).
pub fn first_repeated(
    alloc: Global,
    definitions: &[Definition],
) -> Result<Option<Place>, AllocError>
    ensures { IfOk result (λ place.
        place ≡ first_repeated (tree_of definitions.now)) }
{
    let mut earlier = EarlierDefinitions {
        types: HashSet::new(alloc),
        rooted: false,
    };
    for definition in definitions {
        let place = repeated_self(&mut earlier, definition)?;
        if place.is_some() {
            return Ok(place);
        }
        let place = repeated_within(alloc, definition)?;
        if place.is_some() {
            return Ok(place);
        }
    }
    Ok(None)
}
