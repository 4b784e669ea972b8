//! Indices of definitions, and of what they define, by name.

ghost use Rattle.std.specs.Prelude.{◌≡◌, ℕ, List, Some, None, IfOk, OnOk, find, map};
ghost use Rattle.std.specs.List.{list_any};
ghost use Rattle.std.specs.Option.{option_map, option_copied};
ghost use Rattle.std.specs.HashMap.{get_by_text};
ghost use Rattle.schema_syntax.specs.Tree.{names_of, field_of, fields_of, definition_of};
ghost use Rattle.gq_schema.specs.Scan.{or_else};
ghost use Rattle.gq_schema.specs.Places.{ArePlaces, place_from, place_if_called, part_place, found_place};
ghost use Rattle.gq_schema.specs.Types.{is_called, is_field, own_fields, own_values};

use crate::names::own_fields;
use schema_syntax::{Definition, FieldDefinition, Name};
use std::alloc::{AllocError, Global};
use std::collections::HashMap;

// The most fields or values among which a name is searched one after another: with more, by hash.
const MOST_SEARCHED: usize = 8;

/// The place of the first of each name in a list.
pub type NameIndices = HashMap<String, usize>;

/// Notes the place of a name, unless one of the name stands earlier.
pub fn note(places: &mut NameIndices, name: &Name, place: usize) -> Result<(), AllocError>
    ensures { (q : List ℕ) → OnOk result (get_by_text places.new q
        ≡ or_else (get_by_text places.old q) (place_if_called q name.now place)) }
{
    places.entry(name.text.clone()?)?.or_insert(place);
    Ok(())
}

fn field_places(alloc: Global, fields: &[FieldDefinition]) -> Result<NameIndices, AllocError>
    ensures { IfOk result
        (ArePlaces is_field (fields_of fields.now)) }
{
    let mut places: NameIndices = HashMap::new(alloc);
    for (i, field) in fields.iter().enumerate() {
        note(&mut places, &field.name, i)?;
    }
    Ok(places)
}

fn name_places(alloc: Global, names: &[Name]) -> Result<NameIndices, AllocError>
    ensures { IfOk result
        (ArePlaces is_called (names_of names.now)) }
{
    let mut places: NameIndices = HashMap::new(alloc);
    for (i, name) in names.iter().enumerate() {
        note(&mut places, name, i)?;
    }
    Ok(places)
}

// The place of a field among a few.
fn field_place(fields: &[FieldDefinition], name: &str) -> Option<usize>
    ensures { result ≡ place_from 0
        (is_field name.now) (fields_of fields.now) }
{
    for (i, field) in fields.iter().enumerate() {
        if name == field.name.text.as_str() {
            return Some(i);
        }
    }
    None
}

// The place of a value among a few.
fn name_place(names: &[Name], name: &str) -> Option<usize>
    ensures { result ≡ place_from 0
        (is_called name.now) (names_of names.now) }
{
    for (i, other) in names.iter().enumerate() {
        if name == other.text.as_str() {
            return Some(i);
        }
    }
    None
}

// The place of a field or value by search.
fn part_place(definition: &Definition, name: &str) -> Option<usize>
    ensures { result ≡ part_place
        (definition_of definition.now) name.now }
{
    match definition {
        Definition::Object(object) => field_place(&object.fields, name),
        Definition::Interface(interface) => field_place(&interface.fields, name),
        Definition::Enum(values) => name_place(&values.values, name),
        Definition::Schema(_) => None,
        Definition::Union(_) => None,
    }
}

// How many fields or values there are.
fn part_count(definition: &Definition) -> usize {
    match definition {
        Definition::Object(object) => object.fields.len(),
        Definition::Interface(interface) => interface.fields.len(),
        Definition::Enum(values) => values.values.len(),
        Definition::Schema(_) => 0,
        Definition::Union(_) => 0,
    }
}

fn part_places(alloc: Global, definition: &Definition) -> Result<NameIndices, AllocError>
    ensures { (q : List ℕ) → IfOk result
        (λ places. get_by_text places q ≡ part_place (definition_of definition.now) q) }
{
    match definition {
        Definition::Object(object) => field_places(alloc, &object.fields),
        Definition::Interface(interface) => field_places(alloc, &interface.fields),
        Definition::Enum(values) => name_places(alloc, &values.values),
        Definition::Schema(_) => Ok(HashMap::new(alloc)),
        Definition::Union(_) => Ok(HashMap::new(alloc)),
    }
}

// The places of the fields or values, where they are many.
fn many_places(alloc: Global, definition: &Definition) -> Result<Option<NameIndices>, AllocError>
    ensures { (q : List ℕ) → IfOk result (λ parts. found_place parts
        (definition_of definition.now) q ≡ part_place (definition_of definition.now) q) }
{
    if part_count(definition) <= MOST_SEARCHED {
        return Ok(None);
    }
    let places = part_places(alloc, definition)?;
    Ok(Some(places))
}

/// A definition, with the places of its fields or values where they are many.
#[derive(Drop)]
pub struct IndexedDefinition {
    pub definition: Definition,
    parts: Option<NameIndices>,
    ghost places: { (q : List ℕ) → found_place parts (definition_of definition) q
        ≡ part_place (definition_of definition) q },
}

impl IndexedDefinition {
    fn new(alloc: Global, definition: Definition) -> Result<IndexedDefinition, AllocError>
        ensures { IfOk result
            (λ indexed. indexed.definition ≡ definition) }
    {
        let parts = many_places(alloc, &definition)?;
        Ok(IndexedDefinition { definition, parts })
    }

    /// The field of this name.
    pub(crate) fn field(&self, name: &str) -> Option<&FieldDefinition>
        ensures { option_map field_of (option_copied result)
            ≡ find (is_field name.now) (own_fields (definition_of self.now.definition)) }
    {
        let fields = own_fields(&self.definition);
        let place = self.field_place(name)?;
        Some(&fields[place])
    }

    /// The place of the field of this name.
    pub(crate) fn field_place(&self, name: &str) -> Option<usize>
        ensures { result ≡ place_from 0 (is_field name.now)
            (own_fields (definition_of self.now.definition)) }
    {
        match &self.definition {
            Definition::Object(_) => self.place_of(name),
            Definition::Interface(_) => self.place_of(name),
            Definition::Schema(_) => None,
            Definition::Union(_) => None,
            Definition::Enum(_) => None,
        }
    }

    /// Tells whether it is an enum that has this value.
    pub(crate) fn has_value(&self, value: &str) -> bool
        ensures { result
            ≡ list_any (is_called value.now) (own_values (definition_of self.now.definition)) }
    {
        match &self.definition {
            Definition::Enum(_) => self.place_of(value).is_some(),
            Definition::Schema(_) => false,
            Definition::Object(_) => false,
            Definition::Interface(_) => false,
            Definition::Union(_) => false,
        }
    }

    /// The place of the field or of the enum's value of this name.
    pub(crate) fn place_of(&self, name: &str) -> Option<usize>
        ensures { result ≡ part_place
            (definition_of self.now.definition) name.now }
    {
        match &self.parts {
            Some(places) => places.get(name).copied(),
            None => part_place(&self.definition, name),
        }
    }
}

/// The definitions, each with its places.
pub fn index(
    alloc: Global,
    definitions: Vec<Definition>,
) -> Result<Vec<IndexedDefinition>, AllocError>
    ensures { IfOk result (λ all.
        map (λ indexed. indexed.definition) all.items ≡ definitions.items) }
{
    let mut all = Vec::with_capacity(alloc, definitions.len())?;
    for definition in definitions {
        all.push(IndexedDefinition::new(alloc, definition)?)?;
    }
    Ok(all)
}
