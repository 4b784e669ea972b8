//! The object types that each type can be (section 5.5.2.3).

ghost use Rattle.std.specs.Prelude.{◌≡◌, ◌||◌, ℕ, List, OnOk, IfOk, bytes_eq, string_bytes};
ghost use Rattle.std.specs.List.{list_any};
ghost use Rattle.schema_syntax.specs.Tree.{names_of, definition_of};
ghost use Rattle.gq_schema.specs.Indexes.{tree_in};
ghost use Rattle.gq_schema.specs.Types.{is_called, possible_names};
ghost use Rattle.gq_schema.specs.Possible.{names_at, CanBeIf, is_among, includes, unions_at, has_union, with_union_if, is_union_with, AreUnions, AddsPossible};

use crate::index::IndexedDefinition;
use crate::type_names::TypeNames;
use schema_syntax::{Definition, Name, ObjectDefinition, UnionDefinition};
use std::alloc::{AllocError, Global};
use std::collections::HashMap;

/// The object types that each type can be, in the order of their definitions.
pub type Possible = HashMap<String, TypeNames>;

/// The unions that each type is a member of.
type Unions<'a> = HashMap<&'a str, Vec<&'a Name>>;

// Notes that a type can be an object type.
fn add_to(
    alloc: Global,
    possible: &mut Possible,
    name: &Name,
    object: &Name,
) -> Result<(), AllocError>
    ensures { (q : List ℕ) → OnOk result
        (CanBeIf (bytes_eq q (string_bytes name.now.text)) q object.now possible.old possible.new) }
{
    possible
        .entry(name.text.clone()?)?
        .or_insert(TypeNames::new(alloc))
        .add(&object.text)?;
    Ok(())
}

// Notes that each of the types can be an object type.
fn add_to_each(
    alloc: Global,
    possible: &mut Possible,
    names: &[Name],
    object: &Name,
) -> Result<(), AllocError>
    ensures { (q : List ℕ) → OnOk result (CanBeIf
        (list_any (is_called q) (names_of names.now)) q object.now possible.old possible.new) }
{
    for name in names {
        add_to(alloc, possible, name, object)?;
    }
    Ok(())
}

fn add_to_unions(
    alloc: Global,
    possible: &mut Possible,
    names: &[&Name],
    object: &Name,
) -> Result<(), AllocError>
    ensures { (q : List ℕ)
        → OnOk result (CanBeIf (is_among q names.now) q object.now possible.old possible.new) }
{
    for name in names {
        add_to(alloc, possible, name, object)?;
    }
    Ok(())
}

// Notes what an object type is a possible type of.
fn add_object(
    alloc: Global,
    possible: &mut Possible,
    object: &ObjectDefinition,
    unions: &Unions,
) -> Result<(), AllocError>
    ensures { (q : List ℕ) → OnOk result
        (CanBeIf (includes unions.now q object.now) q object.now.name possible.old possible.new) }
{
    add_to(alloc, possible, &object.name, &object.name)?;
    add_to_each(alloc, possible, &object.interfaces, &object.name)?;
    if let Some(unions) = unions.get(object.name.text.as_str()) {
        add_to_unions(alloc, possible, unions, &object.name)?;
    }
    Ok(())
}

// Notes that a type is a member of a union.
fn note_union<'a>(
    alloc: Global,
    unions: &mut Unions<'a>,
    member: &'a Name,
    union: &'a Name,
) -> Result<(), AllocError>
    ensures { (o : List ℕ) → OnOk result (unions_at unions.new o ≡ with_union_if
        (bytes_eq o (string_bytes member.now.text)) union.now (unions_at unions.old o)) }
{
    unions
        .entry(member.text.as_str())?
        .or_insert(Vec::new(alloc))
        .push(union)?;
    Ok(())
}

fn note_members<'a>(
    alloc: Global,
    unions: &mut Unions<'a>,
    union: &'a UnionDefinition,
) -> Result<(), AllocError>
    ensures { (o q : List ℕ) → OnOk result
        (has_union unions.new o q ≡ (is_union_with union.now o q || has_union unions.old o q)) }
{
    for member in &union.members {
        note_union(alloc, unions, member, &union.name)?;
    }
    Ok(())
}

// Notes what a definition is a possible type of.
fn add_definition(
    alloc: Global,
    possible: &mut Possible,
    definition: &Definition,
    unions: &Unions,
) -> Result<(), AllocError>
    ensures { (defs : _) (q : List ℕ) → AreUnions unions.now defs → OnOk result
        (AddsPossible defs q (definition_of definition.now) possible.old possible.new) }
{
    match definition {
        Definition::Object(object) => {
            add_object(alloc, possible, object, unions)?;
            Ok(())
        }
        Definition::Schema(_) => Ok(()),
        Definition::Interface(_) => Ok(()),
        Definition::Union(_) => Ok(()),
        Definition::Enum(_) => Ok(()),
    }
}

// The unions that each type is a member of.
fn unions_in<'a>(
    alloc: Global,
    definitions: &'a [IndexedDefinition],
) -> Result<Unions<'a>, AllocError>
    ensures { IfOk result (λ unions.
        AreUnions unions (tree_in definitions.now)) }
{
    let mut unions: Unions = HashMap::new(alloc);
    for indexed in definitions {
        if let Definition::Union(union) = &indexed.definition {
            note_members(alloc, &mut unions, union)?;
        }
    }
    Ok(unions)
}

/// The object types that each type can be.
pub fn possible_in(alloc: Global, definitions: &[IndexedDefinition]) -> Result<Possible, AllocError>
    ensures { (q : List ℕ) → IfOk result (λ possible.
        names_at possible q ≡ possible_names (tree_in definitions.now) q) }
{
    let unions = unions_in(alloc, definitions)?;
    let mut possible: Possible = HashMap::new(alloc);
    for indexed in definitions {
        add_definition(alloc, &mut possible, &indexed.definition, &unions)?;
    }
    Ok(possible)
}
