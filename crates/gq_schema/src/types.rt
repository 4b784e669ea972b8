//! Definitions of types.

ghost use Rattle.std.specs.Prelude.{◌≡◌, IfOk, string_bytes};
ghost use Rattle.std.specs.Option.{option_map, option_copied};
ghost use Rattle.schema_syntax.specs.Tree.{definition_of};
ghost use Rattle.gq_schema.specs.Indexes.{tree_in};
ghost use Rattle.gq_schema.specs.Places.{ArePlaces};
ghost use Rattle.gq_schema.specs.Types.{defines, type_in, kind_in, declared_root};

use crate::index::{IndexedDefinition, NameIndices, note};
use crate::kind::TypeKind;
use crate::names::{is_built_in, kind_of, type_name};
use schema_syntax::Definition;
use std::alloc::{AllocError, Global};
use std::collections::HashMap;

/// The place of the definition of each type.
pub fn type_places(
    alloc: Global,
    definitions: &[IndexedDefinition],
) -> Result<NameIndices, AllocError>
    ensures { IfOk result
        (ArePlaces defines (tree_in definitions.now)) }
{
    let mut places: NameIndices = HashMap::new(alloc);
    for (i, indexed) in definitions.iter().enumerate() {
        if let Some(name) = type_name(&indexed.definition) {
            note(&mut places, name, i)?;
        }
    }
    Ok(places)
}

/// The definition of a type.
pub fn definition<'a>(
    definitions: &'a [IndexedDefinition],
    types: &NameIndices,
    name: &str,
) -> Option<&'a IndexedDefinition>
    requires { ArePlaces defines (tree_in definitions.now) types.now }
    ensures { option_map (λ indexed. definition_of indexed.definition) (option_copied result)
        ≡ type_in (tree_in definitions.now) name.now }
{
    let place = *types.get(name)?;
    Some(&definitions[place])
}

/// The kind of a type.
pub fn kind(definitions: &[IndexedDefinition], types: &NameIndices, name: &str) -> Option<TypeKind>
    requires { ArePlaces defines (tree_in definitions.now) types.now }
    ensures { result ≡ kind_in
        (tree_in definitions.now) name.now }
{
    if is_built_in(name) {
        return Some(TypeKind::Scalar);
    }
    kind_of(&definition(definitions, types, name)?.definition)
}

/// The type that `schema` names as the root, where there is a `schema`.
pub fn declared_root(definitions: &[IndexedDefinition]) -> Result<Option<String>, AllocError>
    ensures { IfOk result (λ root.
        option_map string_bytes root ≡ declared_root (tree_in definitions.now)) }
{
    for indexed in definitions {
        if let Definition::Schema(schema) = &indexed.definition {
            return Ok(Some(schema.query.text.clone()?));
        }
    }
    Ok(None)
}
