//! What the types of fields are, found once.

ghost use Rattle.std.specs.Prelude.{◌≡◌, IfOk, map};
ghost use Rattle.schema_syntax.specs.Tree.{fields_of};
ghost use Rattle.gq_schema.specs.Indexes.{tree_in};
ghost use Rattle.gq_schema.specs.Places.{ArePlaces};
ghost use Rattle.gq_schema.specs.Types.{defines};
ghost use Rattle.gq_schema.specs.Entries.{entry_in, entries_of, own_entries};

use crate::index::{IndexedDefinition, NameIndices};
use crate::kind::TypeKind;
use crate::names::own_fields;
use crate::types::kind;
use schema_syntax::FieldDefinition;
use std::alloc::{AllocError, Global};

/// What a name stands for among types: the kind, and the place of the definition.
#[derive(Clone, Copy)]
pub struct TypeEntry {
    pub kind: Option<TypeKind>,
    pub place: Option<usize>,
}

/// The entry of a type.
pub fn entry_of(definitions: &[IndexedDefinition], types: &NameIndices, name: &str) -> TypeEntry
    requires { ArePlaces defines (tree_in definitions.now) types.now }
    ensures { result ≡ entry_in
        (tree_in definitions.now) name.now }
{
    TypeEntry {
        kind: kind(definitions, types, name),
        place: types.get(name).copied(),
    }
}

// The entry of the innermost type of each field.
fn entries_of(
    alloc: Global,
    definitions: &[IndexedDefinition],
    types: &NameIndices,
    fields: &[FieldDefinition],
) -> Result<Vec<TypeEntry>, AllocError>
    requires { ArePlaces defines (tree_in definitions.now) types.now }
    ensures { IfOk result (λ all. all.items
        ≡ entries_of (tree_in definitions.now) (fields_of fields.now)) }
{
    let mut all = Vec::with_capacity(alloc, fields.len())?;
    for field in fields {
        all.push(entry_of(definitions, types, field.of_type.innermost_name()))?;
    }
    Ok(all)
}

/// The entries of the innermost types of each definition's fields.
pub fn field_entries(
    alloc: Global,
    definitions: &[IndexedDefinition],
    types: &NameIndices,
) -> Result<Vec<Vec<TypeEntry>>, AllocError>
    requires { ArePlaces defines (tree_in definitions.now) types.now }
    ensures { IfOk result (λ all. map (λ one. one.items) all.items
        ≡ map (own_entries (tree_in definitions.now)) (tree_in definitions.now)) }
{
    let mut all = Vec::with_capacity(alloc, definitions.len())?;
    for indexed in definitions {
        let fields = own_fields(&indexed.definition);
        all.push(entries_of(alloc, definitions, types, fields)?)?;
    }
    Ok(all)
}
