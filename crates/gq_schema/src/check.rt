//! Checks that definitions are a schema.

ghost use Rattle.std.specs.Prelude.{◌≡◌, ◌≢◌, None, Some, IfOk, IfErr};
ghost use Rattle.gq_schema.specs.Types.{tree_of};
ghost use Rattle.gq_schema.specs.Fault.{missing_root, fault_of_types, fault_of};

use crate::fault::SchemaFault;
use crate::rules::defaults::first_bad_default;
use crate::rules::implements::first_bad_interface;
use crate::rules::repeated::first_repeated;
use crate::rules::reserved::first_reserved;
use crate::rules::uses::{TypeUseDemand, first_broken};
use crate::schema::Schema;
use schema_syntax::SchemaDocument;
use std::alloc::{AllocError, Global};

// The fault that there is no root, where there is none.
fn missing_root(schema: &Schema) -> Option<SchemaFault>
    ensures { result ≡ missing_root (tree_of schema.now) }
{
    if schema.declares_root() || schema.defines("Query") {
        None
    } else {
        Some(SchemaFault::NoQueryRoot)
    }
}

// The first fault in types, interfaces and defaults, in the order of the rules.
fn fault_of_types(alloc: Global, schema: &Schema) -> Result<Option<SchemaFault>, AllocError>
    ensures { IfOk result (λ fault.
        fault ≡ fault_of_types (tree_of schema.now)) }
{
    if let Some(place) = first_broken(schema, TypeUseDemand::IsDefined) {
        return Ok(Some(SchemaFault::UnknownType(place)));
    }
    if let Some(place) = first_broken(schema, TypeUseDemand::Fits) {
        return Ok(Some(SchemaFault::BadKind(place)));
    }
    if let Some(place) = first_bad_interface(alloc, schema)? {
        return Ok(Some(SchemaFault::BadImplements(place)));
    }
    if let Some(place) = first_bad_default(schema) {
        return Ok(Some(SchemaFault::BadDefault(place)));
    }
    Ok(missing_root(schema))
}

/// The schema of these definitions, where they keep the rules (section 3).
pub fn check(alloc: Global, document: SchemaDocument) -> Result<Schema, SchemaFault>
    ensures definitions { IfOk result
        (λ schema. schema ≡ document.definitions.items) }
    ensures sound { IfOk result (λ _. fault_of
        (tree_of document.definitions.items) ≡ None) }
    ensures fault { IfErr result (λ e.
        e ≢ SchemaFault.NoMemory → fault_of (tree_of document.definitions.items) ≡ Some e) }
{
    if let Some(place) = first_reserved(&document.definitions) {
        return Err(SchemaFault::ReservedName(place));
    }
    if let Some(place) = first_repeated(alloc, &document.definitions)? {
        return Err(SchemaFault::Duplicate(place));
    }
    let schema = Schema::of(alloc, document)?;
    match fault_of_types(alloc, &schema)? {
        Some(fault) => Err(fault),
        None => Ok(schema),
    }
}
