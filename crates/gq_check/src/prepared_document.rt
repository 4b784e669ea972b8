//! Checked documents of which many plans are prepared.

ghost use Rattle.std.specs.Prelude.{◌≡◌, IfOk, map};
ghost use Rattle.std.specs.Arc.{arc_value};
ghost use Rattle.gq_schema.specs.Types.{tree_of};
ghost use Rattle.gq_check.specs.Plans.{kept_document};
ghost use Rattle.gq_check.specs.Verdict.{IsValid};

use crate::checked::CheckedDocument;
use crate::fragments::Fragments;
use gq_parser::{Document, Operation};
use gq_schema::Schema;
use std::alloc::{AllocError, Global};
use std::marker::Model;
use std::sync::Arc;

/// A checked document of which plans are prepared again and again. Its fragments are indexed once, and its plans share it.
///
/// A contract sees it as its operations, its fragments and the definitions of the schema.
///
/// Each operation has an `Arc` of its own. With one for all of them a plan's view would have to say which
/// operation stands at a place past the last.
#[derive(Drop)]
pub struct PreparedDocument {
    schema: Arc<Schema>,
    operations: Vec<Arc<Operation>>,
    fragments: Arc<Fragments>,
}

impl Model for PreparedDocument {
    ghost use Rattle.std.specs.Prelude.{map};
    ghost use Rattle.std.specs.Coded.{codes};
    ghost use Rattle.gq_parser.specs.contracts.tree.TypeRef as type_ref;
    ghost use Rattle.gq_parser.specs.contracts.tree.Literal as literal;
    ghost use Rattle.gq_parser.specs.contracts.tree.Argument as argument;
    ghost use Rattle.gq_parser.specs.contracts.tree.SelectionSet as set;
    ghost use Rattle.gq_check.specs.Plans.{KeptParts};

    ghost Value = { KeptParts };

    ghost coded = { Prim.hlevel (codes, type_ref.the_row.coded, literal.the_row.coded, argument.the_row.coded, set.the_row.coded) };

    ghost use Rattle.std.specs.Arc.{arc_value};
    ghost use Rattle.gq_schema.specs.Types.{tree_of};
    ghost use Rattle.gq_check.specs.Plans.{document_with};
    ghost use Rattle.gq_check.specs.Verdict.{IsValid};

    ghost view = { λ k. record { definitions = arc_value k.schema; operations = map arc_value k.operations.items; fragments = arc_value k.fragments } };

    ghost invariant = { λ k. IsValid (tree_of (arc_value k.schema)) (document_with (map arc_value k.operations.items) (arc_value k.fragments)) };
}

// The operations, to be shared.
fn share_operations(
    alloc: Global,
    operations: Vec<Operation>,
) -> Result<Vec<Arc<Operation>>, AllocError>
    ensures { IfOk result (λ shared.
        map arc_value shared.items ≡ operations.items) }
{
    let mut shared = Vec::with_capacity(alloc, operations.len())?;
    for operation in operations {
        shared.push(Arc::new(alloc, operation)?)?;
    }
    Ok(shared)
}

impl PreparedDocument {
    /// This document.
    ///
    /// # Errors
    ///
    /// Only when out of memory. The document is not given back.
    pub fn of(alloc: Global, checked: CheckedDocument) -> Result<PreparedDocument, AllocError>
        ensures definitions { IfOk result (λ kept.
            kept.definitions ≡ checked.definitions) }
        ensures operations { IfOk result (λ kept.
            kept.operations ≡ checked.document.operations.items) }
        ensures fragments { IfOk result (λ kept.
            kept.fragments ≡ checked.document.fragments.items) }
    {
        let (schema, document) = checked.into_parts();
        let Document {
            operations,
            fragments,
        } = document;
        let operations = share_operations(alloc, operations)?;
        let fragments = Arc::new(alloc, Fragments::of(alloc, fragments)?)?;
        Ok(PreparedDocument {
            schema,
            operations,
            fragments,
        })
    }

    /// The schema.
    pub fn schema(&self) -> &Arc<Schema>
        ensures { arc_value result.now
            ≡ self.now.definitions }
    {
        &self.schema
    }

    /// The operations of the document, in the order of the text.
    pub fn operations(&self) -> &[Arc<Operation>]
        ensures same { map arc_value result.now
            ≡ self.now.operations }
        // The document keeps every rule.
        ensures valid { IsValid (tree_of self.now.definitions) (kept_document self.now) }
    {
        &self.operations
    }

    /// The fragments of the document.
    pub(crate) fn fragments(&self) -> &Arc<Fragments>
        ensures { arc_value result.now
            ≡ self.now.fragments }
    {
        &self.fragments
    }
}
