//! Validation (section 5).

ghost use Rattle.std.specs.Prelude.{◌≡◌, IfOk, IfErr, OnOk};
ghost use Rattle.std.specs.Arc.{arc_value};
ghost use Rattle.gq_parser.specs.Tree.{document_of};
ghost use Rattle.gq_schema.specs.Types.{tree_of};
ghost use Rattle.gq_check.specs.Verdict.{IsVerdict, IsValid, IsCheckFault};

use crate::checked::CheckedDocument;
use crate::fault::CheckFault;
use crate::rules::verdict;
use gq_parser::Document;
use gq_schema::Schema;
use rules_parts::Parts;
use rules_spreads::Graph;
use std::alloc::Global;
use std::sync::Arc;

// Tells whether a document keeps every rule, and else its first fault.
fn validate(alloc: Global, schema: &Schema, document: &Document) -> Result<(), CheckFault>
    ensures ok { OnOk result (IsValid (tree_of schema.now) (document_of document.now)) }
    ensures err { IfErr result
        (IsCheckFault (IsVerdict (tree_of schema.now) (document_of document.now))) }
{
    let parts = Parts::new(alloc, schema, document)?;
    let graph = Graph::new(alloc, &parts)?;
    match verdict(alloc, &parts, &graph)? {
        Some(report) => Err(report.to_fault(alloc)?),
        None => Ok(()),
    }
}

/// The document, where it keeps every rule of validation over a schema, which it then shares.
///
/// # Errors
///
/// The first of these: [`NotServed`](CheckFault::NotServed); [`Rule`](CheckFault::Rule) for the rule with the lowest section
/// number at its earliest place, but Field Selection Merging; [`TooDeep`](CheckFault::TooDeep) for the earliest such operation;
/// [`TooComplex`](CheckFault::TooComplex); [`Rule`](CheckFault::Rule) for Field Selection Merging.
/// [`NoMemory`](CheckFault::NoMemory) comes when out of memory. The document is dropped in each of these cases.
pub fn check(
    alloc: Global,
    schema: &Arc<Schema>,
    document: Document,
) -> Result<CheckedDocument, CheckFault>
    ensures schema { IfOk result (λ checked.
        checked.definitions ≡ arc_value schema.now) }
    ensures document { IfOk result
        (λ checked. checked.document ≡ document) }
    ensures ok { IfOk result (λ checked.
        IsValid (tree_of (arc_value schema.now)) (document_of checked.document)) }
    ensures err { IfErr result
        (IsCheckFault (IsVerdict (tree_of (arc_value schema.now)) (document_of document))) }
{
    validate(alloc, schema, &document)?;
    Ok(CheckedDocument::of(Arc::try_clone(schema)?, document))
}
