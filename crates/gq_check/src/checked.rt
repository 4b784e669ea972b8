//! Documents that were checked.

ghost use Rattle.std.specs.Prelude.{◌≡◌};
ghost use Rattle.std.specs.Arc.{arc_value};
ghost use Rattle.gq_parser.specs.Tree.{document_of};
ghost use Rattle.gq_schema.specs.Types.{tree_of};
ghost use Rattle.gq_check.specs.Verdict.{IsValid};

use gq_parser::Document;
use gq_schema::Schema;
use std::marker::Model;
use std::sync::Arc;

/// A document that keeps every rule of validation over a schema, which it shares.
///
/// A contract sees it as the document and the definitions of the schema.
#[derive(Drop)]
pub struct CheckedDocument {
    schema: Arc<Schema>,
    document: Document,
}

impl Model for CheckedDocument {
    ghost use Rattle.std.specs.Coded.{codes};
    ghost use Rattle.gq_parser.specs.contracts.tree.TypeRef as type_ref;
    ghost use Rattle.gq_parser.specs.contracts.tree.Literal as literal;
    ghost use Rattle.gq_parser.specs.contracts.tree.Argument as argument;
    ghost use Rattle.gq_parser.specs.contracts.tree.SelectionSet as set;
    ghost use Rattle.gq_check.specs.Plans.{CheckedParts};

    ghost Value = { CheckedParts };

    ghost coded = { Prim.hlevel (codes, type_ref.the_row.coded, literal.the_row.coded, argument.the_row.coded, set.the_row.coded) };

    ghost use Rattle.std.specs.Arc.{arc_value};
    ghost use Rattle.gq_parser.specs.Tree.{document_of};
    ghost use Rattle.gq_schema.specs.Types.{tree_of};
    ghost use Rattle.gq_check.specs.Verdict.{IsValid};

    ghost view = { λ c. record { definitions = arc_value c.schema; document = c.document } };

    ghost invariant = { λ c. IsValid (tree_of (arc_value c.schema)) (document_of c.document) };
}

impl CheckedDocument {
    /// A document that keeps every rule.
    pub(crate) fn of(schema: Arc<Schema>, document: Document) -> CheckedDocument
        requires { IsValid (tree_of (arc_value schema))
            (document_of document) }
        ensures { result ≡ record { definitions = arc_value schema; document = document } }
    {
        CheckedDocument { schema, document }
    }

    /// The schema.
    pub fn schema(&self) -> &Arc<Schema>
        ensures { arc_value result.now
            ≡ self.now.definitions }
    {
        &self.schema
    }

    /// The document.
    pub fn document(&self) -> &Document
        ensures same { result.now ≡ self.now.document }
        ensures valid { IsValid (tree_of self.now.definitions) (document_of result.now) }
    {
        &self.document
    }

    /// The schema and the document, to be kept.
    pub(crate) fn into_parts(self) -> (Arc<Schema>, Document)
        ensures schema { arc_value result.0
            ≡ self.definitions }
        ensures document { result.1 ≡ self.document }
        ensures valid { IsValid (tree_of self.definitions)
            (document_of result.1) }
    {
        (self.schema, self.document)
    }
}
