//! What the selections of a document are read from, and the lists that they go into.

ghost use Rattle.gq_parser.specs.Tree.{document_of};
ghost use Rattle.rules_parts.specs.Fragments.{AreNumbers};

use crate::fragments::FragmentNumbers;
use crate::part::{DirectiveList, FieldPart, InlinePart, SpreadPart};
use gq_parser::Document;
use gq_schema::Schema;

/// A document with what its selections are looked up in.
#[derive(Clone, Copy)]
pub struct Source<'s, 'd> {
    pub schema: &'d Schema,
    pub document: &'d Document,
    pub numbers: &'s FragmentNumbers<'d>,
    ghost numbered: { AreNumbers (document_of document.now).fragments numbers.now },
}

/// Selections by their kind, and directives, which may be those of other parts too.
#[derive(Drop)]
pub struct SelectionLists<'d> {
    pub fields: Vec<FieldPart<'d>>,
    pub spreads: Vec<SpreadPart<'d>>,
    pub inlines: Vec<InlinePart<'d>>,
    pub directives: Vec<DirectiveList<'d>>,
}
