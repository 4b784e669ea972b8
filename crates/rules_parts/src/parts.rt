//! All parts of a document.

ghost use Rattle.std.specs.Prelude.{◌≡◌, map, IfOk};
ghost use Rattle.gq_parser.specs.Tree.{document_of};
ghost use Rattle.gq_schema.specs.Types.{tree_of};
ghost use Rattle.rules_parts.specs.Fragments.{fragment_place, AreNumbers};
ghost use Rattle.rules_parts.specs.Listing.{fields_of};
ghost use Rattle.rules_parts.specs.Pieces.{field_part_of};

use crate::fragments::{FragmentNumbers, fragment_numbers};
use crate::part::{
    ArgumentList, ArgumentPart, DirectiveList, FieldPart, InlinePart, SpreadPart, VariablePart,
    VariableUse,
};
use crate::selections::add_selections;
use crate::source::{SelectionLists, Source};
use crate::{arguments, listing};
use gq_parser::Document;
use gq_schema::Schema;
use std::alloc::{AllocError, Global};

/// The number of fields up to which their list takes memory once.
const FEW_FIELDS: usize = 16;

/// The parts of a document over a schema, each list with operations first and then fragments, in the order of the text.
#[derive(Drop)]
pub struct Parts<'d> {
    pub schema: &'d Schema,
    pub document: &'d Document,
    pub fields: Vec<FieldPart<'d>>,
    pub spreads: Vec<SpreadPart<'d>>,
    pub inlines: Vec<InlinePart<'d>>,
    pub variables: Vec<VariablePart<'d>>,
    /// Those of variables, then of operations, of fragments, and of selections.
    pub directive_lists: Vec<DirectiveList<'d>>,
    /// The arguments of each of these directives.
    pub directive_arguments: Vec<ArgumentList<'d>>,
    /// Those of each field, then those of each directive.
    pub arguments: Vec<ArgumentPart<'d>>,
    /// The variables in these arguments.
    pub uses: Vec<VariableUse<'d>>,
    fragments: FragmentNumbers<'d>,
    ghost numbered: { AreNumbers (document_of document.now).fragments fragments },
    ghost listed: { ∥ map field_part_of fields.items ≡ fields_of (tree_of schema.now) (document_of document.now) ∥₁ },
}

impl<'d> Parts<'d> {
    ghost use Rattle.rules_parts.specs.Listing.{parts_of};
    ghost use Rattle.rules_parts.specs.Parts.{parts_in};

    /// The parts of a document. The recursion is as deep as the document's nesting.
    pub fn new(
        alloc: Global,
        schema: &'d Schema,
        document: &'d Document,
    ) -> Result<Parts<'d>, AllocError>
        ensures { IfOk result (λ parts.
            parts_in parts ≡ parts_of (tree_of schema.now) (document_of document.now)) }
    {
        let fragments = fragment_numbers(alloc, &document.fragments)?;
        let variables = listing::variables(alloc, document)?;
        let mut lists = SelectionLists {
            fields: Vec::with_capacity(alloc, FEW_FIELDS)?,
            spreads: Vec::new(alloc),
            inlines: Vec::new(alloc),
            directives: listing::definition_directives(alloc, document, &variables)?,
        };
        let source = Source {
            schema,
            document,
            numbers: &fragments,
        };
        add_selections(&source, &mut lists)?;
        let given = arguments::directive_arguments(alloc, schema, &lists.directives)?;
        let arguments = arguments::arguments(alloc, &lists.fields, &given)?;
        let uses = arguments::uses(alloc, &arguments)?;
        Ok(Parts {
            schema,
            document,
            fields: lists.fields,
            spreads: lists.spreads,
            inlines: lists.inlines,
            variables,
            directive_lists: lists.directives,
            directive_arguments: given,
            arguments,
            uses,
            fragments,
        })
    }

    /// The number of the first fragment of each name, from 0.
    pub fn fragment_numbers(&self) -> &FragmentNumbers<'d>
        ensures { AreNumbers (parts_in self.now).document.fragments result.now }
    {
        &self.fragments
    }

    /// The number of the first fragment of this name, from 0.
    pub fn fragment(&self, name: &str) -> Option<usize>
        ensures { result ≡ fragment_place (parts_in self.now).document.fragments name.now }
    {
        self.fragments.get(name).copied()
    }
}
